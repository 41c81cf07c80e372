//! Laws of names, over their definitions.
ghost use Rattle.std.specs.Prelude.{◌≡◌, ◌↔◌, ℕ, List, Some, None};
ghost use Rattle.std.specs.Str.{IsUtf8};
ghost use Rattle.tame_names.specs.NameRules.{IsCargoName, IsCratesIoName};
ghost use Rattle.tame_names.specs.Names.{strict_refusal};

/// Cargo and crates.io accept exactly the strings that meet their rules, said in no order: there is
/// a character, the first is an ASCII letter or `_`, each is an ASCII letter or digit, `-` or `_`,
/// and the string isn't reserved; crates.io also requires at most 64 characters.
pub fn names_by_their_rules()
    ensures cargo { (text : List ℕ) → IsUtf8 text
        → (strict_refusal None text ≡ None) ↔ IsCargoName text }
    ensures crates_io { (text : List ℕ) → IsUtf8 text
        → (strict_refusal (Some 64) text ≡ None) ↔ IsCratesIoName text }
{}
