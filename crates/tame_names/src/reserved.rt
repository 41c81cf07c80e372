//! Reserved names.
ghost use Rattle.std.specs.Prelude.{◌≡◌, ℕ, List, map, option_map, is_some, IfSome};
ghost use Rattle.tame_names.specs.Names.{reserved_kind, stands_in};

use crate::errors::ReservedNameKind;

/// Rust Reference, "Keywords".
const KEYWORDS: [&str; 51] = [
    "Self", "abstract", "as", "async", "await", "become", "box", "break", "const", "continue",
    "crate", "do", "dyn", "else", "enum", "extern", "false", "final", "fn", "for", "if", "impl",
    "in", "let", "loop", "macro", "match", "mod", "move", "mut", "override", "priv", "pub", "ref",
    "return", "self", "static", "struct", "super", "trait", "true", "try", "type", "typeof",
    "unsafe", "unsized", "use", "virtual", "where", "while", "yield",
];

/// Folders that cargo creates in its target folder.
const ARTIFACTS: [&str; 4] = ["build", "deps", "examples", "incremental"];

/// Devices that Windows finds in every folder.
const WINDOWS: [&str; 22] = [
    "aux", "con", "nul", "prn", "com1", "com2", "com3", "com4", "com5", "com6", "com7", "com8",
    "com9", "lpt1", "lpt2", "lpt3", "lpt4", "lpt5", "lpt6", "lpt7", "lpt8", "lpt9",
];

/// Crates that come with the compiler.
const LIBRARIES: [&str; 6] = ["alloc", "core", "proc-macro", "proc_macro", "std", "test"];

/// The entry of a table that equals a name.
fn found_in(table: &'static [&'static str], name: &str) -> Option<&'static str>
    ensures found { is_some result ≡ stands_in name.now (map (λ word. word.now) table.now) }
    ensures same { IfSome result (λ word. word.now ≡ name.now) }
{
    for word in table {
        if *word == name {
            return Some(*word);
        }
    }
    None
}

/// The name, and why it is reserved.
pub fn reserved_name(name: &str) -> Option<(&'static str, ReservedNameKind)>
    ensures name { IfSome result (λ r. r.0.now ≡ name.now) }
    ensures kind { option_map (λ r. r.1) result ≡ reserved_kind name.now }
{
    if let Some(word) = found_in(&KEYWORDS, name) {
        return Some((word, ReservedNameKind::Keyword));
    }
    if let Some(word) = found_in(&ARTIFACTS, name) {
        return Some((word, ReservedNameKind::Artifact));
    }
    if let Some(word) = found_in(&WINDOWS, name) {
        return Some((word, ReservedNameKind::Windows));
    }
    if let Some(word) = found_in(&LIBRARIES, name) {
        return Some((word, ReservedNameKind::Standard));
    }
    None
}
