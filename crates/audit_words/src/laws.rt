//! What holds of the meaning of the arguments.
ghost use Rattle.std.specs.Prelude.{◌≡◌, ◌≢◌, ◌<◌, ◌≤◌, ◌+◌, ◌-◌, ◌*◌, ◌^◌, ℕ, codes, List, [], ◌∷◌, ◌++◌, true, false, Some, None, Ok, Err, length, take};
ghost use Rattle.audit_advisory.specs.declared.outputs.TheConstants.{VERSION};
ghost use Rattle.std.specs.Fmt.{decimal};
ghost use Rattle.audit_settings.specs.declared.commands.AuditCommand.{AuditCommand};
ghost use Rattle.audit_words.specs.Laws.{CanJoin, IsLettered, IsNamed, drafted, given, is_setting, quieted, replaces, set_by, was_quiet};
ghost use Rattle.audit_words.specs.Reading.{and_then, command_of, ended, finish, has_baseline, is_option, read_word, start, unless_ended};
ghost use Rattle.audit_words.specs.Values.{number, value_from};
ghost use Rattle.audit_words.specs.declared.commands.Command.{Command};
ghost use Rattle.audit_words.specs.declared.commands.Command.TheVariants.{Baseline, Generate, WriteBaseline};
ghost use Rattle.audit_words.specs.declared.drafts.Draft.{Draft};
ghost use Rattle.audit_words.specs.declared.drafts.Stop.{Stop};
ghost use Rattle.audit_words.specs.declared.options.Meaning.{Meaning};
ghost use Rattle.audit_words.specs.declared.options.Phase.TheVariants.{Audit};
ghost use Rattle.audit_words.specs.declared.texts.TheConstants.{HELP_TEXT, VERSION_TEXT};

/// The version text names the program and its version, and the help begins with that line.
pub fn texts_name_the_version()
    ensures version { VERSION.now ≡ codes "0.22.2" }
    ensures text { VERSION_TEXT.now ≡ codes "cargo-audit 0.22.2" }
    ensures help { take 19 HELP_TEXT.now ≡ codes "cargo-audit 0.22.2\n" }
{}

/// The reading ends at the first word that ends it, after words that make a draft: its position is
/// the number of words before it. If no word ends the reading, the draft that all of them make is
/// finished, at the position after the last.
pub fn reading_ends_at_its_word()
    ensures within { (front back : List (List ℕ)) (word : List ℕ) (d : Draft) (s : Stop)
        → drafted front start ≡ Ok d → read_word word d ≡ Err s
        → command_of (front ++ word ∷ back) ≡ ended (length front) s }
    ensures behind { (words : List (List ℕ)) (d : Draft) → drafted words start ≡ Ok d
        → command_of words ≡ unless_ended (length words) (λ c. Ok c) (finish d) }
{}

/// What is generated has 1 to 5,000 packages.
pub fn generated_packages_are_bounded()
    ensures { (words : List (List ℕ)) (n : ℕ) → command_of words ≡ Ok (Generate n)
        → (1 ≤ n) × (n ≤ 5000) }
{}

/// The five spellings of a value mean the same: `--x=v`, `--x v`, `-xv`, `-x=v` and `-x v`.
pub fn spellings_agree()
    ensures long_equals { (d : Draft) (x v : List ℕ) (m : Meaning) → IsNamed d x m
        → drafted ((codes "--" ++ (x ++ (codes "=" ++ v))) ∷ []) d ≡ given m v d }
    ensures long_apart { (d : Draft) (x v : List ℕ) (m : Meaning) → IsNamed d x m
        → is_option v ≡ false → drafted ((codes "--" ++ x) ∷ v ∷ []) d ≡ given m v d }
    ensures short_joined { (d : Draft) (x : ℕ) (v : List ℕ) (m : Meaning) → IsLettered d x m
        → CanJoin v → drafted ((codes "-" ++ x ∷ v) ∷ []) d ≡ given m v d }
    ensures short_equals { (d : Draft) (x : ℕ) (v : List ℕ) (m : Meaning) → IsLettered d x m
        → drafted ((codes "-" ++ x ∷ (codes "=" ++ v)) ∷ []) d ≡ given m v d }
    ensures short_apart { (d : Draft) (x : ℕ) (v : List ℕ) (m : Meaning) → IsLettered d x m
        → is_option v ≡ false → drafted ((codes "-" ++ x ∷ []) ∷ v ∷ []) d ≡ given m v d }
{}

/// In a list that is accepted, words may be replaced by others that make the same draft.
pub fn same_drafts_same_command()
    ensures { (front a b back : List (List ℕ)) (d : Draft) (c : Command)
        → drafted front start ≡ Ok d → drafted a d ≡ drafted b d
        → command_of (front ++ (a ++ back)) ≡ Ok c → command_of (front ++ (b ++ back)) ≡ Ok c }
{}

/// Two different options, each a flag or with its value, set the same in either order; if one of
/// them is refused, both orders are.
pub fn either_order()
    ensures { (d : Draft) (m n : Meaning) (v w : List ℕ)
        → is_setting m ≡ true → is_setting n ≡ true → m ≢ n
        → and_then (set_by n w) (set_by m v d) ≡ and_then (set_by m v) (set_by n w d) }
{}

/// After an option that replaces the report, another such option is refused, also the same once
/// more; after an option of a baseline, no word is a command. So a command with a baseline has no
/// verdicts.
pub fn baselines_stand_alone()
    ensures options { (d : Draft) (m n : Meaning) (v w : List ℕ)
        → replaces m ≡ true → replaces n ≡ true
        → and_then (set_by n w) (set_by m v d) ≡ Err Stop.Wrong }
    ensures commands { (d : Draft) (word : List ℕ) → d.phase ≡ Audit → d.awaited ≡ None
        → has_baseline d ≡ true → is_option word ≡ false → read_word word d ≡ Err Stop.Wrong }
    ensures compared { (words : List (List ℕ)) (a : AuditCommand) (path : List ℕ)
        → command_of words ≡ Ok (Baseline a path) → a.verdicts ≡ false }
    ensures written { (words : List (List ℕ)) (a : AuditCommand) (path : List ℕ)
        → command_of words ≡ Ok (WriteBaseline a path) → a.verdicts ≡ false }
{}

/// If a list is accepted and isn't quiet, it is also accepted with `-q` after `audit`, or later but
/// before the command that follows, if no value is awaited there: the same command, made quiet.
pub fn quiet_is_accepted()
    ensures behind_audit { (back : List (List ℕ)) (c : Command)
        → command_of (codes "audit" ∷ back) ≡ Ok c → was_quiet c ≡ Some false
        → command_of (codes "audit" ∷ codes "-q" ∷ back) ≡ Ok (quieted c) }
    ensures anywhere { (front back : List (List ℕ)) (d : Draft) (c : Command)
        → drafted front start ≡ Ok d → d.phase ≡ Audit → d.awaited ≡ None
        → command_of (front ++ back) ≡ Ok c → was_quiet c ≡ Some false
        → command_of (front ++ (codes "-q" ∷ back)) ≡ Ok (quieted c) }
{}

/// A number below 2^64 is read from its decimal digits; with one more digit after them it is ten
/// times as much, plus that digit.
pub fn numbers_are_decimal()
    ensures read { (n : ℕ) → n < 2 ^ 64 → number (decimal n) ≡ Some n }
    ensures digits { (digits : List ℕ) (digit : ℕ)
        → value_from 0 (digits ++ digit ∷ []) ≡ 10 * value_from 0 digits + (digit - 48) }
{}
