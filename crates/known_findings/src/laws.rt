//! Laws on findings and baselines.
ghost use Rattle.std.specs.Prelude.{◌≡◌, ◌↔◌, ℕ, List, ◌∷◌, ◌++◌, length, Contains, IsTrue, Some, Ok, Err};
ghost use Rattle.serde_json.specs.Read.{read};
ghost use Rattle.tame_names.specs.Pieces.{pieces};
ghost use Rattle.known_findings.specs.Baselines.{baseline_of, findings_in, is_broken, is_equal, listed, written};
ghost use Rattle.known_findings.specs.Findings.{finding_of, is_among, is_same, line};
ghost use Rattle.known_findings.specs.Laws.{IsSetOf, NoneIsBroken, array_text, array_value};
ghost use Rattle.known_findings.specs.declared.baselines.BaselineFault.TheVariants.{Line};
ghost use Rattle.known_findings.specs.declared.findings.Finding.{Finding};

/// A line is the quoted texts in brackets, and is read as its finding. Findings are the same
/// exactly if they are equal in all five members, and exactly if their lines are equal.
pub fn lines_tell_findings()
    ensures text { (f : Finding) → line f ≡ array_text f }
    ensures read { (f : Finding) → finding_of (line f) ≡ Some f }
    ensures equal { (f g : Finding) → IsTrue (is_same f g) ↔ (f ≡ g) }
    ensures lines { (f g : Finding) → (line f ≡ line g) ↔ (f ≡ g) }
    ensures among { (f : Finding) (fs : List Finding) → IsTrue (is_among f fs) ↔ Contains fs f }
{}

/// A line is read as a finding exactly if its JSON is the array of the finding's five texts, with
/// any spacing and any escapes.
pub fn findings_are_arrays_of_five_texts()
    ensures { (text : List ℕ) (f : Finding)
        → (finding_of text ≡ Some f) ↔ (read text ≡ Some (array_value f)) }
{}

/// A text whose lines are blank or findings is the set of these findings. For any other text the
/// first other line is named, by the number of lines before it.
pub fn first_broken_line_is_named()
    ensures whole { (text : List ℕ) → NoneIsBroken (pieces 10 text)
        → baseline_of text ≡ Ok (listed (findings_in (pieces 10 text))) }
    ensures broken { (text : List ℕ) (front back : List (List ℕ)) (l : List ℕ)
        → pieces 10 text ≡ front ++ l ∷ back → NoneIsBroken front → IsTrue (is_broken l)
        → baseline_of text ≡ Err (Line (length front)) }
{}

/// A baseline is the set of its findings in the byte order of their lines, and there is one such
/// list.
pub fn baselines_are_sets()
    ensures set { (fs : List Finding) → IsSetOf fs (listed fs) }
    ensures one { (fs gs : List Finding) → IsSetOf fs gs → gs ≡ listed fs }
{}

/// Two baselines are equal exactly if the bytes that they write are, and exactly if `==` holds.
pub fn written_bytes_tell_baselines()
    ensures bytes { (fs gs : List Finding) → (written fs ≡ written gs) ↔ (fs ≡ gs) }
    ensures equal { (fs gs : List Finding) → IsTrue (is_equal fs gs) ↔ (fs ≡ gs) }
{}
