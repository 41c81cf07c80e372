//! What some lists of words mean, computed.
ghost use Rattle.std.specs.Prelude.{◌≡◌, codes, [], ◌∷◌, true, Some, None, Ok, Err};
ghost use Rattle.audit_words.specs.Reading.{command_of, start};
ghost use Rattle.audit_words.specs.Values.{number};
ghost use Rattle.audit_words.specs.declared.commands.Command.TheVariants.{Audit, Baseline, Bin, Fix, Generate, Help, Plan, Vendor, WriteBaseline};
ghost use Rattle.audit_advisory.specs.declared.outputs.DenyOption.TheVariants.{Yanked};
ghost use Rattle.audit_words.specs.declared.commands.WordsFault.TheVariants.{Usage};

/// Lists of words that are accepted.
pub fn accepted()
    ensures bare { command_of (codes "audit" ∷ []) ≡ Ok (Audit start.audit) }
    ensures joined { command_of (codes "audit" ∷ codes "-nqDyanked" ∷ [])
        ≡ Ok (Audit (record start.audit { no_fetch = true; quiet = true; deny = Yanked ∷ [] })) }
    ensures help_comes_first { command_of (codes "audit" ∷ codes "-qh" ∷ codes "x" ∷ []) ≡ Ok Help }
    ensures fix { command_of
        (codes "audit" ∷ codes "-f" ∷ codes "a" ∷ codes "fix" ∷ codes "-f=b" ∷ [])
        ≡ Ok (Fix (record start.audit { file = Some (codes "a") })
        (record start.fix { file = Some (codes "b") })) }
    ensures paths { command_of
        (codes "audit" ∷ codes "bin" ∷ codes "a" ∷ codes "--" ∷ codes "-h" ∷ [])
        ≡ Ok (Bin start.audit (record start.bin { binary_paths = codes "a" ∷ codes "-h" ∷ [] })) }
    ensures plan { command_of (codes "audit" ∷ codes "-q" ∷ codes "plan" ∷ [])
        ≡ Ok (Plan (record start.audit { quiet = true })) }
    ensures baseline { command_of
        (codes "audit" ∷ codes "--baseline" ∷ codes "b" ∷ codes "-q" ∷ [])
        ≡ Ok (Baseline (record start.audit { quiet = true }) (codes "b")) }
    ensures write_baseline { command_of (codes "audit" ∷ codes "--write-baseline=b" ∷ [])
        ≡ Ok (WriteBaseline start.audit (codes "b")) }
    ensures vendor { command_of
        (codes "audit" ∷ codes "--verdicts" ∷ codes "vendor" ∷ codes "c" ∷ codes "v" ∷ [])
        ≡ Ok (Vendor (record start.audit { verdicts = true })
        (record { crates = codes "c"; to = codes "v" })) }
    ensures slashes_behind_folders { command_of
        (codes "audit" ∷ codes "vendor" ∷ codes "c//" ∷ codes "/v/" ∷ [])
        ≡ Ok (Vendor start.audit (record { crates = codes "c"; to = codes "/v" })) }
    ensures help_behind_folders { command_of
        (codes "audit" ∷ codes "vendor" ∷ codes "c" ∷ codes "v" ∷ codes "-h" ∷ []) ≡ Ok Help }
    ensures made_packages { command_of (codes "audit" ∷ codes "generate" ∷ codes "5000" ∷ [])
        ≡ Ok (Generate 5000) }
    ensures largest { number (codes "18446744073709551615") ≡ Some 18446744073709551615 }
    ensures above { number (codes "18446744073709551616") ≡ None }
{}

/// Lists of words that are refused, with the position.
pub fn refused()
    ensures nothing { command_of [] ≡ Err (Usage 0) }
    ensures fault_comes_first { command_of (codes "audit" ∷ codes "x" ∷ codes "-h" ∷ [])
        ≡ Err (Usage 1) }
    ensures missing_value { command_of (codes "audit" ∷ codes "-f" ∷ codes "-q" ∷ [])
        ≡ Err (Usage 1) }
    ensures missing_at_end { command_of (codes "audit" ∷ codes "-q" ∷ codes "--db" ∷ [])
        ≡ Err (Usage 2) }
    ensures bad_value { command_of (codes "audit" ∷ codes "-c" ∷ codes "blue" ∷ [])
        ≡ Err (Usage 2) }
    ensures bad_joined { command_of (codes "audit" ∷ codes "-c=blue" ∷ []) ≡ Err (Usage 1) }
    ensures repeated { command_of (codes "audit" ∷ codes "-qq" ∷ []) ≡ Err (Usage 1) }
    ensures no_paths { command_of (codes "audit" ∷ codes "bin" ∷ []) ≡ Err (Usage 2) }
    ensures no_number { command_of (codes "audit" ∷ codes "generate" ∷ []) ≡ Err (Usage 2) }
    ensures no_package { command_of (codes "audit" ∷ codes "generate" ∷ codes "0" ∷ [])
        ≡ Err (Usage 2) }
    ensures too_many { command_of (codes "audit" ∷ codes "generate" ∷ codes "5001" ∷ [])
        ≡ Err (Usage 2) }
    ensures behind_an_option { command_of
        (codes "audit" ∷ codes "-q" ∷ codes "generate" ∷ codes "5" ∷ []) ≡ Err (Usage 2) }
    ensures word_behind_number { command_of
        (codes "audit" ∷ codes "generate" ∷ codes "5" ∷ codes "-h" ∷ []) ≡ Err (Usage 3) }
    ensures word_behind_plan { command_of (codes "audit" ∷ codes "plan" ∷ codes "-q" ∷ [])
        ≡ Err (Usage 2) }
    ensures verdicts_behind_baseline { command_of
        (codes "audit" ∷ codes "--baseline" ∷ codes "b" ∷ codes "--verdicts" ∷ [])
        ≡ Err (Usage 3) }
    ensures baseline_behind_verdicts { command_of
        (codes "audit" ∷ codes "--verdicts" ∷ codes "--baseline" ∷ codes "b" ∷ [])
        ≡ Err (Usage 2) }
    ensures two_baselines { command_of
        (codes "audit" ∷ codes "--write-baseline=a" ∷ codes "--baseline=b" ∷ [])
        ≡ Err (Usage 2) }
    ensures fix_behind_baseline { command_of
        (codes "audit" ∷ codes "--baseline=b" ∷ codes "fix" ∷ []) ≡ Err (Usage 2) }
    ensures vendor_behind_baseline { command_of
        (codes "audit" ∷ codes "--write-baseline=b" ∷ codes "vendor" ∷ codes "-h" ∷ [])
        ≡ Err (Usage 2) }
    ensures no_folders { command_of (codes "audit" ∷ codes "vendor" ∷ []) ≡ Err (Usage 2) }
    ensures one_folder { command_of (codes "audit" ∷ codes "vendor" ∷ codes "c" ∷ [])
        ≡ Err (Usage 3) }
    ensures empty_folder { command_of
        (codes "audit" ∷ codes "vendor" ∷ codes "c" ∷ codes "" ∷ codes "-h" ∷ []) ≡ Err (Usage 3) }
    ensures word_behind_folders { command_of
        (codes "audit" ∷ codes "vendor" ∷ codes "c" ∷ codes "v" ∷ codes "w" ∷ [])
        ≡ Err (Usage 4) }
    ensures option_behind_vendor { command_of
        (codes "audit" ∷ codes "vendor" ∷ codes "-q" ∷ codes "c" ∷ codes "v" ∷ [])
        ≡ Err (Usage 2) }
    ensures no_version_behind_fix { command_of (codes "audit" ∷ codes "fix" ∷ codes "-V" ∷ [])
        ≡ Err (Usage 2) }
{}
