//! Rows that the definitions compute: each clause is an equation whose left side is a definition
//! at written values.
ghost use Rattle.std.specs.Prelude.{◌≡◌, [], codes, true, false, None};
ghost use Rattle.audit_remedies.specs.declared.faults.RunFault.TheVariants as fault;
ghost use Rattle.audit_core.specs.declared.verdicts.Cause.TheVariants as cause;
ghost use Rattle.audit_core.specs.declared.verdicts.Verdict.TheVariants.{NotYanked, Unchecked, Yanked};
ghost use Rattle.audit_lock.specs.declared.listed.LockRule.TheVariants as rule;
ghost use Rattle.audit_lock.specs.declared.lockfiles.LockfileFault.TheVariants as lockfile_fault;
ghost use Rattle.audit_output.specs.BinaryOutputs.{refused_line};
ghost use Rattle.audit_remedies.specs.FaultLines.{fault_line};
ghost use Rattle.audit_output.specs.Printed.{verdict_word};
ghost use Rattle.audit_binaries.specs.declared.answers.BinaryFault.TheVariants as binary_fault;
ghost use Rattle.audit_binaries.specs.Summaries.{summary_status};
ghost use Rattle.audit_remedies.specs.Faults.{fault_status};
ghost use Rattle.audit_settings.specs.declared.configs.SettingsFault.TheVariants as settings_fault;

/// The words of verdicts, and the statuses of faults.
pub fn verdicts()
    ensures yanked { verdict_word Yanked ≡ codes "yanked" }
    ensures not_yanked { verdict_word NotYanked ≡ codes "not yanked" }
    ensures json_lines { verdict_word (Unchecked cause.JsonLines) ≡ codes "unchecked json-lines" }
    ensures store { verdict_word (Unchecked cause.Store) ≡ codes "unchecked store" }
    ensures fault { fault_status fault.Print ≡ 2 }
    ensures memory { fault_status fault.NoMemory ≡ 3 }
    ensures found { summary_status
        (record { vulnerabilities_found = true; errors_encountered = true }) ≡ 1 }
    ensures errors { summary_status
        (record { vulnerabilities_found = false; errors_encountered = true }) ≡ 2 }
    ensures neither { summary_status
        (record { vulnerabilities_found = false; errors_encountered = false }) ≡ 0 }
{}

/// The lines of faults.
pub fn faults()
    ensures missing { fault_line [] (fault.Missing (codes "db"))
        ≡ codes "error: db isn't there\n" }
    ensures file { fault_line [] (fault.File (codes "cargo home"))
        ≡ codes "error: I/O error: cargo home\n" }
    ensures float { fault_line [] (fault.Settings settings_fault.Float)
        ≡ codes "error: config error: a float\n" }
    ensures key { fault_line [] (fault.Settings (settings_fault.Unknown (codes "x")))
        ≡ codes "error: config error: unknown key x\n" }
    ensures version { fault_line (codes "L")
        (fault.Lockfile (lockfile_fault.Rule None rule.Version))
        ≡ codes "error: version error: couldn't load L: rule version\n" }
    ensures toml { fault_line (codes "L") (fault.Lockfile lockfile_fault.Toml)
        ≡ codes "error: parse error: couldn't load L: invalid TOML\n" }
    ensures print { fault_line [] fault.Print ≡ codes "error: I/O error: output\n" }
    ensures memory { fault_line [] fault.NoMemory ≡ codes "error: out of memory\n" }
    ensures undecoded { refused_line (codes "app") binary_fault.Decode
        ≡ codes "error: app: can't be decoded\n" }
    ensures nothing { refused_line (codes "app") binary_fault.NoInformation
        ≡ codes "error: app: no dependency information\n" }
{}
