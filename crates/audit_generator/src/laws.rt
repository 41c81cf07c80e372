//! What holds for every generated text.
ghost use Rattle.std.specs.Prelude.{◌≡◌, ◌<◌, ◌^◌, ℕ, Ok};
ghost use Rattle.audit_lock.specs.Locked.{locked};
ghost use Rattle.audit_advisory.specs.Advisories.{advisory_of};
ghost use Rattle.audit_generator.specs.Advisories.{advisory_at, advisory_text};
ghost use Rattle.audit_generator.specs.Packages.{lockfile_text, packages};

/// The lockfile of n packages reads to these packages.
pub fn lockfile_reads_to_its_packages()
    ensures { (n : ℕ) → n < 2 ^ 64 → locked (lockfile_text n) ≡ Ok (packages n) }
{}

/// The text of the advisory on package k reads to it.
pub fn advisory_text_reads_to_its_advisory()
    ensures { (k : ℕ) → k < 2 ^ 64 → advisory_of (advisory_text k) ≡ Ok (advisory_at k) }
{}
