//! The baseline that a run asks for.
ghost use Rattle.std.specs.Prelude.{◌≡◌, ◌⊎◌, ℕ, List, Some, Ok, Err, IfOk, IfErr, IsTrue, option_map};
ghost use Rattle.known_findings.specs.Baselines.{baseline_of};
ghost use Rattle.audit_asked.specs.Calls.{AddsFailed, HasFileCause, IsBaselineCall};
ghost use Rattle.audit_asked.specs.KnownFindings.{baseline_asked, findings_read};
ghost use Rattle.audit_asked.specs.Refusals.{IsTextsFault, is_told, refused};

use crate::faults::AskFault;
use crate::texts::file_text;
use known_findings::{Baseline, BaselineFault};
use std::alloc::Global;
use tame_names::{Files, Text};

/// The baseline of a text.
fn baseline_in(alloc: Global, text: &str) -> Result<Baseline, AskFault>
    ensures ok { IfOk result (λ b. baseline_of text.now ≡ Ok b) }
    ensures refused { IfErr result (λ e. IsTrue (is_told e)
        → findings_read (baseline_of text.now) ≡ Err (refused e)) }
    ensures only { IfErr result (λ e. (e ≡ AskFault.NoMemory) ⊎ IsTrue (is_told e)) }
    ensures read { (path : List ℕ) → IfErr result (IsTextsFault (Some path)) }
{
    match Baseline::read(alloc, text) {
        Ok(baseline) => Ok(baseline),
        Err(BaselineFault::Line { n }) => Err(AskFault::Baseline { line: n }),
        Err(BaselineFault::NoMemory) => Err(AskFault::NoMemory),
    }
}

/// The baseline in the file at a path, if one is named; the file must be there.
pub fn baseline<F: Files>(
    alloc: Global,
    files: &mut F,
    named: Option<&str>,
) -> Result<Option<Baseline>, AskFault>
    ensures ok { F.tells → IfOk result (λ b.
        baseline_asked (option_map (λ path. path.now) named.entry) (F.host files.old) ≡ Ok b) }
    ensures refused { F.tells → IfErr result (λ e. IsTrue (is_told e)
        → baseline_asked (option_map (λ path. path.now) named.entry) (F.host files.old)
        ≡ Err (refused e)) }
    ensures only { IfErr result (IsTextsFault (option_map (λ path. path.now) named.entry)) }
    ensures cause { HasFileCause (F.faults files.old) (F.faults files.new) result }
    ensures failed { F.tells → AddsFailed
        (IsBaselineCall (option_map (λ path. path.now) named.entry))
        (F.failed files.old) (F.failed files.new) result }
    ensures same { F.tells → F.host files.new ≡ F.host files.old }
{
    let Some(path) = named else {
        return Ok(None);
    };
    let text = file_text(alloc, files, path)?;
    Ok(Some(baseline_in(alloc, text.as_str())?))
}
