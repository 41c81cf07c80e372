//! Audits of binaries, one after the other.
ghost use Rattle.std.specs.Prelude.{◌≡◌, ◌≢◌, ℕ, List, IfOk, IfErr, Ok, Err};
ghost use Rattle.audit_core.specs.Auditors.{self_advisories};
ghost use Rattle.audit_core.specs.Turns.{StaysKept};
ghost use Rattle.audit_core.specs.declared.checking.Checks.TheVariants as Checks;
ghost use Rattle.audit_binaries.specs.Binaries.{AreBinaries, ArePartly, IsBinary, IsCutOff, outside};
ghost use Rattle.audit_binaries.specs.Summaries.{AreRefused, AreTogether, summary_of};

use crate::answers::{BinariesAudit, BinaryAnswer, BinaryFault};
use crate::decoders::Decoder;
use crate::limits::BinaryLimits;
use crate::opening::{Unopened, open_binary};
use crate::summaries::summary_of;
use audit_core::{AuditError, Auditor};
use std::alloc::Global;
use tame_cache::CacheDisk;
use tame_names::{FileLock, Files, Items, NoMemory, Text};
use tame_sparse::Wire;

/// Audits what the binary at a path of the host says: reads it, decodes it, and audits its text as
/// `Auditor::audit_text`. `Missing` if nothing is there, `TooLarge` and `PayloadOver` above the
/// limits, `NoInformation` if it says nothing, `Lockfile` if that is none, `File` and `Decode` if
/// it can't be read or decoded.
pub fn audit_binary<F: Files, P: Decoder, W: Wire, D: CacheDisk>(
    alloc: Global,
    auditor: &Auditor,
    limits: &BinaryLimits,
    path: &str,
    files: &mut F,
    decoder: &mut P,
    lock: &FileLock,
    wire: &mut W,
    disk: &mut D,
) -> Result<BinaryAnswer, NoMemory>
    // the audit of the decoded text there, or the reason why there is none
    ensures answered { IfOk result (IsBinary
        (record { files = F.tells; decoder = P.tells; wire = W.tells; disk = D.tells })
        (record {
          auditor = auditor.now;
          limits = limits.now;
          host = F.host files.old;
          answers = P.answers decoder.old;
        })
        (outside (W.exchanges wire.old) (D.past disk.old) (W.faults wire.old) (D.faults disk.old)
        (D.failed disk.old) (D.folders disk.old) (F.failed files.old) (F.faults files.old)
        (P.faults decoder.old))
        (outside (W.exchanges wire.new) (D.past disk.new) (W.faults wire.new) (D.faults disk.new)
        (D.failed disk.new) (D.folders disk.new) (F.failed files.new) (F.faults files.new)
        (P.faults decoder.new))
        path.now) }

    // if out of memory, what was done of it
    ensures cut { IfErr result (λ _. IsCutOff
        (record { files = F.tells; decoder = P.tells; wire = W.tells; disk = D.tells })
        (record {
          auditor = auditor.now;
          limits = limits.now;
          host = F.host files.old;
          answers = P.answers decoder.old;
        })
        (outside (W.exchanges wire.old) (D.past disk.old) (W.faults wire.old) (D.faults disk.old)
        (D.failed disk.old) (D.folders disk.old) (F.failed files.old) (F.faults files.old)
        (P.faults decoder.old))
        (outside (W.exchanges wire.new) (D.past disk.new) (W.faults wire.new) (D.faults disk.new)
        (D.failed disk.new) (D.folders disk.new) (F.failed files.new) (F.faults files.new)
        (P.faults decoder.new))
        path.now) }

    // whatever the result: what stays, and what is kept
    ensures files_same { F.tells → F.host files.new ≡ F.host files.old }
    ensures decoder_same { P.tells → (other : List ℕ) (bound : ℕ)
        → P.answers decoder.new other bound ≡ P.answers decoder.old other bound }
    ensures kept { W.tells → D.tells → StaysKept (W.exchanges wire.old) (W.exchanges wire.new)
        (D.past disk.old) (D.past disk.new) }
    ensures refused { (f : BinaryFault) → result ≡ Ok (BinaryAnswer.Refused f)
        → (wire.new ≡ wire.old) × (disk.new ≡ disk.old) }
    ensures unasked { auditor.now.checks ≢ Checks.Online → wire.new ≡ wire.old }
    ensures unchanged { auditor.now.checks ≢ Checks.Online → D.tells
        → (q : List ℕ) → D.past disk.new q ≡ D.past disk.old q }
    ensures unmade { auditor.now.checks ≢ Checks.Online → D.tells
        → D.folders disk.new ≡ D.folders disk.old }
    ensures off { auditor.now.checks ≡ Checks.Off → disk.new ≡ disk.old }
{
    let said = match open_binary(alloc, limits, path, files, decoder) {
        Ok(said) => said,
        Err(Unopened::Refused(fault)) => return Ok(BinaryAnswer::Refused(fault)),
        Err(Unopened::NoMemory) => return Err(NoMemory),
    };
    match auditor.audit_text(alloc, said.text.as_str(), lock, wire, disk) {
        Ok(audited) => Ok(BinaryAnswer::Audited(said.found, audited)),
        Err(AuditError::Lockfile(fault)) => {
            Ok(BinaryAnswer::Refused(BinaryFault::Lockfile(fault)))
        }
        // an auditor's advisories are read before it audits
        Err(AuditError::Advisory { n: _, fault: _ }) => unreachable!(),
        Err(AuditError::NoMemory) => Err(NoMemory),
    }
}

/// One answer for each path, in their order.
fn audit_each<F: Files, P: Decoder, W: Wire, D: CacheDisk>(
    alloc: Global,
    auditor: &Auditor,
    limits: &BinaryLimits,
    paths: &[Text],
    files: &mut F,
    decoder: &mut P,
    lock: &FileLock,
    wire: &mut W,
    disk: &mut D,
) -> Result<Items<BinaryAnswer>, NoMemory>
    ensures answered { IfOk result (AreBinaries
        (record { files = F.tells; decoder = P.tells; wire = W.tells; disk = D.tells })
        (record {
          auditor = auditor.now;
          limits = limits.now;
          host = F.host files.old;
          answers = P.answers decoder.old;
        })
        (outside (W.exchanges wire.old) (D.past disk.old) (W.faults wire.old) (D.faults disk.old)
        (D.failed disk.old) (D.folders disk.old) (F.failed files.old) (F.faults files.old)
        (P.faults decoder.old))
        (outside (W.exchanges wire.new) (D.past disk.new) (W.faults wire.new) (D.faults disk.new)
        (D.failed disk.new) (D.folders disk.new) (F.failed files.new) (F.faults files.new)
        (P.faults decoder.new))
        paths.now) }
    ensures cut { IfErr result (λ _. ArePartly
        (record { files = F.tells; decoder = P.tells; wire = W.tells; disk = D.tells })
        (record {
          auditor = auditor.now;
          limits = limits.now;
          host = F.host files.old;
          answers = P.answers decoder.old;
        })
        (outside (W.exchanges wire.old) (D.past disk.old) (W.faults wire.old) (D.faults disk.old)
        (D.failed disk.old) (D.folders disk.old) (F.failed files.old) (F.faults files.old)
        (P.faults decoder.old))
        (outside (W.exchanges wire.new) (D.past disk.new) (W.faults wire.new) (D.faults disk.new)
        (D.failed disk.new) (D.folders disk.new) (F.failed files.new) (F.faults files.new)
        (P.faults decoder.new))
        paths.now) }
    ensures files_same { F.tells → F.host files.new ≡ F.host files.old }
    ensures decoder_same { P.tells → (other : List ℕ) (bound : ℕ)
        → P.answers decoder.new other bound ≡ P.answers decoder.old other bound }
    ensures kept { W.tells → D.tells → StaysKept (W.exchanges wire.old) (W.exchanges wire.new)
        (D.past disk.old) (D.past disk.new) }
    ensures refused { IfOk result (λ answers. AreRefused answers
        → (wire.new ≡ wire.old) × (disk.new ≡ disk.old)) }
    ensures unasked { auditor.now.checks ≢ Checks.Online → wire.new ≡ wire.old }
    ensures unchanged { auditor.now.checks ≢ Checks.Online → D.tells
        → (q : List ℕ) → D.past disk.new q ≡ D.past disk.old q }
    ensures unmade { auditor.now.checks ≢ Checks.Online → D.tells
        → D.folders disk.new ≡ D.folders disk.old }
    ensures off { auditor.now.checks ≡ Checks.Off → disk.new ≡ disk.old }
{
    let mut answers = Items::new(alloc);
    for path in paths {
        let answer = audit_binary(
            alloc,
            auditor,
            limits,
            path.as_str(),
            files,
            decoder,
            lock,
            wire,
            disk,
        )?;
        answers.add(answer)?;
    }
    Ok(answers)
}

/// Audits what the binaries at these paths say, one after the other, each as `audit_binary`; the
/// audits go on after a refusal. The summary is by what the auditor denies, and by the advisories
/// on the auditor itself.
pub fn audit_binaries<F: Files, P: Decoder, W: Wire, D: CacheDisk>(
    alloc: Global,
    auditor: &Auditor,
    limits: &BinaryLimits,
    paths: &Items<Text>,
    files: &mut F,
    decoder: &mut P,
    lock: &FileLock,
    wire: &mut W,
    disk: &mut D,
) -> Result<BinariesAudit, NoMemory>
    // one answer for each path, in their order, each from the end of the one before
    ensures answered { IfOk result (λ b. AreBinaries
        (record { files = F.tells; decoder = P.tells; wire = W.tells; disk = D.tells })
        (record {
          auditor = auditor.now;
          limits = limits.now;
          host = F.host files.old;
          answers = P.answers decoder.old;
        })
        (outside (W.exchanges wire.old) (D.past disk.old) (W.faults wire.old) (D.faults disk.old)
        (D.failed disk.old) (D.folders disk.old) (F.failed files.old) (F.faults files.old)
        (P.faults decoder.old))
        (outside (W.exchanges wire.new) (D.past disk.new) (W.faults wire.new) (D.faults disk.new)
        (D.failed disk.new) (D.folders disk.new) (F.failed files.new) (F.faults files.new)
        (P.faults decoder.new))
        paths.now b.answers) }
    ensures summary { IfOk result (λ b. b.summary
        ≡ summary_of auditor.now.deny (self_advisories auditor.now.database) b.answers) }

    // all together: the headline, the turns and exchanges, the other files and folders, and how
    // many failed
    ensures together { IfOk result (λ b. AreTogether
        (record { files = F.tells; decoder = P.tells; wire = W.tells; disk = D.tells })
        auditor.now.checks
        (outside (W.exchanges wire.old) (D.past disk.old) (W.faults wire.old) (D.faults disk.old)
        (D.failed disk.old) (D.folders disk.old) (F.failed files.old) (F.faults files.old)
        (P.faults decoder.old))
        (outside (W.exchanges wire.new) (D.past disk.new) (W.faults wire.new) (D.faults disk.new)
        (D.failed disk.new) (D.folders disk.new) (F.failed files.new) (F.faults files.new)
        (P.faults decoder.new))
        b.answers) }
    ensures refused { IfOk result (λ b. AreRefused b.answers
        → (wire.new ≡ wire.old) × (disk.new ≡ disk.old)) }

    // if out of memory, what was done
    ensures cut { IfErr result (λ _. ArePartly
        (record { files = F.tells; decoder = P.tells; wire = W.tells; disk = D.tells })
        (record {
          auditor = auditor.now;
          limits = limits.now;
          host = F.host files.old;
          answers = P.answers decoder.old;
        })
        (outside (W.exchanges wire.old) (D.past disk.old) (W.faults wire.old) (D.faults disk.old)
        (D.failed disk.old) (D.folders disk.old) (F.failed files.old) (F.faults files.old)
        (P.faults decoder.old))
        (outside (W.exchanges wire.new) (D.past disk.new) (W.faults wire.new) (D.faults disk.new)
        (D.failed disk.new) (D.folders disk.new) (F.failed files.new) (F.faults files.new)
        (P.faults decoder.new))
        paths.now) }

    // whatever the result: what stays, and what is kept
    ensures files_same { F.tells → F.host files.new ≡ F.host files.old }
    ensures decoder_same { P.tells → (other : List ℕ) (bound : ℕ)
        → P.answers decoder.new other bound ≡ P.answers decoder.old other bound }
    ensures kept { W.tells → D.tells → StaysKept (W.exchanges wire.old) (W.exchanges wire.new)
        (D.past disk.old) (D.past disk.new) }
    ensures unasked { auditor.now.checks ≢ Checks.Online → wire.new ≡ wire.old }
    ensures unchanged { auditor.now.checks ≢ Checks.Online → D.tells
        → (q : List ℕ) → D.past disk.new q ≡ D.past disk.old q }
    ensures unmade { auditor.now.checks ≢ Checks.Online → D.tells
        → D.folders disk.new ≡ D.folders disk.old }
    ensures off { auditor.now.checks ≡ Checks.Off → disk.new ≡ disk.old }
{
    let own = auditor.self_advisories(alloc)?;
    let answers = audit_each(
        alloc,
        auditor,
        limits,
        paths.as_slice(),
        files,
        decoder,
        lock,
        wire,
        disk,
    )?;
    let summary = summary_of(auditor.deny(), own.as_slice(), answers.as_slice());
    Ok(BinariesAudit { answers, summary })
}
