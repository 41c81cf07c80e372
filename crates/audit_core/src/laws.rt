//! Laws of audits.
ghost use Rattle.std.specs.Prelude.{◌≡◌, ◌↔◌, ◌++◌, ⊤, [], ℕ, List, Some};
ghost use Rattle.std.specs.List.{Any, Contains};
ghost use Rattle.tame_names.specs.Counts.{CountStayed};
ghost use Rattle.tame_names.specs.FirstPlaces.{AreEachOnce};
ghost use Rattle.tame_entry.specs.ServerMaps.{ServerMap};
ghost use Rattle.tame_cache.specs.Kept.{Disk, IsKept};
ghost use Rattle.tame_sparse.specs.Exchanges.{crates_io_index};
ghost use Rattle.tame_sparse.specs.Honest.{AreHonest};
ghost use Rattle.tame_sparse.specs.declared.network.Exchange.{Exchange};
ghost use Rattle.audit_lock.specs.declared.resolving.Package.{Package};
ghost use Rattle.audit_core.specs.Alike.{AreAllAlike, IsSoundAudit};
ghost use Rattle.audit_core.specs.Audits.{IsAuditOf, Moment};
ghost use Rattle.audit_core.specs.Checks.{judged_of};
ghost use Rattle.audit_core.specs.FailedTurns.{IsBlamedAt};
ghost use Rattle.audit_core.specs.Histories.{AuditHistory};
ghost use Rattle.audit_core.specs.Paths.{asked_paths, default_path, default_paths};
ghost use Rattle.audit_core.specs.Remembered.{IsRememberedAt, exchanges_in};
ghost use Rattle.audit_core.specs.Repeats.{AreKeptAnswers};
ghost use Rattle.audit_core.specs.Verdicts.{AreVerdicts, IsVerdictByHeldAt};
ghost use Rattle.audit_core.specs.declared.auditing.Audited.{Audited};
ghost use Rattle.audit_core.specs.declared.auditors.Auditor.{Auditor};
ghost use Rattle.audit_core.specs.declared.checking.Checks.TheVariants as Checks;

use tame_cache::CacheDisk;
use tame_sparse::Wire;

/// In every history of audits and crashes that begins without files, or with nothing pending and
/// files that are all refused, and whose exchanges are honest for a map of what a server held, the
/// disk is kept for that map after each step.
pub fn audit_histories_keep()
    ensures { (m : ServerMap) (began now : Disk) → AuditHistory m began now
        → IsKept m crates_io_index [] now }
{}

/// The headline for each audit in such a history: an online audit whose exchanges are honest for
/// the same map judges each package as the table says over what the server held when asked.
pub fn audits_in_histories_match_the_server()
    ensures { (m : ServerMap) (began : Disk) (auditor : Auditor) (entry exit : Moment)
        (added : List Exchange) (text : List ℕ) (audited : Audited)
        → AuditHistory m began entry.files → auditor.checks ≡ Checks.Online
        → IsAuditOf auditor ⊤ ⊤ entry exit text audited
        → exit.exchanges ≡ entry.exchanges ++ added → AreHonest m added
        → AreVerdicts (IsVerdictByHeldAt added audited.turns)
        (judged_of auditor.checks audited.lockfile) audited.verdicts }
{}

/// What offline audits remember. In such a history each verdict of an offline audit is the table's
/// over a body that the server held and sent in an exchange of the history with the package's path;
/// or the package is unchecked, since the cache has nothing for it or couldn't be read.
pub fn offline_audits_in_histories_remember()
    ensures { (m : ServerMap) (began : Disk) (auditor : Auditor) (entry exit : Moment)
        (text : List ℕ) (audited : Audited) (history : AuditHistory m began entry.files)
        → auditor.checks ≡ Checks.Offline → IsAuditOf auditor ⊤ ⊤ entry exit text audited
        → AreVerdicts (IsRememberedAt (exchanges_in m began entry.files history) audited.turns)
        (judged_of auditor.checks audited.lockfile) audited.verdicts }
{}

/// Whether a body is sent or only confirmed changes nothing. Two online audits of one text by one
/// auditor have equal verdicts, reports and exits if their servers held the same, and one of them
/// answers 200 or 304 when the other answers 200, and the same as the other elsewhere.
pub fn cached_audits_agree()
    ensures { (auditor : Auditor) (text : List ℕ) (began ended began_too ended_too : Moment)
        (added added_too : List Exchange) (audited audited_too : Audited)
        → auditor.checks ≡ Checks.Online
        → IsSoundAudit auditor began ended added text audited
        → IsSoundAudit auditor began_too ended_too added_too text audited_too
        → AreAllAlike added added_too
        → (audited.verdicts ≡ audited_too.verdicts) × (audited.report ≡ audited_too.report)
        × (audited.exit ≡ audited_too.exit) }
{}

/// An offline audit repeats an online one. If each answer of the online audit was not-modified or
/// is stored, and no call on the disk failed in either, an audit of the same text by the same
/// auditor, but offline, from the end of the other, has equal verdicts, report and exit; for every
/// server and every disk.
pub fn offline_audits_repeat()
    ensures { (auditor : Auditor) (text : List ℕ) (began mid ended : Moment)
        (added : List Exchange) (audited again : Audited) → auditor.checks ≡ Checks.Online
        → IsAuditOf auditor ⊤ ⊤ began mid text audited
        → IsAuditOf (record auditor { checks = Checks.Offline }) ⊤ ⊤ mid ended text again
        → mid.exchanges ≡ began.exchanges ++ added → AreKeptAnswers added
        → CountStayed began.disk_faults mid.disk_faults
        → CountStayed mid.disk_faults ended.disk_faults
        → (again.verdicts ≡ audited.verdicts) × (again.report ≡ audited.report)
        × (again.exit ≡ audited.exit) }
{}

/// A package is unchecked by the store only if the read of its own path's file failed. If the disk
/// says which calls failed, each such read is among those that failed from the audit's entry to its
/// exit; for every server and every disk.
pub fn store_is_said_of_failed_reads<W: Wire, D: CacheDisk>()
    ensures { (auditor : Auditor) (began ended : Moment) (text : List ℕ) (audited : Audited)
        → D.tells → IsAuditOf auditor W.tells D.tells began ended text audited
        → AreVerdicts (IsBlamedAt began.disk_failed ended.disk_failed)
        (judged_of auditor.checks audited.lockfile) audited.verdicts }
{}

/// Each path of the packages is asked for once: distinct paths, in the order in which each comes
/// first, and exactly those of the packages of the default registry.
pub fn asked_paths_are_the_distinct_paths()
    ensures once { (packages : List Package)
        → AreEachOnce (asked_paths packages) (default_paths packages) }
    ensures paths { (packages : List Package) (q : List ℕ)
        → Contains (default_paths packages) q ↔ Any (λ p. default_path p ≡ Some q) packages }
{}
