//! What holds for the records of lines, of files and bodies, for every report, and for plans over
//! an honest server.
ghost use Rattle.std.specs.Prelude.{◌≡◌, ℕ, List, Some, IsTrue};
ghost use Rattle.tame_records.specs.Krates.{records_of};
ghost use Rattle.tame_records.specs.declared.versions.IndexVersion.{IndexVersion};
ghost use Rattle.tame_entry.specs.Entry.{entry, has_no_zero, pairs};
ghost use Rattle.tame_entry.specs.Lines.{plain};
ghost use Rattle.tame_entry.specs.Revision.{EntryRevision, IsRevision, entry_text};
ghost use Rattle.tame_entry.specs.ServerMaps.{ServerMap, body_at};
ghost use Rattle.tame_entry.specs.VersionStatuses.{version_status};
ghost use Rattle.tame_entry.specs.declared.revisions.OwnedRevision.{OwnedRevision};
ghost use Rattle.tame_cache.specs.Disk.{File};
ghost use Rattle.tame_cache.specs.Kept.{IsGood};
ghost use Rattle.tame_sparse.specs.Named.{named_file};
ghost use Rattle.tame_sparse.specs.declared.network.Exchange.{Exchange};
ghost use Rattle.audit_lock.specs.declared.resolving.Package.{Package};
ghost use Rattle.audit_advisory.specs.Reports.{report_of};
ghost use Rattle.audit_advisory.specs.declared.advisories.Advisory.{Advisory};
ghost use Rattle.audit_advisory.specs.declared.settings.Settings.{Settings};
ghost use Rattle.audit_core.specs.Audits.{Moment};
ghost use Rattle.audit_core.specs.declared.auditing.Audited.{Audited};
ghost use Rattle.audit_core.specs.declared.auditors.Auditor.{Auditor};
ghost use Rattle.upgrade_plan.specs.Candidates.{says};
ghost use Rattle.upgrade_plan.specs.HeldPlans.{ArePlannedByHeld, IsHonestAudit};
ghost use Rattle.upgrade_plan.specs.Plans.{IsPlanBy, hit_places, vulnerable_places};
ghost use Rattle.upgrade_plan.specs.Recorded.{body_records, file_records};
ghost use Rattle.upgrade_plan.specs.declared.plans.PlanItem.{PlanItem};

use tame_cache::CacheDisk;
use tame_sparse::Wire;

/// What the records of lines say about a version is what an audit reads in the lines.
pub fn records_say_what_lines_say()
    ensures { (lines : List (List ℕ)) (versions : List IndexVersion) (text : List ℕ)
        → records_of lines ≡ Some versions → says versions text ≡ version_status lines text }
{}

/// The records from a cache file are those of a body: if the file is the entry stored for a plain
/// body; or if it is good for what a server held, its revision may be named and the server held a
/// body under it.
pub fn files_have_the_records_of_bodies()
    ensures stored { (index : List ℕ) (r : EntryRevision) (body : List ℕ)
        → IsTrue (has_no_zero index) → IsRevision r
        → IsTrue (has_no_zero (entry_text r)) → IsTrue (plain body)
        → file_records index (Some (entry index r (pairs body))) ≡ body_records body }
    ensures confirmed { (m : ServerMap) (index p body : List ℕ) (file : File) (r : OwnedRevision)
        → IsTrue (has_no_zero index) → IsGood m index p file
        → named_file index file ≡ Some r → body_at m p r ≡ Some body
        → file_records index file ≡ body_records body }
{}

/// The packages that have a vulnerability in a report are those that some advisory of its database
/// hits, counted as a vulnerability.
pub fn vulnerable_packages_are_hit()
    ensures { (settings : Settings) (advisories : List Advisory) (packages : List Package)
        → vulnerable_places (report_of settings advisories packages).vulnerabilities packages
        ≡ hit_places settings advisories packages }
{}

/// A plan follows from what the server held when the audit asked it. After an online audit over an
/// honest server, on a disk that was kept for what it held: if no call on the disk failed in the
/// path's turn, and the answer was 304, or 200 with a plain body, then each item is by the records
/// of the lines of the body that was held in the exchange of its path: the least safe version, or
/// that there is none, or that some line has no record. It may also be that the entry couldn't be
/// read for the plan.
pub fn plans_tell_what_the_server_held<W: Wire, D: CacheDisk>()
    ensures { (auditor : Auditor) (began left : Moment) (added : List Exchange) (text : List ℕ)
        (audited : Audited) (advisories : List Advisory) (faults : ℕ) (items : List PlanItem)
        → IsHonestAudit auditor W.tells D.tells began left added text audited
        → IsPlanBy D.tells advisories audited left.files left.disk_faults faults items
        → ArePlannedByHeld advisories audited added items }
{}
