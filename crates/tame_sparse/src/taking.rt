//! What is taken from a body that was sent, and what the cache keeps of it.
ghost use Rattle.std.specs.Prelude.{◌≡◌, ◌≢◌, ◌⊎◌, ◌≤◌, ◌+◌, ℕ, List, true, false, drop, map, Err, Some, IsTrue, OnOk};
ghost use Rattle.tame_names.specs.Counts.{CountStayed};
ghost use Rattle.tame_names.specs.KrateNames.{text_of};
ghost use Rattle.tame_names.specs.Names.{path};
ghost use Rattle.tame_entry.specs.Entry.{entry, is_storable, pair_of};
ghost use Rattle.tame_entry.specs.ServerMaps.{ServerMap};
ghost use Rattle.tame_entry.specs.JsonLines.{lines_of};
ghost use Rattle.tame_entry.specs.Revision.{revision_value};
ghost use Rattle.tame_cache.specs.Disk.{EachMoment, may_leave};
ghost use Rattle.tame_cache.specs.Folders.{MakesOnly};
ghost use Rattle.tame_cache.specs.Gate.{IsOrderly, IsUnreadable, IsStored};
ghost use Rattle.tame_cache.specs.Kept.{IsKept, IsWrittenFor, Keeps, cache_file_of};
ghost use Rattle.tame_cache.specs.LaidPieces.{piece_count};
ghost use Rattle.tame_sparse.specs.ResponseResults.{FailedAtMostWriting, FailsFor, IsBodyResult, IsToStore, Stores, StoresUnlessFailed, StoresWhole, came, entry_of, storing_calls};

use crate::responses::{Response, stored_under};
use crate::sparse::SparseIndex;
use std::alloc::Global;
use tame_cache::{CacheDisk, CacheFault};
use tame_entry::{CacheWrite, IndexEntry, JsonLines, Revision};
use tame_names::{Error, FileLock, KrateName, NoMemory};

impl SparseIndex {
    /// The lines of a body that was sent.
    pub(crate) fn take_body<'r, 'l, D: CacheDisk>(
        &self,
        alloc: Global,
        name: KrateName<'_>,
        response: Response<'r>,
        write_cache_entry: bool,
        lock: &'l FileLock,
        disk: &mut D,
    ) -> Result<Option<IndexEntry<'r, 'l>>, Error>
        requires { response.status_code ≡ 200 }
        ensures taken { IsBodyResult response.entry.body.now result }
        ensures fed { write_cache_entry ≡ false → result ≢ Err Error.NoMemory }
        ensures stores { D.tells → Stores self.now.cache.index self.now.cache.path
            (text_of name.entry) (came response.entry) write_cache_entry (D.past disk.old)
            (D.past disk.new) }
        ensures stored { D.tells → CountStayed (D.faults disk.old) (D.faults disk.new)
            → write_cache_entry ≡ true → IsToStore self.now.cache.index (came response.entry)
            → OnOk result (StoresWhole self.now.cache.index self.now.cache.path
            (text_of name.entry) (came response.entry) (D.past disk.new)) }
        ensures stored_unless_failed { D.tells → write_cache_entry ≡ true
            → IsToStore self.now.cache.index (came response.entry) → (q : List ℕ)
            → cache_file_of self.now.cache.path (text_of name.entry) ≡ Some q
            → OnOk result (StoresUnlessFailed
            (entry_of self.now.cache.index (came response.entry)) q (D.past disk.new q)
            (D.failed disk.old) (D.failed disk.new)) }
        ensures failed { (q : List ℕ)
            → cache_file_of self.now.cache.path (text_of name.entry) ≡ Some q
            → FailsFor self.now.cache.index q (came response.entry) write_cache_entry
            (D.failed disk.old) (D.failed disk.new) result }
        ensures folders { D.tells → MakesOnly
            (λ q. cache_file_of self.now.cache.path (text_of name.entry) ≡ Some q)
            (D.folders disk.old) (D.folders disk.new) }
        ensures calls { D.made disk.new ≤ D.made disk.old
            + storing_calls self.now.cache.index (came response.entry) }
        ensures later { D.faults disk.old ≤ D.faults disk.new }
    {
        let lines = match JsonLines::validate(response.body) {
            Ok(lines) => lines,
            Err(error) => return Err(Error::InvalidJsonLines(error)),
        };
        if write_cache_entry {
            let revision = stored_under(response.revision);
            match self.keep(alloc, name, lines, &revision, lock, disk) {
                Ok(()) => {}
                Err(_) => return Err(Error::NoMemory),
            }
        }
        Ok(Some(IndexEntry::Remote(lines)))
    }

    /// Stores lines under a revision, if the disk does it.
    fn keep<D: CacheDisk>(
        &self,
        alloc: Global,
        name: KrateName<'_>,
        lines: JsonLines<'_>,
        revision: &Revision<'_>,
        lock: &FileLock,
        disk: &mut D,
    ) -> Result<(), NoMemory>
        ensures stored { D.tells → CountStayed (D.faults disk.old) (D.faults disk.new)
            → IsTrue (is_storable self.now.cache.index (revision_value revision.now)
            (map pair_of (lines_of lines.entry)))
            → (q : List ℕ) → cache_file_of self.now.cache.path (text_of name.entry) ≡ Some q
            → OnOk result
            (IsStored (entry self.now.cache.index (revision_value revision.now)
            (map pair_of (lines_of lines.entry))) (D.past disk.new q)) }
        ensures stored_unless_failed { D.tells
            → IsTrue (is_storable self.now.cache.index (revision_value revision.now)
            (map pair_of (lines_of lines.entry)))
            → (q : List ℕ) → cache_file_of self.now.cache.path (text_of name.entry) ≡ Some q
            → OnOk result (StoresUnlessFailed
            (entry self.now.cache.index (revision_value revision.now)
            (map pair_of (lines_of lines.entry))) q (D.past disk.new q) (D.failed disk.old)
            (D.failed disk.new)) }
        ensures failed { (q : List ℕ)
            → cache_file_of self.now.cache.path (text_of name.entry) ≡ Some q
            → FailedAtMostWriting q (D.failed disk.old) (D.failed disk.new) }
        ensures unstored_unfailed { ¬
            (IsTrue (is_storable self.now.cache.index (revision_value revision.now)
            (map pair_of (lines_of lines.entry)))) → (q : List ℕ)
            → cache_file_of self.now.cache.path (text_of name.entry) ≡ Some q
            → D.failed disk.new ≡ D.failed disk.old }
        ensures unstored { D.tells → ¬
            (IsTrue (is_storable self.now.cache.index (revision_value revision.now)
            (map pair_of (lines_of lines.entry)))) → (q : List ℕ)
            → D.past disk.new q ≡ D.past disk.old q }
        ensures any_moment { D.tells → (q : List ℕ)
            → cache_file_of self.now.cache.path (text_of name.entry) ≡ Some q
            → IsOrderly (D.past disk.old q)
            → EachMoment (D.past disk.old q) (D.past disk.new q)
            (λ file. may_leave (D.past disk.old q) file
            ⊎ (IsUnreadable file
            ⊎ (file ≡ Some (entry self.now.cache.index (revision_value revision.now)
            (map pair_of (lines_of lines.entry)))))) }
        ensures orderly { D.tells → (q : List ℕ)
            → cache_file_of self.now.cache.path (text_of name.entry) ≡ Some q
            → IsOrderly (D.past disk.old q) → IsOrderly (D.past disk.new q) }
        ensures others { D.tells → (q : List ℕ)
            → cache_file_of self.now.cache.path (text_of name.entry) ≢ Some q
            → D.past disk.new q ≡ D.past disk.old q }
        ensures kept { D.tells → (m : ServerMap)
            → ((p : List ℕ) → path (text_of name.entry) ≡ Some p
            → IsTrue (is_storable self.now.cache.index (revision_value revision.now)
            (map pair_of (lines_of lines.entry)))
            → IsWrittenFor m p (revision_value revision.now) (map pair_of (lines_of lines.entry)))
            → IsKept m self.now.cache.index self.now.cache.path (D.past disk.old)
            → Keeps m self.now.cache.index self.now.cache.path (D.past disk.old) (D.past disk.new) }
        ensures folders { D.tells → MakesOnly
            (λ q. cache_file_of self.now.cache.path (text_of name.entry) ≡ Some q)
            (D.folders disk.old) (D.folders disk.new) }
        ensures calls { D.made disk.new ≤ D.made disk.old
            + (piece_count (drop 1 (entry self.now.cache.index (revision_value revision.now)
            (map pair_of (lines_of lines.entry)))) + 12) }
        ensures later { D.faults disk.old ≤ D.faults disk.new }
    {
        match self.cache.write_to_cache(
            alloc,
            name,
            CacheWrite::Remote(lines),
            revision,
            lock,
            disk,
        ) {
            Ok(_) => Ok(()),
            Err(CacheFault::Disk) => Ok(()),
            Err(CacheFault::NoMemory) => Err(NoMemory),
        }
    }
}
