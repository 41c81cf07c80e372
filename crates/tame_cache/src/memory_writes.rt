//! Noted changes of a disk in memory, and writes: whole ones, and those that a fault tears.
ghost use Rattle.std.specs.Prelude.{◌≡◌, ◌≢◌, ◌⊎◌, ◌<◌, ◌≤◌, ◌/◌, ◌++◌, ◌∷◌, [], Some, List, ℕ, length, take, OnOk, OnErr};
ghost use Rattle.tame_names.specs.Counts.{next_call};
ghost use Rattle.tame_cache.specs.Counting.{RanOutOfMemory};
ghost use Rattle.tame_cache.specs.Faults.{HasDiskCause};
ghost use Rattle.tame_cache.specs.Calls.{file_of, past_of, with_change};
ghost use Rattle.tame_cache.specs.Disk.{MayWrite, content, reads, with_piece};
ghost use Rattle.tame_cache.specs.FailedCalls.{AddsFailed, FailedAt};

use crate::calls::{Change, content_of, with_bytes};
use crate::disk::{DiskCall, DiskFault};
use crate::memory_disk::{MemCacheDisk, with_failed};

impl MemCacheDisk {
    ghost use Rattle.tame_cache.specs.MemoryDisk.{past_in};

    /// Notes a change of a file, by this call.
    pub(crate) fn record_change(
        &mut self,
        call: DiskCall,
        path: &str,
        change: Change,
        now: Option<Vec<u8>>,
    ) -> Result<(), DiskFault>
        ensures noted { OnOk result ((q : List ℕ)
            → past_of q [] self.new.changes
            ≡ with_change q (past_of q [] self.old.changes) path.now change (file_of now)) }
        ensures same { OnErr result (self.new.changes ≡ self.old.changes) }
        ensures folders { self.new.folders ≡ self.old.folders }
        ensures tears { self.new.tears ≡ self.old.tears }
        ensures counted { OnOk result (self.new.counts ≡ self.old.counts) }
        ensures starved { OnErr result (RanOutOfMemory self.old.counts self.new.counts) }
        ensures once { OnErr result
            (self.new.counts.faults ≡ next_call self.old.counts.faults) }
        ensures cause { HasDiskCause self.old.counts.faults self.new.counts.faults result }
        ensures made { self.new.counts.made ≡ self.old.counts.made }
        ensures failing { self.new.counts.failing ≡ self.old.counts.failing }
        ensures stop { self.new.counts.stop ≡ self.old.counts.stop }
        ensures failed { AddsFailed (FailedAt call path.now) self.old.failed self.new.failed
            result }
    {
        match self.changes.add(self.alloc, path, change, now) {
            Ok(()) => Ok(()),
            Err(_) => Err(self.starve(call, path)),
        }
    }

    /// Writes a piece at a place.
    pub(crate) fn write_whole(&mut self, path: &str, at: u64, piece: &[u8]) -> Result<(), DiskFault>
        ensures written { OnOk result (reads (past_in self.new path.now)
            ≡ Some (with_piece (content (reads (past_in self.old path.now))) at piece.now)) }
        ensures step { MayWrite at (length piece.now) (past_in self.old path.now)
            (past_in self.new path.now) }
        ensures same { OnErr result (past_in self.new path.now ≡ past_in self.old path.now) }
        ensures others { (q : List ℕ) → q ≢ path.now → past_in self.new q ≡ past_in self.old q }
        ensures folders { self.new.folders ≡ self.old.folders }
        ensures tears { self.new.tears ≡ self.old.tears }
        ensures counted { OnOk result (self.new.counts ≡ self.old.counts) }
        ensures only { OnErr result ((length (content (reads (past_in self.old path.now))) < at)
            ⊎ RanOutOfMemory self.old.counts self.new.counts) }
        ensures once { OnErr result
            (self.new.counts.faults ≡ next_call self.old.counts.faults) }
        ensures cause { HasDiskCause self.old.counts.faults self.new.counts.faults result }
        ensures made { self.new.counts.made ≡ self.old.counts.made }
        ensures failing { self.new.counts.failing ≡ self.old.counts.failing }
        ensures stop { self.new.counts.stop ≡ self.old.counts.stop }
        ensures failed { AddsFailed (FailedAt DiskCall.WriteAt path.now) self.old.failed
            self.new.failed result }
    {
        let call = DiskCall::WriteAt;
        let old = content_of(self.changes.current(path));
        if at > old.len() as u64 {
            self.failed = with_failed(self.alloc, self.failed.take(), call, path);
            return Err(self.counts.fail());
        }
        let change = Change::Write(at, piece.len() as u64);
        match with_bytes(self.alloc, old, at as usize, piece) {
            Ok(now) => self.record_change(call, path, change, Some(now)),
            Err(_) => Err(self.starve(call, path)),
        }
    }

    /// Does half of a write, unless it runs out of memory, which is counted.
    pub(crate) fn write_half(&mut self, path: &str, at: u64, piece: &[u8])
        ensures step { MayWrite at (length piece.now) (past_in self.old path.now)
            (past_in self.new path.now) }
        ensures others { (q : List ℕ) → q ≢ path.now → past_in self.new q ≡ past_in self.old q }
        ensures folders { self.new.folders ≡ self.old.folders }
        ensures tears { self.new.tears ≡ self.old.tears }
        ensures torn { at ≤ length (content (reads (past_in self.old path.now)))
            → (reads (past_in self.new path.now)
            ≡ Some (with_piece (content (reads (past_in self.old path.now))) at
            (take (length piece.now / 2) piece.now)))
            ⊎ RanOutOfMemory self.old.counts self.new.counts }
        ensures faults { self.new.counts.faults ≡ self.old.counts.faults }
        ensures made { self.new.counts.made ≡ self.old.counts.made }
        ensures failing { self.new.counts.failing ≡ self.old.counts.failing }
        ensures stop { self.new.counts.stop ≡ self.old.counts.stop }
        ensures failed { self.new.failed ≡ self.old.failed }
    {
        let old = content_of(self.changes.current(path));
        if at > old.len() as u64 {
            return;
        }
        let len = piece.len() as u64;
        let front = &piece[..piece.len() / 2];
        match with_bytes(self.alloc, old, at as usize, front) {
            Ok(now) => {
                let change = Change::Write(at, len);
                let noted = self.changes.add(self.alloc, path, change, Some(now));
                if noted.is_err() {
                    self.counts.lack();
                }
            }
            Err(_) => self.counts.lack(),
        }
    }
}
