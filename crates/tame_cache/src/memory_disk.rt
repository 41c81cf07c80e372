//! A disk in memory, which records all its changes.
ghost use Rattle.std.specs.Prelude.{◌≡◌, ◌≢◌, ◌⊎◌, ◌<◌, ◌≤◌, ◌+◌, ◌-◌, ◌/◌, ◌^◌, ◌++◌, min, map, ⊤, Some, Err, [], ◌∷◌, List, ℕ, length, take, false, true, IfOk, IsErr, OnOk, OnErr, option_map, option_copied};
ghost use Rattle.std.specs.String.{string_bytes};
ghost use Rattle.tame_names.specs.Counts.{CountRose, HasCause, next_call};
ghost use Rattle.tame_cache.specs.Counting.{IsCalled, IsToFail, RanOutOfMemory};
ghost use Rattle.tame_cache.specs.Faults.{HasDiskCause};
ghost use Rattle.tame_cache.specs.Disk.{Step, Synced, Wrote, MayCut, MaySync, MayWrite, content, reads, first_of, with_piece};
ghost use Rattle.tame_cache.specs.FailedCalls.{AddsFailed, AddsFailedBut, FailedAt, FailedReading};
ghost use Rattle.tame_cache.specs.Folders.{MakesOnly};
ghost use Rattle.tame_cache.specs.Calls.{file_of, past_of, with_change};

use crate::calls::{Change, copy_of, front_of};
use crate::changes::Changes;
use crate::counting::Counts;
use crate::disk::{CacheDisk, DiskCall, DiskFault, DiskReadFault, FailedDiskCall, Peek};
use std::alloc::{AllocError, Global};
use tame_names::{Items, NoMemory, Text};

/// A disk that keeps its files in memory, with each call that changed one. The calls whose numbers
/// are listed, counted from 1, fail.
#[derive(Drop)]
pub struct MemCacheDisk {
    pub(crate) alloc: Global,
    pub(crate) changes: Changes,
    folders: Vec<String>,
    tears: bool,
    pub(crate) counts: Counts,
    /// The calls that have failed; none once there was no memory to note one of them.
    pub(crate) failed: Option<Items<FailedDiskCall>>,
}

impl MemCacheDisk {
    ghost use Rattle.tame_cache.specs.MemoryDisk.{folders_in, past_in};

    /// A disk without files whose calls with these numbers fail.
    pub fn new(alloc: Global, failing: Vec<u64>) -> Self
        ensures files { (q : List ℕ) → past_in result q ≡ [] }
        ensures folders { folders_in result ≡ [] }
        ensures tears { result.tears ≡ false }
        ensures failing { result.counts.failing ≡ failing }
        ensures stop { result.counts.stop ≡ 2 ^ 64 - 1 }
        ensures made { result.counts.made ≡ 0 }
        ensures faults { result.counts.faults ≡ 0 }
        ensures starved { result.counts.starved ≡ 0 }
        ensures failed { result.failed ≡ Some [] }
    {
        MemCacheDisk {
            alloc,
            changes: Changes::new(alloc),
            folders: Vec::new(alloc),
            tears: false,
            counts: Counts {
                made: 0,
                failing,
                stop: u64::MAX,
                faults: 0,
                starved: 0,
            },
            failed: Some(Items::new(alloc)),
        }
    }
}

fn add_folder(alloc: Global, folders: &mut Vec<String>, path: &str) -> Result<(), AllocError>
    ensures added { OnOk result (map (λ p. string_bytes p) folders.new.items
        ≡ map (λ p. string_bytes p) folders.old.items ++ path.now ∷ []) }
    ensures same { OnErr result (folders.new.items ≡ folders.old.items) }
{
    folders.push(String::from_str(alloc, path)?)?;
    Ok(())
}

/// The failed calls with one more, or none if out of memory.
pub(crate) fn with_failed(
    alloc: Global,
    failed: Option<Items<FailedDiskCall>>,
    call: DiskCall,
    path: &str,
) -> Option<Items<FailedDiskCall>>
    ensures { FailedAt call path.now failed result }
{
    let Some(mut calls) = failed else {
        return None;
    };
    let Ok(path) = Text::of(alloc, path) else {
        return None;
    };
    match calls.add(FailedDiskCall { call, path }) {
        Ok(()) => Some(calls),
        Err(_) => None,
    }
}

impl MemCacheDisk {
    ghost use Rattle.tame_cache.specs.MemoryDisk.{folders_in, past_in};

    /// Begins a call, which fails if its number is listed or isn't below the stop.
    fn begin(&mut self, call: DiskCall, path: &str) -> Result<(), DiskFault>
        ensures changes { self.new.changes ≡ self.old.changes }
        ensures folders { self.new.folders ≡ self.old.folders }
        ensures tears { self.new.tears ≡ self.old.tears }
        ensures cause { HasDiskCause self.old.counts.faults self.new.counts.faults result }
        ensures made { self.new.counts.made ≤ self.old.counts.made + 1 }
        ensures called { IsCalled self.old.counts self.new.counts result }
        ensures only { IsErr result → IsToFail self.old.counts }
        ensures once { OnErr result
            (self.new.counts.faults ≡ next_call self.old.counts.faults) }
        ensures starved { self.new.counts.starved ≡ self.old.counts.starved }
        ensures failed { AddsFailed (FailedAt call path.now) self.old.failed self.new.failed
            result }
    {
        match self.counts.begin() {
            Ok(()) => Ok(()),
            Err(fault) => {
                self.failed = with_failed(self.alloc, self.failed.take(), call, path);
                Err(fault)
            }
        }
    }

    /// Counts a fault for lack of memory.
    pub(crate) fn starve(&mut self, call: DiskCall, path: &str) -> DiskFault
        ensures changes { self.new.changes ≡ self.old.changes }
        ensures folders { self.new.folders ≡ self.old.folders }
        ensures tears { self.new.tears ≡ self.old.tears }
        ensures rose { CountRose self.old.counts.faults self.new.counts.faults }
        ensures later { self.old.counts.faults ≤ self.new.counts.faults }
        ensures once { self.new.counts.faults ≡ next_call self.old.counts.faults }
        ensures made { self.new.counts.made ≡ self.old.counts.made }
        ensures failing { self.new.counts.failing ≡ self.old.counts.failing }
        ensures stop { self.new.counts.stop ≡ self.old.counts.stop }
        ensures starved { RanOutOfMemory self.old.counts self.new.counts }
        ensures failed { FailedAt call path.now self.old.failed self.new.failed }
    {
        self.failed = with_failed(self.alloc, self.failed.take(), call, path);
        self.counts.starve()
    }

    /// Sets a file that is on the disk.
    pub fn put_file(&mut self, alloc: Global, path: &str, bytes: &[u8]) -> Result<(), NoMemory>
        ensures put { OnOk result (past_in self.new path.now
            ≡ Synced (Some bytes.now) ∷ past_in self.old path.now) }
        ensures others { (q : List ℕ) → q ≢ path.now → past_in self.new q ≡ past_in self.old q }
        ensures same { OnErr result ((q : List ℕ) → past_in self.new q ≡ past_in self.old q) }
        ensures folders { folders_in self.new ≡ folders_in self.old }
        ensures counts { self.new.counts ≡ self.old.counts }
        ensures tears { self.new.tears ≡ self.old.tears }
        ensures failed { self.new.failed ≡ self.old.failed }
    {
        let now = bytes.to_vec(alloc)?;
        Ok(self.changes.add(alloc, path, Change::Sync, Some(now))?)
    }

    /// The n-th call from now and all later ones fail; 0 means 1.
    pub fn stop_at(&mut self, n: u64)
        ensures tears { self.new.tears ≡ self.old.tears }
        ensures same { (q : List ℕ) → past_in self.new q ≡ past_in self.old q }
        ensures folders { folders_in self.new ≡ folders_in self.old }
        ensures faults { self.new.counts.faults ≡ self.old.counts.faults }
        ensures made { self.new.counts.made ≡ self.old.counts.made }
        ensures starved { self.new.counts.starved ≡ self.old.counts.starved }
        ensures failing { self.new.counts.failing ≡ self.old.counts.failing }
        ensures stop { self.new.counts.stop ≡ min (self.old.counts.made + n) (2 ^ 64 - 1) }
        ensures failed { self.new.failed ≡ self.old.failed }
    {
        self.counts.stop = self.counts.made.saturating_add(n);
    }

    /// From now on a failed write writes the first half of its piece.
    pub fn tear(&mut self)
        ensures tears { self.new.tears ≡ true }
        ensures same { (q : List ℕ) → past_in self.new q ≡ past_in self.old q }
        ensures folders { folders_in self.new ≡ folders_in self.old }
        ensures counts { self.new.counts ≡ self.old.counts }
        ensures failed { self.new.failed ≡ self.old.failed }
    {
        self.tears = true;
    }

    /// How often the disk itself ran out of memory.
    pub fn starved(&self) -> u64
        ensures { result ≡ self.now.counts.starved }
    {
        self.counts.starved
    }
}

impl CacheDisk for MemCacheDisk {
    ghost use Rattle.tame_cache.specs.MemoryDisk.{folders_in, past_in};

    ghost tells = { ⊤ };

    ghost past = { λ disk path. past_of path [] disk.changes };

    ghost folders = { λ disk. map (λ path. string_bytes path) disk.folders.items };

    ghost failed = { λ disk. disk.failed };

    ghost faults = { λ disk. disk.counts.faults };

    ghost made = { λ disk. disk.counts.made };

    fn disk_faults(&self) -> u64 {
        self.counts.faults
    }

    fn peek(&mut self, path: &str) -> Result<Peek, DiskFault>
        ensures tears { self.new.tears ≡ self.old.tears }
        ensures first { IfOk result (λ first. first
            ≡ first_of (reads (past_in self.old path.now))) }
        ensures same { (q : List ℕ) → past_in self.new q ≡ past_in self.old q }
        ensures folders { folders_in self.new ≡ folders_in self.old }
        ensures calls { self.new.counts.made ≤ self.old.counts.made + 1 }
        ensures failed { AddsFailed (FailedAt DiskCall.Peek path.now) self.old.failed
            self.new.failed result }
        ensures cause { HasDiskCause self.old.counts.faults self.new.counts.faults result }
        ensures called { IsCalled self.old.counts self.new.counts result }
        ensures once { OnErr result
            (self.new.counts.faults ≡ next_call self.old.counts.faults) }
        ensures only { OnErr result (IsToFail self.old.counts) }
    {
        self.begin(DiskCall::Peek, path)?;
        Ok(match self.changes.current(path) {
            None => Peek::Absent,
            Some(bytes) => match bytes.first() {
                None => Peek::Empty,
                Some(first) => Peek::Byte(*first),
            },
        })
    }

    fn read(&mut self, alloc: Global, path: &str) -> Result<Option<Vec<u8>>, DiskReadFault>
        ensures tears { self.new.tears ≡ self.old.tears }
        ensures file { IfOk result (λ file. option_map (λ bytes. bytes.items) file
            ≡ reads (past_in self.old path.now)) }
        ensures same { (q : List ℕ) → past_in self.new q ≡ past_in self.old q }
        ensures folders { folders_in self.new ≡ folders_in self.old }
        ensures calls { self.new.counts.made ≤ self.old.counts.made + 1 }
        ensures failed { AddsFailedBut DiskReadFault.NoMemory (FailedReading path.now)
            self.old.failed self.new.failed result }
        ensures cause { HasCause DiskReadFault.NoMemory self.old.counts.faults
            self.new.counts.faults result }
        ensures called { IsCalled self.old.counts self.new.counts result }
        ensures once { result ≡ Err DiskReadFault.Failed
            → self.new.counts.faults ≡ next_call self.old.counts.faults }
        ensures uncounted { result ≡ Err DiskReadFault.NoMemory
            → self.new.counts.faults ≡ self.old.counts.faults }
        ensures only { result ≡ Err DiskReadFault.Failed → IsToFail self.old.counts }
    {
        if self.begin(DiskCall::Read, path).is_err() {
            return Err(DiskReadFault::Failed);
        }
        match self.changes.current(path) {
            None => Ok(None),
            Some(bytes) => match bytes.to_vec(alloc) {
                Ok(bytes) => Ok(Some(bytes)),
                Err(_) => Err(DiskReadFault::NoMemory),
            },
        }
    }

    fn make_dirs(&mut self, path: &str) -> Result<(), DiskFault>
        ensures tears { self.new.tears ≡ self.old.tears }
        ensures same { (q : List ℕ) → past_in self.new q ≡ past_in self.old q }
        ensures folders { MakesOnly (λ q. q ≡ path.now) (folders_in self.old)
            (folders_in self.new) }
        ensures made { OnOk result (folders_in self.new ≡ folders_in self.old ++ path.now ∷ []) }
        ensures calls { self.new.counts.made ≤ self.old.counts.made + 1 }
        ensures failed { AddsFailed (FailedAt DiskCall.MakeDirs path.now) self.old.failed
            self.new.failed result }
        ensures cause { HasDiskCause self.old.counts.faults self.new.counts.faults result }
        ensures called { IsCalled self.old.counts self.new.counts result }
        ensures untorn { OnErr result (folders_in self.new ≡ folders_in self.old) }
        ensures once { OnErr result
            (self.new.counts.faults ≡ next_call self.old.counts.faults) }
        ensures only { OnErr result (IsToFail self.old.counts
            ⊎ RanOutOfMemory self.old.counts self.new.counts) }
    {
        self.begin(DiskCall::MakeDirs, path)?;
        match add_folder(self.alloc, &mut self.folders, path) {
            Ok(()) => Ok(()),
            Err(_) => Err(self.starve(DiskCall::MakeDirs, path)),
        }
    }

    fn write_at(&mut self, path: &str, at: u64, piece: &[u8]) -> Result<(), DiskFault>
        ensures written { OnOk result (at ≤ length (content (reads (past_in self.old path.now)))
            → reads (past_in self.new path.now)
            ≡ Some (with_piece (content (reads (past_in self.old path.now))) at piece.now)) }
        ensures step { MayWrite at (length piece.now) (past_in self.old path.now)
            (past_in self.new path.now) }
        ensures others { (q : List ℕ) → q ≢ path.now → past_in self.new q ≡ past_in self.old q }
        ensures folders { folders_in self.new ≡ folders_in self.old }
        ensures calls { self.new.counts.made ≤ self.old.counts.made + 1 }
        ensures failed { AddsFailed (FailedAt DiskCall.WriteAt path.now) self.old.failed
            self.new.failed result }
        ensures cause { HasDiskCause self.old.counts.faults self.new.counts.faults result }
        ensures called { IsCalled self.old.counts self.new.counts result }
        ensures once { OnErr result
            (self.new.counts.faults ≡ next_call self.old.counts.faults) }
        // which writes fail, and what they leave
        ensures only { OnErr result (IsToFail self.old.counts
            ⊎ ((length (content (reads (past_in self.old path.now))) < at)
            ⊎ RanOutOfMemory self.old.counts self.new.counts)) }
        ensures untorn { OnErr result (self.old.tears ≡ false
            → past_in self.new path.now ≡ past_in self.old path.now) }
        ensures whole { OnErr result (¬ (IsToFail self.old.counts)
            → past_in self.new path.now ≡ past_in self.old path.now) }
        ensures torn { OnErr result (self.old.tears ≡ true → IsToFail self.old.counts
            → at ≤ length (content (reads (past_in self.old path.now)))
            → (reads (past_in self.new path.now)
            ≡ Some (with_piece (content (reads (past_in self.old path.now))) at
            (take (length piece.now / 2) piece.now)))
            ⊎ RanOutOfMemory self.old.counts self.new.counts) }
        ensures tears { self.new.tears ≡ self.old.tears }
    {
        match self.begin(DiskCall::WriteAt, path) {
            Ok(()) => self.write_whole(path, at, piece),
            Err(fault) => {
                if self.tears {
                    self.write_half(path, at, piece);
                }
                Err(fault)
            }
        }
    }

    fn cut(&mut self, path: &str, len: u64) -> Result<(), DiskFault>
        ensures tears { self.new.tears ≡ self.old.tears }
        ensures cut { OnOk result (reads (past_in self.new path.now)
            ≡ option_map (take len) (reads (past_in self.old path.now))) }
        ensures step { MayCut len (past_in self.old path.now) (past_in self.new path.now) }
        ensures others { (q : List ℕ) → q ≢ path.now → past_in self.new q ≡ past_in self.old q }
        ensures folders { folders_in self.new ≡ folders_in self.old }
        ensures calls { self.new.counts.made ≤ self.old.counts.made + 1 }
        ensures failed { AddsFailed (FailedAt DiskCall.Cut path.now) self.old.failed
            self.new.failed result }
        ensures cause { HasDiskCause self.old.counts.faults self.new.counts.faults result }
        ensures called { IsCalled self.old.counts self.new.counts result }
        ensures untorn { OnErr result (past_in self.new path.now ≡ past_in self.old path.now) }
        ensures once { OnErr result
            (self.new.counts.faults ≡ next_call self.old.counts.faults) }
        ensures only { OnErr result (IsToFail self.old.counts
            ⊎ RanOutOfMemory self.old.counts self.new.counts) }
    {
        self.begin(DiskCall::Cut, path)?;
        match front_of(self.alloc, self.changes.current(path), len) {
            Ok(now) => self.record_change(DiskCall::Cut, path, Change::Cut(len), now),
            Err(_) => Err(self.starve(DiskCall::Cut, path)),
        }
    }

    fn sync(&mut self, path: &str) -> Result<(), DiskFault>
        ensures tears { self.new.tears ≡ self.old.tears }
        ensures synced { OnOk result (past_in self.new path.now
            ≡ Synced (reads (past_in self.old path.now)) ∷ past_in self.old path.now) }
        ensures step { MaySync (past_in self.old path.now) (past_in self.new path.now) }
        ensures others { (q : List ℕ) → q ≢ path.now → past_in self.new q ≡ past_in self.old q }
        ensures folders { folders_in self.new ≡ folders_in self.old }
        ensures calls { self.new.counts.made ≤ self.old.counts.made + 1 }
        ensures failed { AddsFailed (FailedAt DiskCall.Sync path.now) self.old.failed
            self.new.failed result }
        ensures cause { HasDiskCause self.old.counts.faults self.new.counts.faults result }
        ensures called { IsCalled self.old.counts self.new.counts result }
        ensures untorn { OnErr result (past_in self.new path.now ≡ past_in self.old path.now) }
        ensures once { OnErr result
            (self.new.counts.faults ≡ next_call self.old.counts.faults) }
        ensures only { OnErr result (IsToFail self.old.counts
            ⊎ RanOutOfMemory self.old.counts self.new.counts) }
    {
        self.begin(DiskCall::Sync, path)?;
        match copy_of(self.alloc, self.changes.current(path)) {
            Ok(now) => self.record_change(DiskCall::Sync, path, Change::Sync, now),
            Err(_) => Err(self.starve(DiskCall::Sync, path)),
        }
    }
}
