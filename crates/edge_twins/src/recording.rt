//! A disk whose calls are recorded, and made to fail from one on.
ghost use Rattle.std.specs.Prelude.{◌≡◌, ◌≢◌, ◌↔◌, ◌<◌, ◌≤◌, ◌+◌, ◌-◌, ◌^◌, ◌++◌, [], ◌∷◌, ℕ, List, length, take, IsTrue, Some, None, option_map, codes, decimal, true, false, IsOk, IfOk, OnOk, OnErr, string_bytes};
ghost use Rattle.tame_names.specs.Counts.{CountRose, HasCause};
ghost use Rattle.tame_names.specs.Output.{AddsPrefix};
ghost use Rattle.tame_cache.specs.Disk.{MayCut, MaySync, MayWrite, Synced, content, first_of, reads, with_piece};
ghost use Rattle.tame_cache.specs.FailedCalls.{AddsFailed, AddsFailedBut, FailedAt, FailedReading};
ghost use Rattle.tame_cache.specs.Faults.{HasDiskCause};
ghost use Rattle.tame_cache.specs.Folders.{MakesOnly};
ghost use Rattle.tame_cache.specs.declared.disk.DiskCall.TheVariants as DiskCall;
ghost use Rattle.edge_twins.specs.Recordings.{AddsNotes, IsPassed, done_text, note, peek_text, read_text, stopped, write_text};

use crate::notes::{file_text, push_note, text_of_first};
use crate::standing::{digits, push_bytes};
use std::alloc::{AllocError, Global};
use tame_cache::{CacheDisk, DiskFault, DiskReadFault, Peek};

/// A disk behind a record of the calls on it and of their answers. It tells of its files what the
/// disk tells.
#[derive(Drop)]
pub struct Recorder<'a, D: CacheDisk + Drop> {
    /// The disk.
    pub disk: D,
    alloc: Global,
    /// Where each call is told before it is made, and its answer behind it.
    teller: Option<&'a HostRuntime>,
    /// What was noted.
    notes: String,
    /// Whether memory sufficed for each note.
    whole: bool,
    /// How the bytes of the last write or read are noted.
    told: String,
    /// How many calls are let through; those behind them fail.
    left: u64,
    faults: u64,
}

impl<'a, D: CacheDisk + Drop> Recorder<'a, D> {
    /// A disk whose calls are told, where there is someone to tell them.
    pub fn new(alloc: Global, disk: D, teller: Option<&'a HostRuntime>) -> Recorder<'a, D>
        ensures disk { result.disk ≡ disk }
        ensures notes { string_bytes result.notes ≡ [] }
        ensures whole { result.whole ≡ true }
        ensures left { result.left ≡ 2 ^ 64 - 1 }
        ensures faults { result.faults ≡ 0 }
    {
        Recorder {
            disk,
            alloc,
            teller,
            notes: String::new(alloc),
            whole: true,
            told: String::new(alloc),
            left: u64::MAX,
            faults: 0,
        }
    }

    /// Begins a new record, and to count anew. So many calls are let through.
    pub fn begin(&mut self, left: u64)
        ensures disk { self.new.disk ≡ self.old.disk }
        ensures notes { string_bytes self.new.notes ≡ [] }
        ensures whole { self.new.whole ≡ true }
        ensures left { self.new.left ≡ left }
        ensures faults { self.new.faults ≡ 0 }
    {
        self.notes = String::new(self.alloc);
        self.whole = true;
        self.left = left;
        self.faults = 0;
    }

    /// The record; none if memory ran out for a note of it.
    pub fn record(&self) -> Result<&str, AllocError>
        ensures whole { IsOk result ↔ IsTrue self.now.whole }
        ensures notes { IfOk result (λ text. text.now ≡ string_bytes self.now.notes) }
    {
        if self.whole {
            Ok(self.notes.as_str())
        } else {
            Err(AllocError)
        }
    }

    fn note(&mut self, text: Result<String, AllocError>)
        ensures disk { self.new.disk ≡ self.old.disk }
        ensures left { self.new.left ≡ self.old.left }
        ensures faults { self.new.faults ≡ self.old.faults }
        ensures told { self.new.told ≡ self.old.told }
        ensures noted { IfOk text (λ t. AddsPrefix (string_bytes self.old.notes)
            (note (string_bytes t)) (string_bytes self.new.notes)) }
        ensures added { IfOk text (λ t. AddsNotes (note (string_bytes t))
            (string_bytes self.old.notes) (string_bytes self.new.notes)
            self.old.whole self.new.whole) }
        ensures lost { OnErr text (self.new.whole ≡ false) }
        ensures same { OnErr text (self.new.notes ≡ self.old.notes) }
    {
        let Ok(text) = text else {
            self.whole = false;
            return;
        };
        if let Some(rt) = self.teller {
            let _ = println!(rt; "{text}");
        }
        if push_note(&mut self.notes, text.as_str()).is_err() {
            self.whole = false;
        }
    }

    /// Keeps how the bytes of a call are noted.
    fn keep(&mut self, text: Result<String, AllocError>)
        ensures disk { self.new.disk ≡ self.old.disk }
        ensures left { self.new.left ≡ self.old.left }
        ensures faults { self.new.faults ≡ self.old.faults }
        ensures notes { self.new.notes ≡ self.old.notes }
        ensures whole { IsTrue self.new.whole → IsTrue self.old.whole }
    {
        match text {
            Ok(text) => self.told = text,
            Err(_) => self.whole = false,
        }
    }

    fn fail(&mut self) -> DiskFault
        ensures rose { CountRose self.old.faults self.new.faults }
        ensures later { self.old.faults ≤ self.new.faults }
        ensures disk { self.new.disk ≡ self.old.disk }
        ensures left { self.new.left ≡ self.old.left }
        ensures told { self.new.told ≡ self.old.told }
        ensures added { AddsNotes (note (codes "fault"))
            (string_bytes self.old.notes) (string_bytes self.new.notes)
            self.old.whole self.new.whole }
    {
        self.note(String::from_str(self.alloc, "fault"));
        self.faults = self.faults.saturating_add(1);
        DiskFault
    }

    /// Begins a call.
    fn call(&mut self, text: Result<String, AllocError>) -> Result<(), DiskFault>
        ensures cause { HasDiskCause self.old.faults self.new.faults result }
        ensures through { IsOk result ↔ (0 < self.old.left) }
        ensures left { self.new.left ≡ self.old.left - 1 }
        ensures quiet { OnOk result (self.new.faults ≡ self.old.faults) }
        ensures disk { self.new.disk ≡ self.old.disk }
        ensures told { self.new.told ≡ self.old.told }
        ensures added { IfOk text (λ t. AddsNotes (note (string_bytes t) ++ stopped result)
            (string_bytes self.old.notes) (string_bytes self.new.notes)
            self.old.whole self.new.whole) }
        ensures lost { OnErr text (self.new.whole ≡ false) }
    {
        self.note(text);
        if self.left == 0 {
            return Err(self.fail());
        }
        self.left = self.left.saturating_sub(1);
        Ok(())
    }

    /// Ends a call that gives nothing.
    fn end(&mut self, done: Result<(), DiskFault>) -> Result<(), DiskFault>
        ensures cause { HasDiskCause self.old.faults self.new.faults result }
        ensures same { result ≡ done }
        ensures quiet { OnOk result (self.new.faults ≡ self.old.faults) }
        ensures disk { self.new.disk ≡ self.old.disk }
        ensures left { self.new.left ≡ self.old.left }
        ensures told { self.new.told ≡ self.old.told }
        ensures added { AddsNotes (note (done_text result))
            (string_bytes self.old.notes) (string_bytes self.new.notes)
            self.old.whole self.new.whole }
    {
        match done {
            Ok(()) => {
                self.note(String::from_str(self.alloc, "done"));
                Ok(())
            }
            Err(_) => Err(self.fail()),
        }
    }

    /// A piece as it is told.
    fn piece(&self, piece: &[u8]) -> Result<String, AllocError> {
        if self.teller.is_some() {
            return digits(self.alloc, piece);
        }
        let mut text = String::new(self.alloc);
        push_bytes(self.alloc, &mut text, piece)?;
        Ok(text)
    }

    /// Begins a write. Keeps how its piece is told.
    fn begin_write(&mut self, path: &str, at: u64, piece: &[u8]) -> Result<(), DiskFault>
        ensures cause { HasDiskCause self.old.faults self.new.faults result }
        ensures through { IsOk result ↔ (0 < self.old.left) }
        ensures left { self.new.left ≡ self.old.left - 1 }
        ensures quiet { OnOk result (self.new.faults ≡ self.old.faults) }
        ensures disk { self.new.disk ≡ self.old.disk }
        ensures added { AddsNotes
            (note (write_text path.now at (string_bytes self.new.told)) ++ stopped result)
            (string_bytes self.old.notes) (string_bytes self.new.notes)
            self.old.whole self.new.whole }
    {
        self.keep(self.piece(piece));
        let text = format!(in self.alloc; "write {path} {at} {}", self.told);
        self.call(text)
    }
}

impl<'a, D: CacheDisk + Drop> CacheDisk for Recorder<'a, D> {
    ghost tells = { D.tells };

    ghost past = { λ recorder. D.past recorder.disk };

    ghost failed = { λ _. None };

    ghost faults = { λ recorder. recorder.faults };

    ghost folders = { λ recorder. D.folders recorder.disk };

    ghost made = { λ recorder. D.made recorder.disk };

    fn disk_faults(&self) -> u64 {
        self.faults
    }

    fn peek(&mut self, path: &str) -> Result<Peek, DiskFault>
        ensures first { D.tells → IfOk result
            (λ first. first ≡ first_of (reads (D.past self.old.disk path.now))) }
        ensures same { D.tells → (q : List ℕ)
            → D.past self.new.disk q ≡ D.past self.old.disk q }
        ensures folders { D.tells → D.folders self.new.disk ≡ D.folders self.old.disk }
        ensures calls { D.made self.new.disk ≤ D.made self.old.disk + 1 }
        ensures failed { AddsFailed (FailedAt DiskCall.Peek path.now) None None result }
        ensures cause { HasDiskCause self.old.faults self.new.faults result }
        ensures recorded { AddsNotes (note (codes "peek " ++ path.now) ++ note (peek_text result))
            (string_bytes self.old.notes) (string_bytes self.new.notes)
            self.old.whole self.new.whole }
        ensures passed { IsPassed self.old.left self.new.left self.old.disk self.new.disk
            (HasDiskCause (D.faults self.old.disk) (D.faults self.new.disk) result) }
    {
        let alloc = self.alloc;
        self.call(format!(in alloc; "peek {path}"))?;
        match self.disk.peek(path) {
            Ok(first) => {
                self.note(text_of_first(alloc, first));
                Ok(first)
            }
            Err(_) => Err(self.fail()),
        }
    }

    fn read(&mut self, alloc: Global, path: &str) -> Result<Option<Vec<u8>>, DiskReadFault>
        ensures file { D.tells → IfOk result (λ file. option_map (λ bytes. bytes.items) file
            ≡ reads (D.past self.old.disk path.now)) }
        ensures same { D.tells → (q : List ℕ)
            → D.past self.new.disk q ≡ D.past self.old.disk q }
        ensures folders { D.tells → D.folders self.new.disk ≡ D.folders self.old.disk }
        ensures calls { D.made self.new.disk ≤ D.made self.old.disk + 1 }
        ensures failed { AddsFailedBut DiskReadFault.NoMemory (FailedReading path.now)
            None None result }
        ensures cause { HasCause DiskReadFault.NoMemory self.old.faults self.new.faults result }
        ensures recorded { AddsNotes (note (codes "read " ++ path.now)
            ++ note (read_text (string_bytes self.new.told) result))
            (string_bytes self.old.notes) (string_bytes self.new.notes)
            self.old.whole self.new.whole }
        ensures passed { IsPassed self.old.left self.new.left self.old.disk self.new.disk
            (HasCause DiskReadFault.NoMemory (D.faults self.old.disk) (D.faults self.new.disk)
            result) }
    {
        if self.call(format!(in alloc; "read {path}")).is_err() {
            return Err(DiskReadFault::Failed);
        }
        match self.disk.read(alloc, path) {
            Ok(None) => {
                self.note(String::from_str(alloc, "absent"));
                Ok(None)
            }
            Ok(Some(bytes)) => {
                self.keep(file_text(alloc, bytes.as_slice()));
                let told = String::from_str(alloc, self.told.as_str());
                self.note(told);
                Ok(Some(bytes))
            }
            Err(DiskReadFault::NoMemory) => {
                self.note(String::from_str(alloc, "no memory"));
                Err(DiskReadFault::NoMemory)
            }
            Err(DiskReadFault::Failed) => {
                let _fault = self.fail();
                Err(DiskReadFault::Failed)
            }
        }
    }

    fn make_dirs(&mut self, path: &str) -> Result<(), DiskFault>
        ensures same { D.tells → (q : List ℕ)
            → D.past self.new.disk q ≡ D.past self.old.disk q }
        ensures folders { D.tells → MakesOnly (λ q. q ≡ path.now) (D.folders self.old.disk)
            (D.folders self.new.disk) }
        ensures made { D.tells → OnOk result
            (D.folders self.new.disk ≡ D.folders self.old.disk ++ path.now ∷ []) }
        ensures calls { D.made self.new.disk ≤ D.made self.old.disk + 1 }
        ensures failed { AddsFailed (FailedAt DiskCall.MakeDirs path.now) None None result }
        ensures cause { HasDiskCause self.old.faults self.new.faults result }
        ensures recorded { AddsNotes (note (codes "folders " ++ path.now)
            ++ note (done_text result)) (string_bytes self.old.notes)
            (string_bytes self.new.notes) self.old.whole self.new.whole }
        ensures passed { IsPassed self.old.left self.new.left self.old.disk self.new.disk
            (HasDiskCause (D.faults self.old.disk) (D.faults self.new.disk) result) }
    {
        self.call(format!(in self.alloc; "folders {path}"))?;
        let done = self.disk.make_dirs(path);
        self.end(done)
    }

    fn write_at(&mut self, path: &str, at: u64, piece: &[u8]) -> Result<(), DiskFault>
        ensures written { D.tells → OnOk result
            (at ≤ length (content (reads (D.past self.old.disk path.now)))
            → reads (D.past self.new.disk path.now) ≡ Some
            (with_piece (content (reads (D.past self.old.disk path.now))) at piece.now)) }
        ensures step { D.tells → MayWrite at (length piece.now) (D.past self.old.disk path.now)
            (D.past self.new.disk path.now) }
        ensures others { D.tells → (q : List ℕ) → q ≢ path.now
            → D.past self.new.disk q ≡ D.past self.old.disk q }
        ensures folders { D.tells → D.folders self.new.disk ≡ D.folders self.old.disk }
        ensures calls { D.made self.new.disk ≤ D.made self.old.disk + 1 }
        ensures failed { AddsFailed (FailedAt DiskCall.WriteAt path.now) None None result }
        ensures cause { HasDiskCause self.old.faults self.new.faults result }
        ensures recorded { AddsNotes (note (write_text path.now at (string_bytes self.new.told))
            ++ note (done_text result)) (string_bytes self.old.notes)
            (string_bytes self.new.notes) self.old.whole self.new.whole }
        ensures passed { IsPassed self.old.left self.new.left self.old.disk self.new.disk
            (HasDiskCause (D.faults self.old.disk) (D.faults self.new.disk) result) }
    {
        self.begin_write(path, at, piece)?;
        let done = self.disk.write_at(path, at, piece);
        self.end(done)
    }

    fn cut(&mut self, path: &str, len: u64) -> Result<(), DiskFault>
        ensures cut { D.tells → OnOk result (reads (D.past self.new.disk path.now)
            ≡ option_map (take len) (reads (D.past self.old.disk path.now))) }
        ensures step { D.tells → MayCut len (D.past self.old.disk path.now)
            (D.past self.new.disk path.now) }
        ensures others { D.tells → (q : List ℕ) → q ≢ path.now
            → D.past self.new.disk q ≡ D.past self.old.disk q }
        ensures folders { D.tells → D.folders self.new.disk ≡ D.folders self.old.disk }
        ensures calls { D.made self.new.disk ≤ D.made self.old.disk + 1 }
        ensures failed { AddsFailed (FailedAt DiskCall.Cut path.now) None None result }
        ensures cause { HasDiskCause self.old.faults self.new.faults result }
        ensures recorded { AddsNotes (note (codes "cut " ++ path.now ++ codes " " ++ decimal len)
            ++ note (done_text result)) (string_bytes self.old.notes)
            (string_bytes self.new.notes) self.old.whole self.new.whole }
        ensures passed { IsPassed self.old.left self.new.left self.old.disk self.new.disk
            (HasDiskCause (D.faults self.old.disk) (D.faults self.new.disk) result) }
    {
        self.call(format!(in self.alloc; "cut {path} {len}"))?;
        let done = self.disk.cut(path, len);
        self.end(done)
    }

    fn sync(&mut self, path: &str) -> Result<(), DiskFault>
        ensures synced { D.tells → OnOk result (D.past self.new.disk path.now
            ≡ Synced (reads (D.past self.old.disk path.now)) ∷ D.past self.old.disk path.now) }
        ensures step { D.tells → MaySync (D.past self.old.disk path.now)
            (D.past self.new.disk path.now) }
        ensures others { D.tells → (q : List ℕ) → q ≢ path.now
            → D.past self.new.disk q ≡ D.past self.old.disk q }
        ensures folders { D.tells → D.folders self.new.disk ≡ D.folders self.old.disk }
        ensures calls { D.made self.new.disk ≤ D.made self.old.disk + 1 }
        ensures failed { AddsFailed (FailedAt DiskCall.Sync path.now) None None result }
        ensures cause { HasDiskCause self.old.faults self.new.faults result }
        ensures recorded { AddsNotes (note (codes "sync " ++ path.now) ++ note (done_text result))
            (string_bytes self.old.notes) (string_bytes self.new.notes)
            self.old.whole self.new.whole }
        ensures passed { IsPassed self.old.left self.new.left self.old.disk self.new.disk
            (HasDiskCause (D.faults self.old.disk) (D.faults self.new.disk) result) }
    {
        self.call(format!(in self.alloc; "sync {path}"))?;
        let done = self.disk.sync(path);
        self.end(done)
    }
}
