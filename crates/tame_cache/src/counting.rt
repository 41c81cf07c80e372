//! Calls that are counted and fail by their numbers.
ghost use Rattle.std.specs.Prelude.{◌≡◌, ◌≤◌, ◌+◌, IsErr, OnErr};
ghost use Rattle.tame_names.specs.Counts.{CountRose, next_call};
ghost use Rattle.tame_cache.specs.Counting.{IsCalled, IsToFail, RanOutOfMemory};
ghost use Rattle.tame_cache.specs.Faults.{HasDiskCause};

use crate::disk::DiskFault;

/// How many calls there were, the numbers of those that fail, the number from which on all fail,
/// how many have failed, and how often the object itself ran out of memory. Numbers start at 1.
#[derive(Drop)]
pub struct Counts {
    /// How many calls there were, at most 2^64 - 1.
    pub made: u64,
    /// The numbers of the calls that fail.
    pub failing: Vec<u64>,
    /// The number of the first call from which on all fail.
    pub stop: u64,
    /// How many calls have failed, at most 2^64 - 1.
    pub faults: u64,
    /// How often the object itself ran out of memory, at most 2^64 - 1.
    pub starved: u64,
}

impl Counts {
    /// Counts a fault.
    pub fn fail(&mut self) -> DiskFault
        ensures rose { CountRose self.old.faults self.new.faults }
        ensures later { self.old.faults ≤ self.new.faults }
        ensures counted { self.new.faults ≡ next_call self.old.faults }
        ensures made { self.new.made ≡ self.old.made }
        ensures failing { self.new.failing ≡ self.old.failing }
        ensures stop { self.new.stop ≡ self.old.stop }
        ensures starved { self.new.starved ≡ self.old.starved }
    {
        self.faults = self.faults.saturating_add(1);
        DiskFault
    }

    /// Counts that the object ran out of memory.
    pub fn lack(&mut self)
        ensures starved { RanOutOfMemory self.old self.new }
        ensures counted { self.new.starved ≡ next_call self.old.starved }
        ensures faults { self.new.faults ≡ self.old.faults }
        ensures made { self.new.made ≡ self.old.made }
        ensures failing { self.new.failing ≡ self.old.failing }
        ensures stop { self.new.stop ≡ self.old.stop }
    {
        self.starved = self.starved.saturating_add(1);
    }

    /// Counts a fault because the object ran out of memory.
    pub fn starve(&mut self) -> DiskFault
        ensures rose { CountRose self.old.faults self.new.faults }
        ensures later { self.old.faults ≤ self.new.faults }
        ensures counted { self.new.faults ≡ next_call self.old.faults }
        ensures starved_once { self.new.starved ≡ next_call self.old.starved }
        ensures made { self.new.made ≡ self.old.made }
        ensures failing { self.new.failing ≡ self.old.failing }
        ensures stop { self.new.stop ≡ self.old.stop }
        ensures starved { RanOutOfMemory self.old self.new }
    {
        self.lack();
        self.fail()
    }

    /// Begins a call, which fails if its number is listed or isn't below the stop.
    pub fn begin(&mut self) -> Result<(), DiskFault>
        ensures cause { HasDiskCause self.old.faults self.new.faults result }
        ensures made { self.new.made ≤ self.old.made + 1 }
        ensures called { IsCalled self.old self.new result }
        ensures only { IsErr result → IsToFail self.old }
        ensures counted { OnErr result (self.new.faults ≡ next_call self.old.faults) }
        ensures starved { self.new.starved ≡ self.old.starved }
    {
        self.made = self.made.saturating_add(1);
        if self.made >= self.stop {
            return Err(self.fail());
        }
        if self.failing.contains(&self.made) {
            return Err(self.fail());
        }
        Ok(())
    }
}
