//! Errors of `semver` that mean out of memory.
ghost use Rattle.std.specs.Prelude.{◌≡◌, ◌↔◌, IsTrue};
ghost use Rattle.semver.specs.Parse.{memory_error};

use std::alloc::AllocError;

/// Whether reading a version or a requirement ran out of memory.
pub fn is_memory(error: semver::Error) -> bool
    ensures { IsTrue result ↔ (error ≡ memory_error) }
{
    error == semver::Error::from(AllocError)
}
