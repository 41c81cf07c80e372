//! Laws of the definitions that contracts cite.
ghost use Rattle.tame_local.specs.CrateFiles.{GivesBack};
ghost use Rattle.tame_local.specs.Inserts.{BeginEmpty, StayValid};

/// The name of the file of a crate's version gives both back, for every name of a crate and every
/// version of SemVer.
pub fn crate_file_names_give_back()
    ensures { GivesBack }
{}

/// What `create` leaves is an empty registry, if its path has bytes and no slash at its end, only
/// folders are on the way to its index, and two spellings of a path are the same to the host.
pub fn registries_begin_empty()
    ensures { BeginEmpty }
{}

/// If a builder inserted valid crates into an empty registry, at a path with bytes and no slash at
/// its end, the registry is validated: over a host that tells what it has, `finalize` is refused
/// only if out of memory or if a call failed.
pub fn inserted_crates_stay_valid()
    ensures { StayValid }
{}
