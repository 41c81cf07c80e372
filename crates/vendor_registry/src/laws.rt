//! Laws of the definitions that contracts cite.
ghost use Rattle.std.specs.Prelude.{◌≡◌, ℕ, List, Ok};
ghost use Rattle.tame_names.specs.MemoryFiles.{host_in};
ghost use Rattle.tame_names.specs.declared.memory_files.MemFiles.{MemFiles};
ghost use Rattle.tame_local.specs.Inserts.{StandsPlain};
ghost use Rattle.audit_lock.specs.Locked.{locked};
ghost use Rattle.audit_lock.specs.declared.resolving.Package.{Package};
ghost use Rattle.vendor_registry.specs.Looked.{AreEachPair, looked};
ghost use Rattle.vendor_registry.specs.Named.{AreVersioned, IsPlace, NoneBelow};
ghost use Rattle.vendor_registry.specs.Vendored.{IsBare};

/// The packages that go into a registry are those of the default registry, in the lockfile's
/// order, each pair of name and version once: none is left out, and none comes twice.
pub fn each_pair_is_looked_at_once()
    ensures { (packages : List Package) → AreEachPair packages (looked packages) }
{}

/// Each package of a lockfile has a version of SemVer, which is the premise of the clause that what
/// was built agrees with its index.
pub fn packages_of_lockfiles_are_versioned()
    ensures { (text : List ℕ) (packages : List Package) → locked text ≡ Ok packages
        → AreVersioned packages }
{}

/// On a host in memory the same is at paths that differ only by slashes at their ends: a premise of
/// the clauses on what was built.
pub fn hosts_in_memory_stand_plain()
    ensures { (files : MemFiles) → StandsPlain (host_in files).stands }
{}

/// On a host in memory that has no file below a folder nothing is in it, however deep: a premise of
/// `no_other` and `not_empty` of a registry. Its crate files may be elsewhere.
pub fn hosts_in_memory_are_bare()
    ensures { (files : MemFiles) (folder : List ℕ) → IsPlace folder
        → NoneBelow folder files.files → IsBare (host_in files) folder }
{}
