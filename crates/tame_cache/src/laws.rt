//! Laws of kept disks, over their definitions.
ghost use Rattle.std.specs.Prelude.{◌≡◌, ◌≢◌, ℕ, List, IsTrue, Err};
ghost use Rattle.tame_names.specs.declared.errors.CacheError.TheVariants.{OtherIndex};
ghost use Rattle.tame_entry.specs.Entry.{Pair, entry, has_no_zero, read_entry};
ghost use Rattle.tame_entry.specs.Revision.{EntryRevision};
ghost use Rattle.tame_entry.specs.ServerMaps.{ServerMap};
ghost use Rattle.tame_cache.specs.Disk.{EachMoment, Step};
ghost use Rattle.tame_cache.specs.Gate.{IsOrderly, MayStore};
ghost use Rattle.tame_cache.specs.Kept.{AreRefused, Disk, History, IsAddedTo, IsFileKept, IsKept, IsWithoutFiles, KeepsFile};

/// A disk without files is kept, whatever a server held.
pub fn empty_is_kept()
    ensures { (m : ServerMap) (index : List ℕ) (root : List ℕ) (disk : Disk)
        → IsWithoutFiles root disk → IsKept m index root disk }
{}

/// A disk that is kept stays so if more is known of what the server held.
pub fn kept_for_more()
    ensures { (m : ServerMap) (more : ServerMap) (index : List ℕ) (root : List ℕ) (disk : Disk)
        → IsAddedTo m more → IsKept m index root disk → IsKept more index root disk }
{}

/// A disk with nothing pending whose files are all refused for the url of the index is kept,
/// whatever a server held. So is one that another index, or the previous version of entries, has
/// filled.
pub fn refused_is_kept()
    ensures { (m : ServerMap) (index : List ℕ) (root : List ℕ) (disk : Disk)
        → AreRefused index root disk → IsKept m index root disk }
{}

/// Two indices that share a folder never believe each other. A file that is kept for the one stays
/// so at each moment of a write of the other: each file is then one that a crash could have left
/// before, refused, or the whole entry of the other, which the one refuses.
pub fn shared_folders_stay_kept()
    ensures kept { (m : ServerMap) (one other p : List ℕ) (r : EntryRevision) (ps : List Pair)
        (old new : List Step) → IsTrue (has_no_zero other) → other ≢ one → IsFileKept m one p old
        → (IsOrderly old → EachMoment old new (MayStore old (entry other r ps)))
        → (IsOrderly old → IsOrderly new) → KeepsFile m one p old new }
    ensures refused { (one other : List ℕ) (r : EntryRevision) (ps : List Pair)
        → IsTrue (has_no_zero other) → other ≢ one
        → read_entry one (entry other r ps) ≡ Err OtherIndex }
{}

/// If a disk begins without files, or with nothing pending and files that are all refused for the
/// url of the index, and is used by calls that keep it at each of their moments, it is kept
/// whenever it crashes.
pub fn histories_keep()
    ensures { (m : ServerMap) (index : List ℕ) (root : List ℕ) (began : Disk) (now : Disk)
        → History m index root began now → IsKept m index root now }
{}
