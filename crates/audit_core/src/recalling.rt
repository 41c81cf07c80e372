//! One turn for each path by the cache alone: nothing is asked, and no file changes.
ghost use Rattle.std.specs.Prelude.{◌≡◌, ◌≢◌, ◌⊎◌, ◌∷◌, [], ◌≤◌, ℕ, List, map, Some, IsTrue, IfOk};
ghost use Rattle.std.specs.List.{list_all};
ghost use Rattle.tame_names.specs.Counts.{CountRose};
ghost use Rattle.tame_names.specs.KrateNames.{text_of};
ghost use Rattle.tame_names.specs.Names.{is_name, path};
ghost use Rattle.tame_cache.specs.Disk.{reads};
ghost use Rattle.tame_cache.specs.Kept.{cache_file_of};
ghost use Rattle.tame_sparse.specs.Exchanges.{crates_io_index};
ghost use Rattle.audit_core.specs.Answers.{file_answer};
ghost use Rattle.audit_core.specs.Blamed.{BlamesRead};
ghost use Rattle.audit_core.specs.FailedReads.{BlameReads};
ghost use Rattle.audit_core.specs.Recalled.{AreRecalled, AreUnasked};
ghost use Rattle.audit_core.specs.Turns.{AreCaused, Chains};

use crate::answers::{PathAnswer, answer_taken};
use crate::asking::{AnsweredTurn, Turn, krate_name};
use crate::verdicts::Cause;
use std::alloc::Global;
use tame_cache::CacheDisk;
use tame_names::{FileLock, Items, KrateName, NoMemory, Text};
use tame_sparse::{SparseIndex, Wire};

/// What the file of a name says.
fn recall<D: CacheDisk>(
    alloc: Global,
    index: &SparseIndex,
    lock: &FileLock,
    disk: &mut D,
    name: KrateName<'_>,
) -> Result<PathAnswer, NoMemory>
    requires root { index.now.cache.path ≡ [] }
    requires url { index.now.cache.index ≡ crates_io_index }
    ensures answer { D.tells → (q : List ℕ) → cache_file_of [] (text_of name.entry) ≡ Some q
        → IfOk result (λ a. (a ≡ file_answer (reads (D.past disk.old q)))
        ⊎ (a ≡ PathAnswer.Settled Cause.Store)) }
    ensures store { IfOk result (λ a. a ≡ PathAnswer.Settled Cause.Store
        → CountRose (D.faults disk.old) (D.faults disk.new)) }
    ensures blames { (q : List ℕ) → cache_file_of [] (text_of name.entry) ≡ Some q
        → IfOk result (BlamesRead q (D.failed disk.old) (D.failed disk.new)) }
    ensures not_wire { IfOk result (λ a. a ≢ PathAnswer.Settled Cause.Wire) }
    ensures later { D.faults disk.old ≤ D.faults disk.new }
    ensures same { D.tells → (q : List ℕ) → D.past disk.new q ≡ D.past disk.old q }
    ensures folders { D.tells → D.folders disk.new ≡ D.folders disk.old }
{
    let taken = index.cached_krate(alloc, name, lock, disk);
    answer_taken(alloc, taken)
}

/// The turn of a name.
fn recall_turn<W: Wire, D: CacheDisk>(
    alloc: Global,
    index: &SparseIndex,
    lock: &FileLock,
    wire: &W,
    disk: &mut D,
    name: &Text,
) -> Result<AnsweredTurn, NoMemory>
    requires root { index.now.cache.path ≡ [] }
    requires url { index.now.cache.index ≡ crates_io_index }
    requires named { IsTrue (is_name name.now) }
    ensures path { IfOk result (λ h. path name.now ≡ Some h.turn.path) }
    ensures counts { IfOk result (λ h. Chains (W.faults wire.now) (D.faults disk.old)
        (h.turn ∷ []) (W.faults wire.now) (D.faults disk.new)) }
    ensures unasked { IfOk result (λ h. AreUnasked (h.turn ∷ [])) }
    ensures caused { IfOk result (λ h. AreCaused (h ∷ [])) }
    ensures recalled { IfOk result (λ h. AreRecalled D.tells (D.past disk.old) (h ∷ [])) }
    ensures blames { IfOk result (λ h. BlameReads (D.failed disk.old) (h ∷ [])
        (D.failed disk.new)) }
    ensures same { D.tells → (q : List ℕ) → D.past disk.new q ≡ D.past disk.old q }
    ensures folders { D.tells → D.folders disk.new ≡ D.folders disk.old }
{
    let wire_before = wire.wire_faults();
    let disk_before = disk.disk_faults();
    let krate = krate_name(name);
    let path = krate.relative_path(alloc, None)?;
    let answer = recall(alloc, index, lock, disk, krate)?;
    Ok(AnsweredTurn {
        turn: Turn {
            path,
            wire_before,
            wire_after: wire_before,
            disk_before,
            disk_asked: disk_before,
            disk_after: disk.disk_faults(),
        },
        answer,
    })
}

/// One turn for each name, in their order.
pub fn recall_all<W: Wire, D: CacheDisk>(
    alloc: Global,
    index: &SparseIndex,
    lock: &FileLock,
    wire: &W,
    disk: &mut D,
    names: &[Text],
) -> Result<Items<AnsweredTurn>, NoMemory>
    requires root { index.now.cache.path ≡ [] }
    requires url { index.now.cache.index ≡ crates_io_index }
    requires named { IsTrue (list_all is_name names.now) }
    ensures paths { IfOk result (λ hs. map (λ h. Some h.turn.path) hs ≡ map path names.now) }
    ensures counts { IfOk result (λ hs. Chains (W.faults wire.now) (D.faults disk.old)
        (map (λ h. h.turn) hs) (W.faults wire.now) (D.faults disk.new)) }
    ensures unasked { IfOk result (λ hs. AreUnasked (map (λ h. h.turn) hs)) }
    ensures caused { IfOk result AreCaused }
    ensures recalled { IfOk result (AreRecalled D.tells (D.past disk.old)) }
    ensures blames { IfOk result (λ hs. BlameReads (D.failed disk.old) hs (D.failed disk.new)) }
    ensures same { D.tells → (q : List ℕ) → D.past disk.new q ≡ D.past disk.old q }
    ensures folders { D.tells → D.folders disk.new ≡ D.folders disk.old }
{
    let mut answered_turns = Items::new(alloc);
    for name in names {
        let turn = recall_turn(alloc, index, lock, wire, disk, name)?;
        answered_turns.add(turn)?;
    }
    Ok(answered_turns)
}
