//! Checks for yanked versions: by the index, by the cache alone, or none.
ghost use Rattle.std.specs.Prelude.{◌≡◌, ◌≢◌, [], ℕ, List, map, IfOk, OnErr};
ghost use Rattle.tame_sparse.specs.Exchanges.{crates_io_index};
ghost use Rattle.audit_core.specs.Audits.{AuditSays};
ghost use Rattle.audit_core.specs.Checks.{asked_of, judged_of};
ghost use Rattle.audit_core.specs.Checks as spec;
ghost use Rattle.audit_core.specs.Leaves.{AsksOnly, CallsBy, holding};
ghost use Rattle.audit_core.specs.Paths.{asked_paths, defaults};
ghost use Rattle.audit_core.specs.Turns.{StaysKept};

use crate::asking::{AnsweredTurn, Turn, ask_all};
use crate::judging::judge;
use crate::planning::{TurnPlan, plan_turns};
use crate::recalling::recall_all;
use crate::verdicts::Judged;
use audit_lock::Package;
use audit_settings::AuditConfig;
use std::alloc::Global;
use tame_cache::CacheDisk;
use tame_names::{Error, FileLock, Items, NoMemory, Text};
use tame_sparse::{CRATES_IO_HTTP_INDEX, SparseIndex, Wire};

/// How yanked versions are checked.
#[derive(Clone, Copy, Debug, PartialEq, Eq)]
pub enum Checks {
    /// The index is asked, and what it sends is kept.
    Online,
    /// The cache alone is read.
    Offline,
    /// Not at all.
    Off,
}

/// The checks that settings ask for.
pub fn checks_of(config: &AuditConfig) -> Checks
    ensures { result ≡ spec.checks_of config.now }
{
    if !config.yanked.enabled {
        Checks::Off
    } else if config.yanked.update_index && config.database.fetch {
        Checks::Online
    } else {
        Checks::Offline
    }
}

/// The verdicts and turns of an audit.
#[derive(Drop)]
pub struct Checked {
    /// One verdict for each package of the default registry, in the lockfile's order.
    pub verdicts: Items<Judged>,
    /// One turn for each path that was asked for, in their order.
    pub turns: Items<Turn>,
}

fn turns_of(alloc: Global, answered_turns: Items<AnsweredTurn>) -> Result<Items<Turn>, NoMemory>
    ensures { IfOk result (λ ts. ts ≡ map (λ h. h.turn) answered_turns) }
{
    let mut turns = Items::new(alloc);
    for h in answered_turns.into_vec() {
        turns.add(h.turn)?;
    }
    Ok(turns)
}

/// The sparse index of crates.io that audits ask, with its cache in the folder `.cache`.
pub fn crates_io(alloc: Global) -> Result<SparseIndex, NoMemory>
    ensures root { IfOk result (λ index. index.cache.path ≡ []) }
    ensures url { IfOk result (λ index. index.cache.index ≡ crates_io_index) }
{
    match SparseIndex::at(alloc, Text::of(alloc, "")?, CRATES_IO_HTTP_INDEX) {
        Ok(index) => Ok(index),
        Err(Error::NoMemory) => Err(NoMemory),
        Err(_) => unreachable!("the url of crates.io is one"),
    }
}

/// Asks for the packages of the default registry, and judges them.
fn check_online<W: Wire, D: CacheDisk>(
    alloc: Global,
    packages: &[Package],
    lock: &FileLock,
    wire: &mut W,
    disk: &mut D,
) -> Result<Checked, NoMemory>
    ensures says { IfOk result (λ c. AuditSays Checks.Online W.tells D.tells
        (record {
          exchanges = W.exchanges wire.old;
          files = D.past disk.old;
          wire_faults = W.faults wire.old;
          disk_faults = D.faults disk.old;
          disk_failed = D.failed disk.old;
        })
        (record {
          exchanges = W.exchanges wire.new;
          files = D.past disk.new;
          wire_faults = W.faults wire.new;
          disk_faults = D.faults disk.new;
          disk_failed = D.failed disk.new;
        })
        (asked_paths packages.now) (defaults packages.now) c.turns c.verdicts) }
    ensures becomes { W.becomes wire.old wire.new }
    ensures kept { W.tells → D.tells
        → StaysKept (W.exchanges wire.old) (W.exchanges wire.new) (D.past disk.old)
        (D.past disk.new) }
    ensures asks { AsksOnly W.tells D.tells (asked_paths packages.now)
        (holding (W.exchanges wire.old) (D.past disk.old) (D.folders disk.old))
        (holding (W.exchanges wire.new) (D.past disk.new) (D.folders disk.new)) }
{
    let index = crates_io(alloc)?;
    let plan = plan_turns(alloc, packages)?;
    let answered_turns = ask_all(alloc, &index, lock, wire, disk, plan.names.as_slice())?;
    let verdicts = judge(
        alloc,
        answered_turns.as_slice(),
        plan.turns.as_slice(),
        packages,
    )?;
    let turns = turns_of(alloc, answered_turns)?;
    Ok(Checked { verdicts, turns })
}

/// Judges the packages of the default registry by the cache alone.
fn check_offline<W: Wire, D: CacheDisk>(
    alloc: Global,
    packages: &[Package],
    lock: &FileLock,
    wire: &W,
    disk: &mut D,
) -> Result<Checked, NoMemory>
    ensures says { IfOk result (λ c. AuditSays Checks.Offline W.tells D.tells
        (record {
          exchanges = W.exchanges wire.now;
          files = D.past disk.old;
          wire_faults = W.faults wire.now;
          disk_faults = D.faults disk.old;
          disk_failed = D.failed disk.old;
        })
        (record {
          exchanges = W.exchanges wire.now;
          files = D.past disk.new;
          wire_faults = W.faults wire.now;
          disk_faults = D.faults disk.new;
          disk_failed = D.failed disk.new;
        })
        (asked_paths packages.now) (defaults packages.now) c.turns c.verdicts) }
    ensures same { D.tells → (q : List ℕ) → D.past disk.new q ≡ D.past disk.old q }
    ensures folders { D.tells → D.folders disk.new ≡ D.folders disk.old }
{
    let index = crates_io(alloc)?;
    let plan = plan_turns(alloc, packages)?;
    let answered_turns = recall_all(alloc, &index, lock, wire, disk, plan.names.as_slice())?;
    let verdicts = judge(
        alloc,
        answered_turns.as_slice(),
        plan.turns.as_slice(),
        packages,
    )?;
    let turns = turns_of(alloc, answered_turns)?;
    Ok(Checked { verdicts, turns })
}

/// Checks the packages of the default registry for yanked versions.
pub fn check<W: Wire, D: CacheDisk>(
    alloc: Global,
    checks: Checks,
    packages: &[Package],
    lock: &FileLock,
    wire: &mut W,
    disk: &mut D,
) -> Result<Checked, NoMemory>
    ensures says { IfOk result (λ c. AuditSays checks W.tells D.tells
        (record {
          exchanges = W.exchanges wire.old;
          files = D.past disk.old;
          wire_faults = W.faults wire.old;
          disk_faults = D.faults disk.old;
          disk_failed = D.failed disk.old;
        })
        (record {
          exchanges = W.exchanges wire.new;
          files = D.past disk.new;
          wire_faults = W.faults wire.new;
          disk_faults = D.faults disk.new;
          disk_failed = D.failed disk.new;
        })
        (asked_of checks packages.now) (judged_of checks packages.now) c.turns c.verdicts) }
    ensures becomes { W.becomes wire.old wire.new }
    ensures kept { W.tells → D.tells
        → StaysKept (W.exchanges wire.old) (W.exchanges wire.new) (D.past disk.old)
        (D.past disk.new) }
    ensures asks { AsksOnly W.tells D.tells (asked_of checks packages.now)
        (holding (W.exchanges wire.old) (D.past disk.old) (D.folders disk.old))
        (holding (W.exchanges wire.new) (D.past disk.new) (D.folders disk.new)) }
    ensures calls { CallsBy checks D.tells (wire.new ≡ wire.old) (disk.new ≡ disk.old)
        (holding (W.exchanges wire.old) (D.past disk.old) (D.folders disk.old))
        (holding (W.exchanges wire.new) (D.past disk.new) (D.folders disk.new)) }
{
    match checks {
        Checks::Online => check_online(alloc, packages, lock, wire, disk),
        Checks::Offline => check_offline(alloc, packages, lock, &*wire, disk),
        Checks::Off => Ok(Checked {
            verdicts: Items::new(alloc),
            turns: Items::new(alloc),
        }),
    }
}
