//! Packages judged by the answers for their paths.
ghost use Rattle.std.specs.Prelude.{◌≡◌, ◌<◌, true, false, Some, None, IfOk, IfSome, length, map, slice_get};
ghost use Rattle.tame_names.specs.Names.{path};
ghost use Rattle.audit_core.specs.AnsweredTurns.{IsAnsweredAt};
ghost use Rattle.audit_core.specs.Paths.{defaults, is_default};
ghost use Rattle.audit_core.specs.Plans.{ArePlanned, IsPlanned};
ghost use Rattle.audit_core.specs.Verdicts.{AreVerdicts};

use crate::answers::verdict_by;
use crate::asking::AnsweredTurn;
use crate::planning::Planned;
use crate::verdicts::{Cause, Judged, Verdict};
use audit_lock::Package;
use std::alloc::Global;
use tame_names::{Items, NoMemory};

/// The turn at a place, with its answer.
fn answered_turn_at(answered_turns: &[AnsweredTurn], place: usize) -> &AnsweredTurn
    requires { place < length answered_turns.now }
    ensures { slice_get answered_turns.now place ≡ Some result.now }
{
    &answered_turns[place]
}

/// The package at a place.
fn package_at(packages: &[Package], place: usize) -> &Package
    requires { place < length packages.now }
    ensures { slice_get packages.now place ≡ Some result.now }
{
    &packages[place]
}

/// The verdict of a package by its turn; nothing if it isn't of the default registry.
fn verdict_of(
    answered_turns: &[AnsweredTurn],
    planned: Planned,
    locked: &Package,
) -> Option<Verdict>
    requires { IsPlanned (map (λ h. h.turn.path) answered_turns.now) locked.now planned }
    ensures elsewhere { result ≡ None → is_default locked.now ≡ false }
    ensures default { IfSome result (λ v. is_default locked.now ≡ true) }
    ensures verdict { IfSome result
        (IsAnsweredAt answered_turns.now locked.now.version (path locked.now.name)) }
{
    match planned {
        Planned::Elsewhere => None,
        Planned::Nameless => Some(Verdict::Unchecked(Cause::Name)),
        Planned::Turn(place) => Some(verdict_by(
            &answered_turn_at(answered_turns, place).answer,
            locked.version.as_str(),
        )),
    }
}

/// A verdict for each package of the default registry, in their order.
pub fn judge(
    alloc: Global,
    answered_turns: &[AnsweredTurn],
    planned: &[Planned],
    packages: &[Package],
) -> Result<Items<Judged>, NoMemory>
    requires { ArePlanned (map (λ h. h.turn.path) answered_turns.now) packages.now planned.now }
    ensures { IfOk result (AreVerdicts (IsAnsweredAt answered_turns.now) (defaults packages.now)) }
{
    let mut verdicts = Items::new(alloc);
    for (i, turn) in planned.iter().enumerate() {
        if let Some(verdict) = verdict_of(answered_turns, *turn, package_at(packages, i)) {
            verdicts.add(Judged {
                package: i,
                verdict,
            })?;
        }
    }
    Ok(verdicts)
}
