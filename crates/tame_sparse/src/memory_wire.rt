//! A wire in memory.
ghost use Rattle.std.specs.Prelude.{◌≡◌, ◌≢◌, [], ⊤, length, Err, IfOk};
ghost use Rattle.tame_names.specs.Counts.{HasCause, next_call};
ghost use Rattle.tame_sparse.specs.Exchanges.{AddsExchange};
ghost use Rattle.tame_sparse.specs.MemoryWire.{GivesItem, MayAddItem, item_at};

use crate::network::{Exchange, Representation, Request, Wire, WireAnswer, WireFault};
use std::alloc::Global;
use tame_entry::OwnedRevision;
use tame_names::{Items, NoMemory};

/// What a server holds at a call, and the answer that it gives; without one the call fails.
#[derive(Drop)]
pub struct Scripted {
    /// What the server holds at the path; none if it holds nothing.
    pub held: Option<Representation>,
    /// The answer; none if the call fails.
    pub answer: Option<WireAnswer>,
}

/// Gives the items of a list, one at each call; a call past its end fails, with nothing held.
/// Keeps its exchanges.
#[derive(Drop)]
pub struct MemWire {
    script: Items<Scripted>,
    exchanges: Items<Exchange>,
    faults: u64,
}

impl MemWire {
    /// A wire that gives these answers.
    pub fn new(alloc: Global, script: Items<Scripted>) -> MemWire
        ensures script { result.script ≡ script }
        ensures exchanges { result.exchanges ≡ [] }
        ensures faults { result.faults ≡ 0 }
    {
        MemWire {
            script,
            exchanges: Items::new(alloc),
            faults: 0,
        }
    }

    /// The exchanges so far.
    pub fn exchanges(&self) -> &[Exchange]
        ensures { result.now ≡ self.now.exchanges }
    {
        self.exchanges.as_slice()
    }
}

/// A copy of a revision, if there is one; an error only if out of memory.
pub fn copy_revision(
    alloc: Global,
    revision: &Option<OwnedRevision>,
) -> Result<Option<OwnedRevision>, NoMemory>
    ensures { IfOk result (λ copy. copy ≡ revision.now) }
{
    match revision {
        None => Ok(None),
        Some(revision) => Ok(Some(revision.try_clone(alloc)?)),
    }
}

fn copy_answer(alloc: Global, answer: &Option<WireAnswer>) -> Result<Option<WireAnswer>, NoMemory>
    ensures { IfOk result (λ copy. copy ≡ answer.now) }
{
    let Some(answer) = answer else {
        return Ok(None);
    };
    Ok(Some(WireAnswer {
        status: answer.status,
        revision: copy_revision(alloc, &answer.revision)?,
        body: Items::copied(alloc, answer.body.as_slice())?,
    }))
}

fn copy_held(
    alloc: Global,
    held: &Option<Representation>,
) -> Result<Option<Representation>, NoMemory>
    ensures { IfOk result (λ copy. copy ≡ held.now) }
{
    let Some(held) = held else {
        return Ok(None);
    };
    Ok(Some(Representation {
        revision: copy_revision(alloc, &held.revision)?,
        body: Items::copied(alloc, held.body.as_slice())?,
    }))
}

/// What is held at a call, its answer, and a copy of that.
#[derive(Drop)]
struct Given {
    held: Option<Representation>,
    answer: Option<WireAnswer>,
    copy: Option<WireAnswer>,
}

/// The item of a call by its number; nothing after the last one.
fn copied_item(alloc: Global, script: &[Scripted], number: usize) -> Result<Given, NoMemory>
    ensures held { IfOk result (λ given. given.held ≡ (item_at script.now number).held) }
    ensures answer { IfOk result (λ given. given.answer ≡ (item_at script.now number).answer) }
    ensures copy { IfOk result (λ given. given.copy ≡ (item_at script.now number).answer) }
{
    match script.get(number) {
        None => Ok(Given {
            held: None,
            answer: None,
            copy: None,
        }),
        Some(item) => Ok(Given {
            held: copy_held(alloc, &item.held)?,
            answer: copy_answer(alloc, &item.answer)?,
            copy: copy_answer(alloc, &item.answer)?,
        }),
    }
}

impl Wire for MemWire {
    ghost tells = { ⊤ };

    ghost exchanges = { λ w. w.exchanges };

    ghost faults = { λ w. w.faults };

    ghost becomes = { λ _ _. ⊤ };

    ghost becomes_itself = { λ _. tt };

    ghost becomes_then = { λ _ _ _ _ _. tt };

    fn wire_faults(&self) -> u64 {
        self.faults
    }

    fn exchange(&mut self, alloc: Global, request: &Request) -> Result<WireAnswer, WireFault>
        ensures cause { HasCause WireFault.NoMemory self.old.faults self.new.faults result }
        ensures added { AddsExchange self.old.exchanges self.new.exchanges request.now result }
        // what is held and given is the item of the list that has the number of the call
        ensures scripted { MayAddItem self.old.exchanges self.new.exchanges request.now
            (item_at self.old.script (length self.old.exchanges)) }
        ensures given { GivesItem (item_at self.old.script (length self.old.exchanges)) result }
        ensures script { self.new.script ≡ self.old.script }
        ensures counted { result ≡ Err WireFault.Failed
            → self.new.faults ≡ next_call self.old.faults }
        ensures uncounted { result ≢ Err WireFault.Failed → self.new.faults ≡ self.old.faults }
    {
        let url = request.uri.try_clone(alloc)?;
        let path = request.path.try_clone(alloc)?;
        let named = copy_revision(alloc, &request.named)?;
        let number = self.exchanges.as_slice().len();
        let given = copied_item(alloc, self.script.as_slice(), number)?;
        self.exchanges.add(Exchange {
            url,
            path,
            named,
            held: given.held,
            answer: given.copy,
        })?;
        match given.answer {
            Some(answer) => Ok(answer),
            None => {
                self.faults = self.faults.saturating_add(1);
                Err(WireFault::Failed)
            }
        }
    }
}
