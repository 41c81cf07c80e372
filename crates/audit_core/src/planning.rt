//! Which paths are asked for, and the turn of each package.
ghost use Rattle.std.specs.Prelude.{◌≡◌, List, ℕ, [], ◌++◌, map, Some, IfOk, IfSome, OnOk};
ghost use Rattle.tame_names.specs.Names.{path};
ghost use Rattle.audit_core.specs.Paths.{asked_paths, default_path, place_in};
ghost use Rattle.audit_core.specs.Plans.{ArePlanned, IsPathOf};

use audit_lock::Package;
use std::alloc::Global;
use std::collections::BTreeMap;
use tame_names::{Items, KrateName, NoMemory, Text};

/// The turn of a package.
#[derive(Clone, Copy, Debug, PartialEq, Eq)]
pub enum Planned {
    /// No turn: the package isn't of the default registry.
    Elsewhere,
    /// No turn: the package's name isn't the name of a crate.
    Nameless,
    /// The turn at this place, from 0.
    Turn(usize),
}

/// What is asked for a lockfile's packages.
#[derive(Drop)]
pub struct TurnPlan {
    /// For each path that is asked for, in their order, the name of its first package.
    pub names: Items<Text>,
    /// For each package its turn.
    pub turns: Items<Planned>,
}

/// The paths so far in their order, the name of the first package of each, and the place of each.
#[derive(Drop)]
pub struct Places {
    /// The name of the first package of each path.
    pub names: Items<Text>,
    /// The paths, each once.
    pub paths: Items<Text>,
    /// The place of each path among these, from 0.
    pub map: BTreeMap<String, usize>,
}

/// The path of a name; nothing if the text isn't a name.
fn path_of(alloc: Global, name: &str) -> Result<Option<Text>, NoMemory>
    ensures path { IfOk result (λ q. q ≡ path name.now) }
    ensures named { IfOk result (λ q. IfSome q (IsPathOf name.now)) }
{
    match KrateName::try_from(name) {
        Ok(name) => Ok(Some(name.relative_path(alloc, None)?)),
        Err(_) => Ok(None),
    }
}

impl Places {
    ghost use Rattle.audit_core.specs.Plans.{AreAt, IsPathOf, IsPlanned, with_each, with_path};

    fn new(alloc: Global) -> Places
        ensures empty { result.paths ≡ [] }
        ensures places { AreAt result }
    {
        Places {
            names: Items::new(alloc),
            paths: Items::new(alloc),
            map: BTreeMap::new(alloc),
        }
    }

    /// The place of the path of a name, which is added at the end if it isn't there.
    fn place(&mut self, alloc: Global, name: &str, path: Text) -> Result<usize, NoMemory>
        requires places { AreAt self.old }
        requires path { IsPathOf name.now path }
        ensures places { OnOk result (AreAt self.new) }
        ensures paths { OnOk result (self.new.paths ≡ with_path self.old.paths path) }
        ensures place { IfOk result (λ i. place_in self.new.paths path ≡ Some i) }
    {
        if let Some(place) = self.map.get(path.as_str()) {
            return Ok(*place);
        }
        let place = self.paths.as_slice().len();
        let copy = Text::of(alloc, name)?;
        self.map
            .insert(String::from_str(alloc, path.as_str())?, place)?;
        self.names.add(copy)?;
        self.paths.add(path)?;
        Ok(place)
    }

    /// The turn of a package, whose path is added if it is the first.
    fn plan(&mut self, alloc: Global, locked: &Package) -> Result<Planned, NoMemory>
        requires places { AreAt self.old }
        ensures places { OnOk result (AreAt self.new) }
        ensures paths { OnOk result (self.new.paths
            ≡ with_each self.old.paths (default_path locked.now)) }
        ensures planned { IfOk result (IsPlanned self.new.paths locked.now) }
    {
        if !locked.is_default() {
            return Ok(Planned::Elsewhere);
        }
        match path_of(alloc, locked.name.as_str())? {
            None => Ok(Planned::Nameless),
            Some(path) => Ok(Planned::Turn(self.place(alloc, locked.name.as_str(), path)?)),
        }
    }
}

/// What is asked for a lockfile's packages.
pub fn plan_turns(alloc: Global, packages: &[Package]) -> Result<TurnPlan, NoMemory>
    ensures named { IfOk result (λ p. map path p.names
        ≡ map (λ q. Some q) (asked_paths packages.now)) }
    ensures planned { IfOk result (λ p. ArePlanned
        (asked_paths packages.now) packages.now p.turns) }
{
    let mut places = Places::new(alloc);
    let mut turns = Items::new(alloc);
    for locked in packages {
        let turn = places.plan(alloc, locked)?;
        turns.add(turn)?;
    }
    let Places { names, .. } = places;
    Ok(TurnPlan { names, turns })
}
