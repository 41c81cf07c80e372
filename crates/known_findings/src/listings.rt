//! Findings in the byte order of their lines.
ghost use Rattle.std.specs.Prelude.{◌≡◌, ℕ, List, [], map, IfOk, OnOk};
ghost use Rattle.std.specs.Cmp.Lexicographic.{slice_cmp};
ghost use Rattle.std.specs.List.Sorted.{IsStrictlySortedBy};
ghost use Rattle.std.specs.Map.{keys_of, values_of};
ghost use Rattle.std.specs.Ordering.{nat_cmp};
ghost use Rattle.known_findings.specs.Baselines.{put};
ghost use Rattle.known_findings.specs.Findings.{line};
ghost use Rattle.known_findings.specs.declared.findings.Finding.{Finding};

use crate::findings::Finding;
use std::alloc::Global;
use std::collections::BTreeMap;
use std::marker::Model;
use tame_names::{Items, NoMemory, Text};

/// Findings by their lines. Contracts see the list of them, in the byte order of the lines.
#[derive(Drop)]
pub struct Listing {
    by_line: BTreeMap<Text, Finding>,
}

impl Model for Listing {
    ghost Value = { List Finding };

    ghost view = { λ l. values_of l.by_line.entries };

    ghost invariant = { λ l. l.by_line.entries
        ≡ map (λ f. (line f, f)) (values_of l.by_line.entries) };
}

/// Lines with their findings.
#[derive(Drop)]
pub struct Parted {
    /// The lines, each once, in byte order.
    pub lines: Items<Text>,
    /// The finding of each line, in the order of the lines.
    pub findings: Items<Finding>,
}

fn part(alloc: Global, by_line: BTreeMap<Text, Finding>) -> Result<Parted, NoMemory>
    ensures lines { IfOk result (λ p. p.lines ≡ keys_of by_line.entries) }
    ensures findings { IfOk result (λ p. p.findings ≡ values_of by_line.entries) }
    ensures ordered { IfOk result (λ p. IsStrictlySortedBy (slice_cmp nat_cmp) p.lines) }
{
    let mut lines = Items::new(alloc);
    let mut findings = Items::new(alloc);
    for (line, finding) in by_line {
        lines.add(line)?;
        findings.add(finding)?;
    }
    Ok(Parted { lines, findings })
}

impl Listing {
    /// No findings.
    pub fn new(alloc: Global) -> Listing
        ensures { result ≡ [] }
    {
        Listing {
            by_line: BTreeMap::new(alloc),
        }
    }

    /// Puts a finding at its line's position.
    pub fn put(&mut self, alloc: Global, finding: Finding) -> Result<(), NoMemory>
        ensures { OnOk result (self.new ≡ put self.old finding) }
    {
        let line = finding.line(alloc)?;
        match self.by_line.insert(line, finding) {
            Ok(_) => Ok(()),
            Err(_) => Err(NoMemory),
        }
    }

    /// The findings, and their lines.
    pub fn into_parts(self, alloc: Global) -> Result<Parted, NoMemory>
        ensures lines { IfOk result (λ p. p.lines ≡ map line self) }
        ensures findings { IfOk result (λ p. p.findings ≡ self) }
        ensures ordered { IfOk result (λ p. IsStrictlySortedBy (slice_cmp nat_cmp) p.lines) }
    {
        part(alloc, self.by_line)
    }
}
