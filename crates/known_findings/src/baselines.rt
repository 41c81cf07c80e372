//! Baselines.
ghost use Rattle.std.specs.Prelude.{◌≡◌, ◌≢◌, ◌≤◌, ◌++◌, ℕ, List, map, not, fold, IfOk, IfErr, OnOk, Ok, Err, string_bytes};
ghost use Rattle.std.specs.Cmp.Lexicographic.{slice_cmp};
ghost use Rattle.std.specs.List.Sorted.{IsStrictlySortedBy};
ghost use Rattle.std.specs.Ordering.{nat_cmp};
ghost use Rattle.tame_names.specs.Counts.{CountRose};
ghost use Rattle.tame_names.specs.Output.{AddsPrefix};
ghost use Rattle.known_findings.specs.Baselines.{baseline_of, is_broken, line_findings, listed, put_all, written};
ghost use Rattle.known_findings.specs.Baselines as spec;
ghost use Rattle.known_findings.specs.Findings.{is_among, line};
ghost use Rattle.known_findings.specs.Laws.{AreInOrder};
ghost use Rattle.known_findings.specs.declared.findings.Finding.{Finding};

use crate::cuts::lines;
use crate::findings::Finding;
use crate::listings::Listing;
use crate::reading::read_finding;
use crate::searching::has_line;
use std::alloc::Global;
use std::marker::Model;
use tame_names::{Items, NoMemory, Sink, Text, put_counted};

/// Why a text is no baseline.
#[derive(Clone, Copy, Debug, PartialEq, Eq)]
pub enum BaselineFault {
    /// The line of this number, from 0, is neither blank nor a finding; those before it are.
    Line { n: u64 },
    /// Out of memory.
    NoMemory,
}

impl From<NoMemory> for BaselineFault {
    ghost use Rattle.known_findings.specs.declared.baselines.BaselineFault.TheVariants.{NoMemory as no_memory};

    ghost from_gives = { λ _ e. e ≡ no_memory };

    fn from(_: NoMemory) -> BaselineFault {
        BaselineFault::NoMemory
    }
}

/// Why a baseline wasn't written.
#[derive(Clone, Copy, Debug, PartialEq, Eq)]
pub enum BaselineWriteFault {
    /// A put failed.
    Io,
    /// Out of memory.
    NoMemory,
}

impl From<NoMemory> for BaselineWriteFault {
    ghost use Rattle.known_findings.specs.declared.baselines.BaselineWriteFault.TheVariants.{NoMemory as no_memory};

    ghost from_gives = { λ _ e. e ≡ no_memory };

    fn from(_: NoMemory) -> BaselineWriteFault {
        BaselineWriteFault::NoMemory
    }
}

/// Known findings. Contracts see the list of them, each once, in the byte order of their lines.
#[derive(Debug, Drop)]
pub struct Baseline {
    findings: Items<Finding>,
    lines: Items<Text>,
}

impl Model for Baseline {
    ghost Value = { List Finding };

    ghost view = { λ b. b.findings };

    ghost invariant = { λ b. (b.lines ≡ map line b.findings)
        × IsStrictlySortedBy (slice_cmp nat_cmp) b.lines };
}

impl PartialEq for Baseline {
    ghost use Rattle.std.specs.Prelude.{map};
    ghost use Rattle.std.specs.Cmp.{on_equiv, partial_equiv_from_equiv};
    ghost use Rattle.std.specs.Cmp.Lexicographic.{lists_equiv, on_texts_equal};
    ghost use Rattle.known_findings.specs.Baselines.{is_equal};
    ghost use Rattle.known_findings.specs.Findings.{line};

    ghost eq = { is_equal };

    ghost laws = { partial_equiv_from_equiv
        (on_equiv (map line) (lists_equiv (on_texts_equal (λ t. t)))) };

    fn eq(&self, other: &Baseline) -> bool {
        self.lines == other.lines
    }
}

impl Eq for Baseline {
    ghost use Rattle.std.specs.Prelude.{map};
    ghost use Rattle.std.specs.Cmp.{on_equiv};
    ghost use Rattle.std.specs.Cmp.Lexicographic.{lists_equiv, on_texts_equal};
    ghost use Rattle.known_findings.specs.Findings.{line};

    ghost laws = { on_equiv (map line) (lists_equiv (on_texts_equal (λ t. t))) };
}

/// Whether a line is only white space (Unicode, White_Space).
fn is_blank(line: &str) -> bool
    ensures { result ≡ spec.is_blank line.now }
{
    line.chars().all(|c| c.is_whitespace())
}

/// Puts the finding of a line that has one, and answers whether the line is not broken.
fn take_line(alloc: Global, listing: &mut Listing, line: &str) -> Result<bool, NoMemory>
    ensures fits { IfOk result (λ fits. fits ≡ not (is_broken line.now)) }
    ensures taken { OnOk result (listing.new ≡ put_all listing.old (line_findings line.now)) }
{
    if is_blank(line) {
        return Ok(true);
    }
    match read_finding(alloc, line)? {
        None => Ok(false),
        Some(finding) => {
            listing.put(alloc, finding)?;
            Ok(true)
        }
    }
}

/// Lines, each ended by a newline.
fn joined(alloc: Global, lines: &[Text]) -> Result<String, NoMemory>
    ensures { IfOk result (λ text. string_bytes text ≡ spec.joined lines.now) }
{
    let mut text = String::new(alloc);
    for line in lines {
        text.push_str(line.as_str())?;
        text.push_str("\n")?;
    }
    Ok(text)
}

/// The lines of findings in their order, repeats kept, each ended by a newline.
#[tactic(auto, unfolding(crate::specs::Baselines::written))]
pub fn finding_lines(alloc: Global, findings: &[Finding]) -> Result<String, NoMemory>
    ensures { IfOk result (λ text. string_bytes text ≡ written findings.now) }
{
    let mut text = String::new(alloc);
    for finding in findings {
        let line = finding.line(alloc)?;
        text.push_str(line.as_str())?;
        text.push_str("\n")?;
    }
    Ok(text)
}

fn put_text<S: Sink>(sink: &mut S, text: &[u8]) -> Result<(), BaselineWriteFault>
    ensures put { S.tells → OnOk result (S.holds sink.new ≡ S.holds sink.old ++ text.now) }
    ensures part { S.tells → AddsPrefix (S.holds sink.old) text.now (S.holds sink.new) }
    ensures later { S.faults sink.old ≤ S.faults sink.new }
    ensures failed { IfErr result (λ e. (e ≡ BaselineWriteFault.Io)
        × CountRose (S.faults sink.old) (S.faults sink.new)) }
{
    match put_counted(sink, text) {
        Ok(_) => Ok(()),
        Err(_) => Err(BaselineWriteFault::Io),
    }
}

impl Baseline {
    fn of_listing(alloc: Global, listing: Listing) -> Result<Baseline, NoMemory>
        ensures { IfOk result (λ b. b ≡ listing) }
    {
        let parted = listing.into_parts(alloc)?;
        Ok(Baseline {
            findings: parted.findings,
            lines: parted.lines,
        })
    }

    /// The baseline of these findings: each once, in the byte order of their lines.
    pub fn of_findings(alloc: Global, findings: Items<Finding>) -> Result<Baseline, NoMemory>
        ensures { IfOk result (λ b. b ≡ listed findings) }
    {
        let mut listing = Listing::new(alloc);
        for finding in findings.into_vec() {
            listing.put(alloc, finding)?;
        }
        Baseline::of_listing(alloc, listing)
    }

    /// Whether a finding is in the baseline: the same in all five members.
    pub fn has(&self, alloc: Global, finding: &Finding) -> Result<bool, NoMemory>
        ensures { IfOk result (λ has. has ≡ is_among finding.now self.now) }
    {
        let line = finding.line(alloc)?;
        Ok(has_line(self.lines.as_slice(), &line))
    }

    /// The lines of the findings, each ended by a newline.
    #[tactic(auto, unfolding(crate::specs::Baselines::written))]
    fn text(&self, alloc: Global) -> Result<String, NoMemory>
        ensures text { IfOk result (λ text. string_bytes text ≡ written self.now) }
        ensures reads_back { baseline_of (written self.now) ≡ Ok self.now }
    {
        joined(alloc, self.lines.as_slice())
    }

    /// The baseline of a text: the findings of its lines, each once. Lines of white space alone are
    /// skipped; `Line` is the first other line that is no finding.
    pub fn read(alloc: Global, text: &str) -> Result<Baseline, BaselineFault>
        ensures ok { IfOk result (λ b. baseline_of text.now ≡ Ok b) }
        ensures refused { IfErr result (λ e. e ≢ BaselineFault.NoMemory
            → baseline_of text.now ≡ Err e) }
    {
        let mut listing = Listing::new(alloc);
        let mut n = 0;
        for line in lines(text) {
            if !take_line(alloc, &mut listing, line)? {
                return Err(BaselineFault::Line { n });
            }
            n += 1;
        }
        Ok(Baseline::of_listing(alloc, listing)?)
    }

    /// Puts the lines of the findings in their byte order, each ended by a newline. `Io` if the
    /// sink failed, which then holds a part of them from the front.
    pub fn write<S: Sink>(&self, alloc: Global, sink: &mut S) -> Result<(), BaselineWriteFault>
        ensures put { S.tells → OnOk result (S.holds sink.new
            ≡ S.holds sink.old ++ written self.now) }
        ensures part { S.tells → AddsPrefix (S.holds sink.old) (written self.now)
            (S.holds sink.new) }
        ensures later { S.faults sink.old ≤ S.faults sink.new }
        ensures failed { result ≡ Err BaselineWriteFault.Io
            → CountRose (S.faults sink.old) (S.faults sink.new) }
        ensures same { result ≡ Err BaselineWriteFault.NoMemory → sink.new ≡ sink.old }
        // what is put is read as this baseline
        ensures reads_back { baseline_of (written self.now) ≡ Ok self.now }
    {
        let text = self.text(alloc)?;
        put_text(sink, text.as_bytes())
    }

    /// The findings, each once, in the byte order of their lines.
    pub fn findings(&self) -> &[Finding]
        ensures findings { result.now ≡ self.now }
        ensures ordered { AreInOrder self.now }
    {
        self.findings.as_slice()
    }
}
