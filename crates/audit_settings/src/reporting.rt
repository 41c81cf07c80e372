//! What the settings ask of advisories.
ghost use Rattle.std.specs.Prelude.{◌≡◌, ◌++◌, IfOk, OnOk};
ghost use Rattle.audit_settings.specs.Reported.{warned_of, with_kind};
ghost use Rattle.audit_settings.specs.Reported as spec;

use crate::configs::{AuditConfig, FilterList, TargetConfig};
use audit_advisory::{DenyOption, Informational, Settings, kinds_copied, texts_copied};
use std::alloc::Global;
use tame_names::{Items, NoMemory, Text};

/// Adds copies of strings at the end.
pub fn add_texts(alloc: Global, list: &mut Items<Text>, texts: &[Text]) -> Result<(), NoMemory>
    ensures { OnOk result (list.new ≡ list.old ++ texts.now) }
{
    for text in texts {
        list.add(text.try_clone(alloc)?)?;
    }
    Ok(())
}

fn filter_texts(alloc: Global, filter: &Option<FilterList>) -> Result<Items<Text>, NoMemory>
    ensures { IfOk result (λ texts. texts ≡ spec.filter_texts filter.now) }
{
    let mut texts = Items::new(alloc);
    match filter {
        None => {}
        Some(FilterList::Single(text)) => texts.add(text.try_clone(alloc)?)?,
        Some(FilterList::Many(many)) => return texts_copied(alloc, many.as_slice()),
    }
    Ok(texts)
}

impl TargetConfig {
    /// The architectures that count; all, if the list is empty.
    pub fn arch(&self, alloc: Global) -> Result<Items<Text>, NoMemory>
        ensures { IfOk result (λ texts. texts ≡ spec.filter_texts self.now.arch) }
    {
        filter_texts(alloc, &self.arch)
    }

    /// The systems that count; all, if the list is empty.
    pub fn os(&self, alloc: Global) -> Result<Items<Text>, NoMemory>
        ensures { IfOk result (λ texts. texts ≡ spec.filter_texts self.now.os) }
    {
        filter_texts(alloc, &self.os)
    }
}

fn is_same_kind(kind: &Informational, other: &Informational) -> bool
    ensures { result ≡ spec.is_same_kind kind.now other.now }
{
    match (kind, other) {
        (Informational::Notice, Informational::Notice) => true,
        (Informational::Unmaintained, Informational::Unmaintained) => true,
        (Informational::Unsound, Informational::Unsound) => true,
        (Informational::Other(text), Informational::Other(more)) => text == more,
        _ => false,
    }
}

fn has_kind(kinds: &[Informational], kind: &Informational) -> bool
    ensures { result ≡ spec.has_kind kind.now kinds.now }
{
    for listed in kinds {
        if is_same_kind(listed, kind) {
            return true;
        }
    }
    false
}

/// Adds a kind at the end, if it is missing.
fn add_kind(kinds: &mut Items<Informational>, kind: Informational) -> Result<(), NoMemory>
    ensures { OnOk result (kinds.new ≡ with_kind kind kinds.old) }
{
    if has_kind(kinds.as_slice(), &kind) {
        return Ok(());
    }
    kinds.add(kind)
}

fn stated_kinds(
    alloc: Global,
    stated: &Option<Items<Informational>>,
) -> Result<Items<Informational>, NoMemory>
    ensures { IfOk result (λ kinds. kinds ≡ spec.stated_kinds stated.now) }
{
    match stated {
        Some(kinds) => kinds_copied(alloc, kinds.as_slice()),
        None => {
            let mut kinds = Items::new(alloc);
            kinds.add(Informational::Unmaintained)?;
            kinds.add(Informational::Unsound)?;
            kinds.add(Informational::Notice)?;
            Ok(kinds)
        }
    }
}

/// Adds the kinds that are denied, if they are missing.
fn add_denied(kinds: &mut Items<Informational>, options: &[DenyOption]) -> Result<(), NoMemory>
    ensures { OnOk result (kinds.new ≡ warned_of options.now kinds.old) }
{
    for option in options {
        match option {
            DenyOption::Warnings => {
                add_kind(kinds, Informational::Notice)?;
                add_kind(kinds, Informational::Unmaintained)?;
                return add_kind(kinds, Informational::Unsound);
            }
            DenyOption::Unmaintained => add_kind(kinds, Informational::Unmaintained)?,
            DenyOption::Unsound => add_kind(kinds, Informational::Unsound)?,
            DenyOption::Yanked => {}
        }
    }
    Ok(())
}

impl AuditConfig {
    /// What the settings ask of advisories. Warned about are the kinds that are stated, else all
    /// kinds, and also those that are denied.
    pub fn report_settings(&self, alloc: Global) -> Result<Settings, NoMemory>
        ensures { IfOk result (λ settings. settings ≡ spec.report_settings self.now) }
    {
        let mut kinds = stated_kinds(alloc, &self.advisories.informational_warnings)?;
        add_denied(&mut kinds, self.output.deny.as_slice())?;
        Ok(Settings {
            ignore: texts_copied(alloc, self.advisories.ignore.as_slice())?,
            severity: self.advisories.severity_threshold,
            target_arch: self.target.arch(alloc)?,
            target_os: self.target.os(alloc)?,
            informational_warnings: kinds,
        })
    }
}
