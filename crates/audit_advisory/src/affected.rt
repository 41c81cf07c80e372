//! Which part of a package an advisory affects.
ghost use Rattle.std.specs.Prelude.{◌≡◌, ◌∷◌, ◌++◌, ◌<◌, [], length, MatchOption, IfOk, IfSome, option_map};
ghost use Rattle.toml.specs.View.{view, table_view};
ghost use Rattle.audit_advisory.specs.Advisories as spec;

use crate::requirements::Requirement;
use crate::versions::requirements_of;
use std::alloc::Global;
use tame_names::{Items, NoMemory, Text};
use toml::{Table, Value};
use toml_tables::{member, optional_table, optional_texts, texts_of};

/// A function's path, cut at `::`.
pub type FunctionPath = Items<Text>;

/// An affected function, and the versions in which it is affected.
#[derive(Debug, Drop, PartialEq, Eq)]
pub struct Function {
    /// The function's path.
    pub path: FunctionPath,
    /// The requirements that its affected versions meet.
    pub versions: Items<Requirement>,
}

/// Which part of a package is affected; an empty list of architectures or systems means all.
#[derive(Debug, Drop)]
pub struct Affected {
    /// The architectures.
    pub arch: Items<Text>,
    /// The systems.
    pub os: Items<Text>,
    /// The functions.
    pub functions: Items<Function>,
}

/// The first segment and what follows its `::`, if there is one.
fn cut_segment(path: &str) -> Option<(&str, &str)>
    ensures segments { MatchOption result (spec.segments path.now ≡ path.now ∷ [])
        (λ p. spec.segments path.now ≡ p.0.now ∷ spec.segments p.1.now) }
    ensures shorter { IfSome result (λ p. length p.1.now < length path.now) }
{
    path.split_once("::")
}

/// The segments of a path.
fn segments(alloc: Global, path: &str) -> Result<FunctionPath, NoMemory>
    ensures { IfOk result (λ ss. ss ≡ spec.segments path.now) }
{
    let mut cut = Items::new(alloc);
    let mut left = path;
    while let Some((segment, behind)) = cut_segment(left) {
        cut.add(Text::of(alloc, segment)?)?;
        left = behind;
    }
    cut.add(Text::of(alloc, left)?)?;
    Ok(cut)
}

/// The requirements of an array.
fn requirements_in(alloc: Global, value: &Value) -> Result<Option<Items<Requirement>>, NoMemory>
    ensures { IfOk result (λ rs. rs ≡ spec.requirements_in (view value.now)) }
{
    match texts_of(alloc, value)? {
        Some(texts) => requirements_of(alloc, texts.as_slice()),
        None => Ok(None),
    }
}

/// A path with its requirements.
fn function_of(alloc: Global, path: &str, value: &Value) -> Result<Option<Function>, NoMemory>
    ensures { IfOk result (λ f. f ≡ spec.function_of path.now (view value.now)) }
{
    let Some(versions) = requirements_in(alloc, value)? else {
        return Ok(None);
    };
    Ok(Some(Function {
        path: segments(alloc, path)?,
        versions,
    }))
}

/// Each path with its requirements.
fn functions_of(alloc: Global, table: &Table) -> Result<Option<Items<Function>>, NoMemory>
    ensures { IfOk result (λ fs. fs ≡ spec.functions_of (table_view table.now)) }
{
    let mut functions = Items::new(alloc);
    for (path, value) in table.iter() {
        let Some(function) = function_of(alloc, path.as_str(), value)? else {
            return Ok(None);
        };
        functions.add(function)?;
    }
    Ok(Some(functions))
}

fn functions_or_absent(
    alloc: Global,
    member: Option<&Value>,
) -> Result<Option<Items<Function>>, NoMemory>
    ensures { IfOk result (λ fs. fs
        ≡ spec.functions_or_absent (option_map (λ v. view v.now) member.entry)) }
{
    match optional_table(member) {
        None => Ok(None),
        Some(None) => Ok(Some(Items::new(alloc))),
        Some(Some(table)) => functions_of(alloc, table),
    }
}

fn affected_of(alloc: Global, table: &Table) -> Result<Option<Affected>, NoMemory>
    ensures { IfOk result (λ a. a ≡ spec.affected_of (table_view table.now)) }
{
    let Some(arch) = optional_texts(alloc, member(table, "arch"))? else {
        return Ok(None);
    };
    let Some(os) = optional_texts(alloc, member(table, "os"))? else {
        return Ok(None);
    };
    let Some(functions) = functions_or_absent(alloc, member(table, "functions"))? else {
        return Ok(None);
    };
    Ok(Some(Affected {
        arch,
        os,
        functions,
    }))
}

/// What the table `[affected]` says; nothing if it is absent.
pub fn affected_or_absent(
    alloc: Global,
    member: Option<&Value>,
) -> Result<Option<Affected>, NoMemory>
    ensures { IfOk result (λ a. a
        ≡ spec.affected_or_absent (option_map (λ v. view v.now) member.entry)) }
{
    match optional_table(member) {
        None => Ok(None),
        Some(None) => Ok(Some(Affected {
            arch: Items::new(alloc),
            os: Items::new(alloc),
            functions: Items::new(alloc),
        })),
        Some(Some(table)) => affected_of(alloc, table),
    }
}
