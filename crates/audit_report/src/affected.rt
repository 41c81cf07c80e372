//! The functions of a package that an advisory names and a binary has.
ghost use Rattle.std.specs.Prelude.{◌≡◌, ◌∷◌, ◌++◌, [], codes, IfOk, MatchOption, OnOk, option_map, string_bytes};
ghost use Rattle.std.specs.List.{flat_map, join_by};
ghost use Rattle.semver.specs.Identifiers.{parts_of};
ghost use Rattle.audit_report.specs.Affected.{affected_line, affected_paths, path_text, paths_line};
ghost use Rattle.audit_report.specs.Affected as spec;

use crate::symbols::SymbolSet;
use audit_advisory::{Advisory, Function, FunctionPath, Requirement, meets_any, read_version};
use audit_lock::Package;
use report_parts::push_attribute;
use semver::Version;
use std::alloc::{AllocError, Global};
use tame_names::{NoMemory, Text};

/// Whether there is a version, and it meets one of these requirements.
fn is_held(requirements: &[Requirement], version: &Option<Version>) -> bool
    ensures { result ≡ spec.is_held requirements.now (option_map parts_of version.now) }
{
    match version {
        None => false,
        Some(version) => meets_any(requirements, version),
    }
}

/// Whether symbols keep a function's path, and it is affected in a version.
fn is_affected(symbols: &SymbolSet, version: &Option<Version>, function: &Function) -> bool
    ensures { result ≡ spec.is_affected symbols.now (option_map parts_of version.now) function.now }
{
    symbols.keeps(&function.path) && is_held(function.versions.as_slice(), version)
}

/// The first affected function, and what is left after it.
fn first_affected<'a>(
    symbols: &SymbolSet,
    version: &Option<Version>,
    functions: &'a [Function],
) -> Option<(&'a Function, &'a [Function])>
    ensures { MatchOption result
        (affected_paths symbols.now (option_map parts_of version.now) functions.now ≡ [])
        (λ f. affected_paths symbols.now (option_map parts_of version.now) functions.now
        ≡ f.0.now.path
        ∷ affected_paths symbols.now (option_map parts_of version.now) f.1.now) }
{
    let mut left = functions;
    while let Some((function, behind)) = left.split_first() {
        if is_affected(symbols, version, function) {
            return Some((function, behind));
        }
        left = behind;
    }
    None
}

/// Appends the segments of a path that follow the first.
fn push_segments(out: &mut String, segments: &[Text]) -> Result<(), AllocError>
    ensures { OnOk result (string_bytes out.new
        ≡ string_bytes out.old ++ flat_map (λ s. codes "::" ++ s) segments.now) }
{
    for segment in segments {
        out.push_str("::")?;
        out.push_str(segment.as_str())?;
    }
    Ok(())
}

/// Appends a path.
#[tactic(auto, unfolding(crate::specs::Affected::path_text))]
fn push_path(out: &mut String, path: &FunctionPath) -> Result<(), AllocError>
    ensures { OnOk result (string_bytes out.new ≡ string_bytes out.old ++ path_text path.now) }
{
    match path.as_slice().split_first() {
        None => Ok(()),
        Some((first, segments)) => {
            out.push_str(first.as_str())?;
            push_segments(out, segments)
        }
    }
}

/// Appends the paths of the affected functions that follow the first.
fn push_paths(
    out: &mut String,
    symbols: &SymbolSet,
    version: &Option<Version>,
    functions: &[Function],
) -> Result<(), AllocError>
    ensures { OnOk result (string_bytes out.new ≡ string_bytes out.old
        ++ flat_map (λ p. codes ", " ++ path_text p)
        (affected_paths symbols.now (option_map parts_of version.now) functions.now)) }
{
    for function in functions {
        if is_affected(symbols, version, function) {
            out.push_str(", ")?;
            push_path(out, &function.path)?;
        }
    }
    Ok(())
}

/// The paths of a function and of the affected ones after it.
fn joined(
    alloc: Global,
    symbols: &SymbolSet,
    version: &Option<Version>,
    first: &Function,
    behind: &[Function],
) -> Result<String, AllocError>
    ensures { IfOk result (λ text. string_bytes text ≡ join_by path_text (codes ", ")
        (first.now.path
        ∷ affected_paths symbols.now (option_map parts_of version.now) behind.now)) }
{
    let mut out = String::new(alloc);
    push_path(&mut out, &first.path)?;
    push_paths(&mut out, symbols, version, behind)?;
    Ok(out)
}

/// Appends the line of the functions that are affected in a version, if there are any.
fn push_line(
    alloc: Global,
    out: &mut String,
    symbols: &SymbolSet,
    version: &Option<Version>,
    functions: &[Function],
) -> Result<(), AllocError>
    ensures { OnOk result (string_bytes out.new ≡ string_bytes out.old ++ paths_line
        (affected_paths symbols.now (option_map parts_of version.now) functions.now)) }
{
    let Some((first, behind)) = first_affected(symbols, version, functions) else {
        return Ok(());
    };
    let content = joined(alloc, symbols, version, first, behind)?;
    push_attribute(out, "Affected:", content.as_str())
}

/// Appends the line of a package's affected functions, if symbols are set and there are any.
pub fn push_affected(
    alloc: Global,
    out: &mut String,
    symbols: &Option<SymbolSet>,
    locked: &Package,
    advisory: &Advisory,
) -> Result<(), NoMemory>
    ensures { OnOk result (string_bytes out.new
        ≡ string_bytes out.old ++ affected_line symbols.now locked.now advisory.now) }
{
    let Some(symbols) = symbols else {
        return Ok(());
    };
    let version = read_version(alloc, locked.version.as_str())?;
    let functions = advisory.functions.as_slice();
    push_line(alloc, out, symbols, &version, functions)?;
    Ok(())
}
