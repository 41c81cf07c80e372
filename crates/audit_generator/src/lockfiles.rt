//! The lockfile of generated packages.
ghost use Rattle.std.specs.Prelude.{◌≡◌, ◌++◌, codes, IfOk};
ghost use Rattle.std.specs.String.{string_bytes};
ghost use Rattle.audit_generator.specs.Packages as spec;

use std::alloc::Global;
use tame_names::{NoMemory, Text};

/// The source of each package: the default registry.
const SOURCE: &str = "registry+https://github.com/rust-lang/crates.io-index";

/// The name of package k.
pub fn name_at(alloc: Global, k: u64) -> Result<Text, NoMemory>
    ensures { IfOk result (λ t. t ≡ spec.name_at k) }
{
    Ok(Text::from_string(format!(in alloc; "g{k}")?))
}

/// The version with this middle number.
pub fn version_text(alloc: Global, minor: u64) -> Result<Text, NoMemory>
    ensures { IfOk result (λ t. t ≡ spec.version_text minor) }
{
    Ok(Text::from_string(format!(in alloc; "1.{minor}.0")?))
}

/// A line of a table: a key and a string.
pub fn text_line(alloc: Global, key: &str, value: &str) -> Result<Text, NoMemory>
    ensures { IfOk result (λ t. t ≡ spec.text_line key.now value.now) }
{
    Ok(Text::from_string(format!(in alloc; "{key} = \"{value}\"\n")?))
}

/// The line of a package's dependencies, if it has one.
fn dependencies_text(alloc: Global, k: u64) -> Result<Text, NoMemory>
    ensures { IfOk result (λ t. t ≡ spec.dependencies_text (spec.places_at k)) }
{
    if k == 0 {
        return Ok(Text::of(alloc, "")?);
    }
    let name = name_at(alloc, (k - 1) / 2)?;
    Ok(Text::from_string(format!(in alloc; "dependencies = [\"{name}\"]\n")?))
}

/// The header of a package's table, with its name and its version.
fn named_text(alloc: Global, k: u64) -> Result<String, NoMemory>
    ensures { IfOk result (λ t. string_bytes t ≡ codes "\n[[package]]\n"
        ++ spec.text_line (codes "name") (spec.name_at k)
        ++ spec.text_line (codes "version") (spec.version_at k)) }
{
    let name = name_at(alloc, k)?;
    let version = version_text(alloc, k % 7)?;
    let name_line = text_line(alloc, "name", name.as_str())?;
    let version_line = text_line(alloc, "version", version.as_str())?;
    let mut text = String::from_str(alloc, "\n[[package]]\n")?;
    text.push_str(name_line.as_str())?;
    text.push_str(version_line.as_str())?;
    Ok(text)
}

fn package_text(alloc: Global, k: u64) -> Result<Text, NoMemory>
    ensures { IfOk result (λ t. t ≡ spec.package_text k) }
{
    let source = text_line(alloc, "source", SOURCE)?;
    let dependencies = dependencies_text(alloc, k)?;
    let mut text = named_text(alloc, k)?;
    text.push_str(source.as_str())?;
    text.push_str(dependencies.as_str())?;
    Ok(Text::from_string(text))
}

/// The lockfile of n packages.
pub fn lockfile_text(alloc: Global, n: u64) -> Result<Text, NoMemory>
    ensures { IfOk result (λ t. t ≡ spec.lockfile_text n) }
{
    let mut text = String::from_str(alloc, "version = 4\n")?;
    for k in 0..n {
        let piece = package_text(alloc, k)?;
        text.push_str(piece.as_str())?;
    }
    Ok(Text::from_string(text))
}
