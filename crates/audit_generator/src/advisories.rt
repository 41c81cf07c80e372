//! Advisories on generated packages.
ghost use Rattle.std.specs.Prelude.{◌≡◌, ◌++◌, codes, IfOk};
ghost use Rattle.std.specs.String.{string_bytes};
ghost use Rattle.audit_generator.specs.Advisories as spec;
ghost use Rattle.audit_generator.specs.Packages as packages_spec;

use crate::lockfiles::{name_at, text_line};
use std::alloc::Global;
use tame_names::{Items, NoMemory, Text};

fn zeros_before(k: u64) -> &'static str
    ensures { result.now ≡ spec.zeros_before k }
{
    if k < 10 {
        "000"
    } else if k < 100 {
        "00"
    } else if k < 1000 {
        "0"
    } else {
        ""
    }
}

/// The id of the advisory on package k, below 10,000.
fn id_at(alloc: Global, k: u64) -> Result<Text, NoMemory>
    ensures { IfOk result (λ t. t ≡ spec.id_at k) }
{
    let number = format!(in alloc; "{k}")?;
    let mut text = String::from_str(alloc, "RUSTSEC-2099-")?;
    text.push_str(zeros_before(k))?;
    text.push_str(number.as_str())?;
    Ok(Text::from_string(text))
}

/// The opening fence of the advisory on package k, and its first lines.
fn fields_text(alloc: Global, k: u64) -> Result<String, NoMemory>
    ensures { IfOk result (λ t. string_bytes t ≡ codes "```toml\n[advisory]\n"
        ++ packages_spec.text_line (codes "id") (spec.id_at k)
        ++ packages_spec.text_line (codes "package") (packages_spec.name_at k)) }
{
    let id = id_at(alloc, k)?;
    let name = name_at(alloc, k)?;
    let id_line = text_line(alloc, "id", id.as_str())?;
    let name_line = text_line(alloc, "package", name.as_str())?;
    let mut text = String::from_str(alloc, "```toml\n[advisory]\n")?;
    text.push_str(id_line.as_str())?;
    text.push_str(name_line.as_str())?;
    Ok(text)
}

/// The advisory on package k, below 10,000.
fn advisory_text(alloc: Global, k: u64) -> Result<Text, NoMemory>
    ensures { IfOk result (λ t. t ≡ spec.advisory_text k) }
{
    let mut text = fields_text(alloc, k)?;
    text.push_str(
        "date = \"2099-01-01\"\n\n[versions]\npatched = [\">=1.3.0\"]\n```\n\n# Generated\n",
    )?;
    Ok(Text::from_string(text))
}

/// The advisories on n packages.
#[tactic(auto, using(crate::proofs::Pieces::advised_more, crate::proofs::Pieces::advised_same))]
pub fn advisory_texts(alloc: Global, n: u64) -> Result<Items<Text>, NoMemory>
    ensures { IfOk result (λ ts. ts ≡ spec.advisory_texts n) }
{
    let mut texts = Items::new(alloc);
    for k in 0..n {
        if k % 10 == 0 {
            texts.add(advisory_text(alloc, k)?)?;
        }
    }
    Ok(texts)
}
