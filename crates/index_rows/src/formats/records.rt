//! Index lines as records, and lines that are none.
use row_fixtures::{DIGEST, Row, RowFault, asked};
use std::alloc::{AllocError, Global};
use tame_names::Text;
use tame_records::{IndexDependency, IndexVersion};

/// The flag of a line's record, or why it is none.
fn flag_of(alloc: Global, line: &[u8]) -> Result<String, AllocError> {
    match IndexVersion::read_line(alloc, line) {
        Ok(version) => format!(in alloc; "{}", version.yanked),
        Err(fault) => format!(in alloc; "{fault:?}"),
    }
}

/// `record LINE`: the flag of a line.
pub fn record(alloc: Global, mut words: Row<'_>) -> Result<String, RowFault> {
    let line = words.bytes(alloc)?;
    Ok(flag_of(alloc, line.as_slice())?)
}

/// `members MORE`: the same of a line whose `features` is followed by this text.
pub fn members(alloc: Global, words: Row<'_>) -> Result<String, RowFault> {
    let mut words = words;
    let more = words.text(alloc)?;
    let line = format!(in alloc;
        "{{\"name\":\"a\",\"vers\":\"0.1.0\",\"deps\":[],\
        \"cksum\":\"{DIGEST}\",\"features\":{{}}{more}}}"
    )?;
    Ok(flag_of(alloc, line.as_bytes())?)
}

/// Adds a member of a JSON object: the value that is given for its key, or else its own; a value
/// of no bytes leaves the member out.
fn push_member(
    out: &mut String,
    changed: (&str, &str),
    member: (&str, &str),
) -> Result<(), AllocError> {
    let (key, own) = member;
    let (other, given) = changed;
    let value = if key == other { given } else { own };
    if value.is_empty() {
        return Ok(());
    }
    let comma = if out.len() > 1 { "," } else { "" };
    write!(out, "{comma}\"{key}\":{value}")
}

/// A JSON object of these members, of which one has another value.
fn object(
    alloc: Global,
    changed: (&str, &str),
    members: &[(&str, &str)],
) -> Result<String, AllocError> {
    let mut out = String::from_str(alloc, "{")?;
    for member in members {
        push_member(&mut out, changed, *member)?;
    }
    out.push_str("}")?;
    Ok(out)
}

/// The line of version 0.1.0 of the crate `a`, of which one member has another value.
fn line_with(alloc: Global, changed: (&str, &str), deps: &str) -> Result<String, AllocError> {
    let digest = format!(in alloc; "\"{DIGEST}\"")?;
    let mut out = String::from_str(alloc, "{")?;
    push_member(&mut out, changed, ("name", "\"a\""))?;
    push_member(&mut out, changed, ("vers", "\"0.1.0\""))?;
    push_member(&mut out, changed, ("deps", deps))?;
    push_member(&mut out, changed, ("cksum", digest.as_str()))?;
    push_member(&mut out, changed, ("features", "{}"))?;
    push_member(&mut out, changed, ("yanked", "false"))?;
    out.push_str("}")?;
    Ok(out)
}

/// `with KEY VALUE`: the flag of a line of which one member has another value, or is left out
/// where the value is `''`.
pub fn with(alloc: Global, mut words: Row<'_>) -> Result<String, RowFault> {
    let changed = (words.word(), words.word());
    let line = line_with(alloc, changed, "[]")?;
    Ok(flag_of(alloc, line.as_bytes())?)
}

/// `dependency KEY VALUE`: the same of a line with one dependency, of which one member has another
/// value.
pub fn dependency(alloc: Global, mut words: Row<'_>) -> Result<String, RowFault> {
    let changed = (words.word(), words.word());
    let members = [
        ("name", "\"b\""),
        ("req", "\"^1\""),
        ("features", "[]"),
        ("optional", "false"),
        ("default_features", "true"),
        ("target", "null"),
        ("kind", "null"),
        ("package", "null"),
    ];
    let dependency = object(alloc, changed, members.as_slice())?;
    let deps = format!(in alloc; "[{dependency}]")?;
    let line = line_with(alloc, ("yanked", ""), deps.as_str())?;
    Ok(flag_of(alloc, line.as_bytes())?)
}

/// `nested DEPTH`: the same of a line with a member of so many arrays in one another.
pub fn nested(alloc: Global, mut words: Row<'_>) -> Result<String, RowFault> {
    let depth = words.number()?;
    let mut line = line_with(alloc, ("yanked", ""), "[]")?;
    let _brace = line.pop();
    line.push_str(",\"other\":")?;
    for _ in 0..depth {
        line.push_str("[")?;
    }
    for _ in 0..depth {
        line.push_str("]")?;
    }
    line.push_str("}")?;
    Ok(flag_of(alloc, line.as_bytes())?)
}

/// A dependency's package, crate name, target, flags, and whether its requirement is one.
fn push_dependency(
    alloc: Global,
    out: &mut String,
    dependency: &IndexDependency,
) -> Result<(), RowFault> {
    let package = dependency.package().unwrap_or("-");
    let name = dependency.crate_name();
    let target = dependency.target().unwrap_or("-");
    let _requirement = asked(alloc, dependency.version_requirement(alloc))?;
    write!(out, "; {package} {name} {target}")?;
    let (optional, default) = (dependency.is_optional(), dependency.has_default_features());
    Ok(write!(out, " {optional} {default} true")?)
}

/// A record's name, how many dependencies it has, its lowest version of Rust, and each dependency.
fn version_line(alloc: Global, version: &IndexVersion) -> Result<String, RowFault> {
    let rust = version.rust_version.as_ref().map_or("-", Text::as_str);
    let count = version.dependencies().len();
    let mut out = format!(in alloc; "{} {count} {rust}", version.name)?;
    for dependency in version.dependencies() {
        push_dependency(alloc, &mut out, dependency)?;
    }
    Ok(out)
}

/// The same, with the version and the flag behind it.
fn whole_line(alloc: Global, version: IndexVersion) -> Result<String, RowFault> {
    let mut out = version_line(alloc, &version)?;
    let head = version.into_version_flag();
    write!(out, "; {} {}", head.version, head.yanked)?;
    Ok(out)
}

/// `version LINE`: a record's name, version and flag, how many dependencies it has, its lowest
/// version of Rust, and each dependency.
pub fn version(alloc: Global, mut words: Row<'_>) -> Result<String, RowFault> {
    let line = words.bytes(alloc)?;
    match IndexVersion::read_line(alloc, line.as_slice()) {
        Ok(version) => whole_line(alloc, version),
        Err(_) => Ok(String::from_str(alloc, "no record")?),
    }
}

/// How many dependencies a record has, its flag, and what else it has.
fn fake_line(alloc: Global, fake: &IndexVersion) -> Result<String, RowFault> {
    let (count, yanked) = (fake.dependencies().len(), fake.is_yanked());
    let links = fake.links().unwrap_or("-");
    let rust = fake.rust_version().unwrap_or("-");
    let is_zero = *fake.checksum() == [0; 32];
    Ok(format!(in alloc; "{count} {yanked} {links} {rust} {is_zero}")?)
}

/// `fake NAME VERSION`: what a record that is made of a name and a version alone has.
pub fn fake(alloc: Global, mut words: Row<'_>) -> Result<String, RowFault> {
    let name = words.word();
    match IndexVersion::fake(alloc, name, words.word()) {
        Ok(fake) => fake_line(alloc, &fake),
        Err(_) => Err(RowFault::NoMemory),
    }
}
