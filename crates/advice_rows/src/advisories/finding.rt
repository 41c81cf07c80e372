//! What advisories hit, and what reports of small databases find.
use crate::advisories::reading::headed;
use crate::stage::{Laid, Stage, settings_of, without_newline};
use advice_fixtures::{read_advisory, read_lockfile};
use audit_advisory::{
    Advisory, Database, DenyOption, Report, Settings, Vulnerability, Warning, fails, hits,
    read_version,
};
use audit_lock::Package;
use row_fixtures::{Row, RowFault};
use semver::Version;
use std::alloc::{AllocError, Global};
use tame_names::{Items, NoMemory};

fn is_hit(
    alloc: Global,
    settings: &Settings,
    advisory: &Advisory,
    package: &Package,
) -> Result<bool, NoMemory> {
    let version = read_version(alloc, package.version.as_str())?;
    Ok(hits(settings, advisory, package, &version))
}

/// Each package, and whether the advisory hits it.
fn hit_lines(
    alloc: Global,
    settings: &Settings,
    advisory: &Advisory,
    packages: &[Package],
) -> Result<String, RowFault> {
    let mut out = String::new(alloc);
    for package in packages {
        let is_hit = is_hit(alloc, settings, advisory, package)?;
        write!(out, "{} {}: {is_hit}\n", package.name, package.version)?;
    }
    Ok(without_newline(out))
}

/// The same of the packages of the lockfile in a string.
fn hits_in(
    alloc: Global,
    settings: &Settings,
    advisory: &Advisory,
    lock: &str,
) -> Result<String, RowFault> {
    match read_lockfile(alloc, lock) {
        Ok(lockfile) => hit_lines(alloc, settings, advisory, lockfile.packages()),
        Err(fault) => Err(fault),
    }
}

/// The same of the first advisory of a stage and of its lockfile.
fn hits_under(alloc: Global, settings: &Settings, stage: &Stage) -> Result<String, RowFault> {
    let text = stage.texts.first()?;
    match read_advisory(alloc, text) {
        Ok(advisory) => hits_in(alloc, settings, &advisory, stage.texts.lock()),
        Err(fault) => Err(fault),
    }
}

/// `hits IGNORE SEVERITY ARCH OS KINDS`
pub fn hits_of(alloc: Global, stage: &mut Stage, row: Row<'_>) -> Result<String, RowFault> {
    stage.texts.end(alloc)?;
    match settings_of(alloc, row) {
        Ok(settings) => hits_under(alloc, &settings, stage),
        Err(fault) => Err(fault),
    }
}

/// `add HEAD`
pub fn add(alloc: Global, stage: &mut Stage, row: Row<'_>) -> Result<String, RowFault> {
    let text = headed(alloc, row.rest())?;
    stage.texts.add_advisory(text)?;
    Ok(String::new(alloc))
}

fn id_at(advisories: &[Advisory], place: Option<usize>) -> &str {
    let Some(place) = place else {
        return "-";
    };
    match advisories.get(place) {
        Some(advisory) => advisory.metadata.id.as_str(),
        None => "no advisory",
    }
}

/// Adds the line of a package and an advisory.
fn push_pair(
    out: &mut String,
    packages: &[Package],
    package: usize,
    id: &str,
) -> Result<(), AllocError> {
    match packages.get(package) {
        Some(package) => write!(out, "{} {}: {id}\n", package.name, package.version),
        None => write!(out, "no package: {id}\n"),
    }
}

fn push_vulnerabilities(
    out: &mut String,
    advisories: &[Advisory],
    packages: &[Package],
    found: &[Vulnerability],
) -> Result<(), AllocError> {
    for pair in found {
        let id = id_at(advisories, Some(pair.advisory));
        push_pair(out, packages, pair.package, id)?;
    }
    Ok(())
}

fn push_warnings(
    out: &mut String,
    advisories: &[Advisory],
    packages: &[Package],
    found: &[Warning],
) -> Result<(), AllocError> {
    for warning in found {
        let id = id_at(advisories, warning.advisory);
        write!(out, "{:?} ", warning.kind)?;
        push_pair(out, packages, warning.package, id)?;
    }
    Ok(())
}

const NOTHING: &[DenyOption] = &[];

/// Adds whether an audit fails, alone and with an advisory on the auditor itself, for nothing
/// denied and for each option.
fn push_exits(out: &mut String, report: &Report) -> Result<(), AllocError> {
    let alone = fails(report, NOTHING, &[]);
    let with_self = fails(report, NOTHING, &[0]);
    write!(out, "fails: - {alone} {with_self}")?;
    for option in [
        DenyOption::Warnings,
        DenyOption::Unmaintained,
        DenyOption::Unsound,
        DenyOption::Yanked,
    ] {
        let alone = fails(report, &[option], &[]);
        let with_self = fails(report, &[option], &[0]);
        write!(out, ", {option:?} {alone} {with_self}")?;
    }
    Ok(())
}

fn found_lines(alloc: Global, laid: &Laid) -> Result<String, AllocError> {
    let report = &laid.report;
    let (advisories, dependencies) = (report.advisory_count, report.dependency_count);
    let mut out = format!(in alloc; "{advisories} advisories, {dependencies} packages\n")?;
    let (advisories, packages) = (laid.database.advisories(), laid.lockfile.packages());
    push_vulnerabilities(
        &mut out,
        advisories,
        packages,
        report.vulnerabilities.as_slice(),
    )?;
    push_warnings(&mut out, advisories, packages, report.warnings.as_slice())?;
    push_exits(&mut out, report)?;
    Ok(out)
}

/// `found`
pub fn found(alloc: Global, stage: &mut Stage) -> Result<String, RowFault> {
    Ok(found_lines(alloc, stage.laid()?)?)
}

fn queried(
    alloc: Global,
    database: &Database,
    name: &str,
    version: &str,
) -> Result<Items<usize>, RowFault> {
    match Version::parse(alloc, version) {
        Ok(version) => Ok(database.query(alloc, name, &version)?),
        Err(_) => Err(RowFault::Unread),
    }
}

/// `query NAME VERSION`
pub fn query(alloc: Global, stage: &mut Stage, mut row: Row<'_>) -> Result<String, RowFault> {
    let line = row.rest();
    let name = row.word();
    let database = &stage.laid()?.database;
    let places = queried(alloc, database, name, row.rest())?;
    let mut out = format!(in alloc; "query {line}:")?;
    for place in places.as_slice() {
        write!(out, " {}", id_at(database.advisories(), Some(*place)))?;
    }
    Ok(out)
}
