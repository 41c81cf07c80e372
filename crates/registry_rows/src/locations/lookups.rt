//! Rows of cargo's home, registries, and indices at their locations.
use crate::locations::places::parts_line;
use crate::locations::scene::Scene;
use row_fixtures::{Row, RowFault, asked};
use semver::Version;
use std::alloc::Global;
use tame_location::{IndexLocation, IndexPath, IndexUrl, cargo_home};
use tame_names::Text;
use tame_sparse::{GitIndex, SparseIndex};

/// Words that may be left out, as they are borrowed.
fn part(word: &Option<String>) -> Option<&str> {
    match word {
        Some(word) => Some(word.as_str()),
        None => None,
    }
}

fn url_shown(alloc: Global, found: Result<IndexUrl<'_>, RowFault>) -> Result<String, RowFault> {
    let url = found?;
    let kind = match url {
        IndexUrl::CratesIoSparse => "CratesIoSparse",
        IndexUrl::CratesIoGit => "CratesIoGit",
        IndexUrl::NonCratesIo(_) => "NonCratesIo",
        IndexUrl::Local(_) => "Local",
    };
    Ok(format!(in alloc; "{kind} {} {}", url.as_str(), url.is_sparse())?)
}

/// `crates-io` and `registry`.
fn registry(
    alloc: Global,
    scene: &mut Scene,
    crates_io: bool,
    row: &mut Row<'_>,
) -> Result<String, RowFault> {
    let root = row.text_or_none(alloc)?;
    let home = row.text_or_none(alloc)?;
    let word = row.text_or_none(alloc)?;
    let (root, home) = (part(&root), part(&home));
    let host = &mut scene.host;
    if crates_io {
        let found = IndexUrl::crates_io(alloc, host, root, home, part(&word));
        url_shown(alloc, asked(alloc, found))
    } else {
        let name = part(&word).unwrap_or("-");
        let found = IndexUrl::for_registry_name(alloc, host, root, home, name);
        url_shown(alloc, asked(alloc, found))
    }
}

fn root(alloc: Global, row: &mut Row<'_>) -> Result<IndexPath, RowFault> {
    match row.word() {
        "home" => Ok(IndexPath::CargoHome),
        "exact" => Ok(IndexPath::Exact(Text::of(alloc, row.word())?)),
        "below" => Ok(IndexPath::UserSpecified(Text::of(alloc, row.word())?)),
        _ => Err(RowFault::Unread),
    }
}

fn version(alloc: Global, row: &mut Row<'_>) -> Result<Option<Version>, RowFault> {
    match row.text_or_none(alloc)? {
        Some(text) => match Version::parse(alloc, text.as_str()) {
            Ok(version) => Ok(Some(version)),
            Err(_) => Err(RowFault::Unread),
        },
        None => Ok(None),
    }
}

fn url_of<'a>(alloc: Global, word: &'a str) -> Result<IndexUrl<'a>, RowFault> {
    match word {
        "CratesIoSparse" => Ok(IndexUrl::CratesIoSparse),
        "CratesIoGit" => Ok(IndexUrl::CratesIoGit),
        word => match word.strip_prefix("local=") {
            Some(path) => Ok(IndexUrl::Local(Text::of(alloc, path)?)),
            None => Ok(IndexUrl::from(word)),
        },
    }
}

fn location_of<'a>(alloc: Global, row: &mut Row<'a>) -> Result<IndexLocation<'a>, RowFault> {
    let root = root(alloc, row)?;
    let url = url_of(alloc, row.word())?;
    match version(alloc, row) {
        Ok(cargo_version) => Ok(IndexLocation {
            url,
            root,
            cargo_version,
        }),
        Err(fault) => Err(fault),
    }
}

fn sparse_line(alloc: Global, found: Result<SparseIndex, RowFault>) -> Result<String, RowFault> {
    let index = found?;
    Ok(format!(in alloc; "{} {}", index.cache().path(), index.url())?)
}

fn git_line(alloc: Global, found: Result<GitIndex, RowFault>) -> Result<String, RowFault> {
    let index = found?;
    Ok(format!(in alloc; "{}", index.cache().path())?)
}

/// `parts`, `sparse` and `git`.
fn located(
    alloc: Global,
    scene: &mut Scene,
    what: &str,
    row: &mut Row<'_>,
) -> Result<String, RowFault> {
    let location = location_of(alloc, row)?;
    let Scene { host, ident, .. } = scene;
    match what {
        "parts" => parts_line(alloc, asked(alloc, location.into_parts(alloc, host, ident))),
        "sparse" => {
            let index = SparseIndex::new(alloc, host, ident, location);
            sparse_line(alloc, asked(alloc, index))
        }
        _ => {
            let index = GitIndex::new(alloc, host, ident, location);
            git_line(alloc, asked(alloc, index))
        }
    }
}

/// A row that asks the host where something is.
pub fn answer(alloc: Global, scene: &mut Scene, mut row: Row<'_>) -> Result<String, RowFault> {
    match row.word() {
        "home" => Ok(asked(alloc, cargo_home(alloc, &mut scene.host))?.into_string()),
        "crates-io" => registry(alloc, scene, true, &mut row),
        "registry" => registry(alloc, scene, false, &mut row),
        what => located(alloc, scene, what, &mut row),
    }
}
