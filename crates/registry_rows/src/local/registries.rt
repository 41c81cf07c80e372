//! Registries that are built, opened and validated.
use crate::local::sources::{krate_of, shared};
use crate::local::steps::Stage;
use row_fixtures::{Row, RowFault, asked, refused};
use std::alloc::Global;
use tame_local::{LocalIndex, LocalRegistry, LocalRegistryBuilder, ValidKrate};
use tame_names::{MemFiles, Text};
use tame_records::{IndexKrate, IndexVersion};

/// Adds a version with the bytes of its file.
fn add_valid<'v>(
    alloc: Global,
    valid: &mut Vec<ValidKrate<'v>>,
    bytes: &str,
    version: &'v IndexVersion,
) -> Result<(), RowFault> {
    let bytes = shared(alloc, bytes.as_bytes())?;
    match ValidKrate::validate(alloc, bytes, version) {
        Ok(krate) => Ok(valid.push(krate)?),
        Err(error) => Err(refused(alloc, &error)),
    }
}

/// The first versions, as many as there are bytes of files with commas between them.
fn valid_of<'v>(
    alloc: Global,
    versions: &'v [IndexVersion],
    files: &str,
) -> Result<Vec<ValidKrate<'v>>, RowFault> {
    let mut valid = Vec::new(alloc);
    let mut files_left = files;
    for version in versions {
        if files_left != "-" {
            let (bytes, rest) = files_left.split_once(',').unwrap_or((files_left, "-"));
            add_valid(alloc, &mut valid, bytes, version)?;
            files_left = rest;
        }
    }
    Ok(valid)
}

/// Inserts a crate with the bytes of its files.
fn inserted(
    alloc: Global,
    files: &mut MemFiles,
    builder: &LocalRegistryBuilder,
    krate: &IndexKrate,
    bytes: &str,
) -> Result<String, RowFault> {
    let versions = krate.versions.as_slice();
    let valid = valid_of(alloc, versions, bytes)?;
    if versions.is_empty() {
        return Err(RowFault::Unread);
    }
    match asked(alloc, builder.insert(alloc, files, krate, valid.as_slice())) {
        Ok(count) => Ok(format!(in alloc; "{count} bytes written")?),
        Err(fault) => Err(fault),
    }
}

/// `insert VERSIONS BYTES`
fn insert(
    alloc: Global,
    files: &mut MemFiles,
    builder: &LocalRegistryBuilder,
    mut row: Row<'_>,
) -> Result<String, RowFault> {
    match krate_of(alloc, row.word()) {
        Ok(krate) => inserted(alloc, files, builder, &krate, row.word()),
        Err(fault) => Err(fault),
    }
}

fn index_line(alloc: Global, index: &LocalIndex) -> Result<String, RowFault> {
    Ok(format!(in alloc; "index {}", index.path())?)
}

/// The index of a registry that was opened.
fn opened(alloc: Global, registry: Result<LocalRegistry, RowFault>) -> Result<String, RowFault> {
    match registry {
        Ok(registry) => index_line(alloc, registry.index()),
        Err(fault) => Err(fault),
    }
}

/// `create PATH`
fn create(alloc: Global, stage: &mut Stage, path: &str) -> Result<String, RowFault> {
    let root = Text::of(alloc, path)?;
    let builder = asked(
        alloc,
        LocalRegistryBuilder::create(alloc, &mut stage.files, root),
    )?;
    stage.builder = Some(builder);
    Ok(format!(in alloc; "builder of {path}")?)
}

/// `finalize IS`
fn finalize(
    alloc: Global,
    files: &mut MemFiles,
    builder: LocalRegistryBuilder,
    validate: bool,
) -> Result<String, RowFault> {
    opened(
        alloc,
        asked(alloc, builder.finalize(alloc, files, validate)),
    )
}

/// `index PATH`
fn index(alloc: Global, files: &mut MemFiles, path: &str) -> Result<String, RowFault> {
    let root = Text::of(alloc, path)?;
    match asked(alloc, LocalIndex::open(alloc, files, root)) {
        Ok(index) => index_line(alloc, &index),
        Err(fault) => Err(fault),
    }
}

/// The answer of a step on registries.
pub fn answer(alloc: Global, stage: &mut Stage, mut row: Row<'_>) -> Result<String, RowFault> {
    let files = &mut stage.files;
    match row.word() {
        "create" => create(alloc, stage, row.word()),
        "insert" => match &stage.builder {
            Some(builder) => insert(alloc, files, builder, row),
            None => Err(RowFault::Unread),
        },
        "finalize" => {
            let validate = row.is("validated", "unvalidated")?;
            match stage.builder.take() {
                Some(builder) => finalize(alloc, files, builder, validate),
                None => Err(RowFault::Unread),
            }
        }
        "open" => {
            let path = Text::of(alloc, row.word())?;
            let validate = row.is("validated", "unvalidated")?;
            opened(
                alloc,
                asked(alloc, LocalRegistry::open(alloc, files, path, validate)),
            )
        }
        _ => index(alloc, files, row.word()),
    }
}
