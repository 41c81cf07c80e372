//! Rows of urls, folders and versions.
use crate::locations::scene::{Scene, small_number};
use row_fixtures::{Row, RowFault, asked};
use semver::Version;
use std::alloc::{AllocError, Global};
use tame_location::{
    UrlDir, canonicalize_url, get_index_details, parse_cargo_semver, sip_hash_2_4, url_to_local_dir,
};
use tame_names::Text;

/// The hash of a number of bytes, low byte first.
fn sip(alloc: Global, row: &mut Row<'_>) -> Result<String, RowFault> {
    let mut message = Vec::new(alloc);
    for byte in 0..small_number(row)? {
        message.push(byte)?;
    }
    let number = sip_hash_2_4(
        0x0706_0504_0302_0100,
        0x0f0e_0d0c_0b0a_0908,
        message.as_slice(),
    );
    Ok(format!(in alloc; "{:016x}", number.swap_bytes())?)
}

fn dir_line(alloc: Global, dir: &UrlDir) -> Result<String, AllocError> {
    format!(in alloc; "{} {}", dir.dir_name, dir.canonical)
}

fn dir(alloc: Global, scene: &Scene, row: &mut Row<'_>) -> Result<String, RowFault> {
    let stable = row.is("stable", "plain")?;
    let url = row.text(alloc)?;
    match asked(
        alloc,
        url_to_local_dir(alloc, url.as_str(), stable, &scene.ident),
    ) {
        Ok(dir) => Ok(dir_line(alloc, &dir)?),
        Err(fault) => Err(fault),
    }
}

/// A path and a url.
pub fn parts_line(
    alloc: Global,
    found: Result<(Text, Text), RowFault>,
) -> Result<String, RowFault> {
    let (path, url) = found?;
    Ok(format!(in alloc; "{path} {url}")?)
}

fn details(alloc: Global, scene: &mut Scene, row: &mut Row<'_>) -> Result<String, RowFault> {
    let root = row.text_or_none(alloc)?;
    let stable = row.is("stable", "plain")?;
    let url = row.text(alloc)?;
    let root = match &root {
        Some(root) => Some(root.as_str()),
        None => None,
    };
    let Scene { host, ident, .. } = scene;
    let found = get_index_details(alloc, host, url.as_str(), root, stable, ident);
    parts_line(alloc, asked(alloc, found))
}

fn version_line(alloc: Global, found: Result<Version, RowFault>) -> Result<String, RowFault> {
    let version = found?;
    Ok(format!(in alloc; "{version}")?)
}

/// A row of a url or a version.
pub fn answer(alloc: Global, scene: &mut Scene, mut row: Row<'_>) -> Result<String, RowFault> {
    match row.word() {
        "sip" => sip(alloc, &mut row),
        "canonical" => {
            let url = row.text(alloc)?;
            Ok(asked(alloc, canonicalize_url(alloc, url.as_str()))?.into_string())
        }
        "dir" => dir(alloc, scene, &mut row),
        "details" => details(alloc, scene, &mut row),
        _ => {
            let text = row.text(alloc)?;
            version_line(
                alloc,
                asked(alloc, parse_cargo_semver(alloc, text.as_str())),
            )
        }
    }
}
