//! The files of cargo's settings.
ghost use Rattle.std.specs.Prelude.{◌≡◌, ◌≢◌, ◌≤◌, ◌++◌, map, None, Some, IfOk, IsErr, IsOk, option_map};
ghost use Rattle.tame_location.specs.Places.{AreFiles, AreSettingsFiles, AreUpwards, IsHome, IsStart, folder_file};
ghost use Rattle.tame_location.specs.Places as spec;

use crate::homes::cargo_home;
use std::alloc::Global;
use tame_names::{Error, FileFault, Files, Items, NoMemory, Text, join, parent};

/// A folder and those above it.
fn upwards(alloc: Global, folder: &str) -> Result<Items<Text>, NoMemory>
    ensures { IfOk result (λ folders. AreUpwards (Some folder.now) folders) }
{
    let mut folders = Items::new(alloc);
    folders.add(Text::of(alloc, folder)?)?;
    let mut last = folder;
    while let Some(above) = parent(last) {
        folders.add(Text::of(alloc, above)?)?;
        last = above;
    }
    Ok(folders)
}

/// A folder, if there is one, and those above it.
fn folders_of(alloc: Global, folder: Option<&str>) -> Result<Items<Text>, NoMemory>
    ensures { IfOk result (λ folders. AreUpwards (option_map (λ f. f.now) folder.entry) folders) }
{
    match folder {
        None => Ok(Items::new(alloc)),
        Some(folder) => upwards(alloc, folder),
    }
}

/// The files of settings in these folders.
fn folder_files(alloc: Global, folders: &[Text]) -> Result<Items<Text>, NoMemory>
    ensures { IfOk result (λ paths. paths ≡ map folder_file folders.now) }
{
    let mut paths = Items::new(alloc);
    for folder in folders {
        paths.add(join(alloc, folder.as_str(), ".cargo/config.toml")?)?;
    }
    Ok(paths)
}

/// These files, and the one in cargo's home, if it is known.
fn with_home(alloc: Global, paths: Items<Text>, home: Option<&str>) -> Result<Items<Text>, NoMemory>
    ensures { IfOk result (λ all. all
        ≡ paths ++ spec.home_files (option_map (λ h. h.now) home.entry)) }
{
    let Some(home) = home else {
        return Ok(paths);
    };
    let mut all = paths;
    all.add(join(alloc, home, "config.toml")?)?;
    Ok(all)
}

/// The files of a folder and those above it, and then the one in cargo's home.
fn files_of(
    alloc: Global,
    folder: Option<&str>,
    home: Option<&str>,
) -> Result<Items<Text>, NoMemory>
    ensures { IfOk result (λ paths. AreFiles (option_map (λ f. f.now) folder.entry)
        (option_map (λ h. h.now) home.entry) paths) }
{
    let folders = folders_of(alloc, folder)?;
    let paths = folder_files(alloc, folders.as_slice())?;
    let all = with_home(alloc, paths, home)?;
    Ok(all)
}

/// The folder where the search begins: the given one, else the current one, if it is known.
fn start<F: Files>(
    alloc: Global,
    files: &mut F,
    root: Option<&str>,
) -> Result<Option<Text>, NoMemory>
    ensures ok { F.tells → IfOk result (λ folder. IsStart (option_map (λ r. r.now) root.entry)
        (F.host files.old) (F.failed files.old) (F.failed files.new) folder) }
    ensures later { F.faults files.old ≤ F.faults files.new }
    ensures same { F.tells → F.host files.new ≡ F.host files.old }
{
    if let Some(root) = root {
        return Ok(Some(Text::of(alloc, root)?));
    }
    match files.current_dir(alloc) {
        Ok(folder) => Ok(Some(folder)),
        Err(FileFault::Failed) => Ok(None),
        Err(FileFault::NoMemory) => Err(NoMemory),
    }
}

/// No home, if it is unknown for this reason; it is skipped unless out of memory.
fn untold(error: &Error) -> Result<Option<Text>, NoMemory>
    ensures none { IfOk result (λ home. home ≡ None) }
    ensures other { IsOk result → error.now ≢ Error.NoMemory }
    ensures memory { IsErr result → error.now ≡ Error.NoMemory }
{
    match error {
        Error::NoMemory => Err(NoMemory),
        _ => Ok(None),
    }
}

/// The home whose settings come last: the given one, else cargo's, if it is known.
fn settings_home<F: Files>(
    alloc: Global,
    files: &mut F,
    home: Option<&str>,
) -> Result<Option<Text>, NoMemory>
    ensures ok { F.tells → IfOk result (λ told. IsHome (option_map (λ h. h.now) home.entry)
        (F.host files.old) (F.failed files.old) (F.failed files.new) told) }
    ensures later { F.faults files.old ≤ F.faults files.new }
    ensures same { F.tells → F.host files.new ≡ F.host files.old }
{
    if let Some(home) = home {
        return Ok(Some(Text::of(alloc, home)?));
    }
    match cargo_home(alloc, files) {
        Ok(home) => Ok(Some(home)),
        Err(error) => untold(&error),
    }
}

/// A string that may be absent, borrowed.
pub fn borrowed(text: &Option<Text>) -> Option<&str>
    ensures { option_map (λ t. t.now) result ≡ text.now }
{
    match text {
        None => None,
        Some(text) => Some(text.as_str()),
    }
}

/// The paths of the files of settings, the one that counts first at the front: `.cargo/config.toml`
/// in the given root or the current folder and in each folder above it, and then `config.toml` in
/// the given home or cargo's. An unknown folder or home is skipped.
pub fn settings_files<F: Files>(
    alloc: Global,
    files: &mut F,
    root: Option<&str>,
    home: Option<&str>,
) -> Result<Items<Text>, NoMemory>
    ensures ok { F.tells → IfOk result (λ paths. AreSettingsFiles
        (option_map (λ r. r.now) root.entry) (option_map (λ h. h.now) home.entry)
        (F.host files.old) (F.failed files.old) (F.failed files.new) paths) }
    ensures later { F.faults files.old ≤ F.faults files.new }
    ensures same { F.tells → F.host files.new ≡ F.host files.old }
{
    let folder = start(alloc, files, root)?;
    let told = settings_home(alloc, files, home)?;
    files_of(alloc, borrowed(&folder), borrowed(&told))
}
