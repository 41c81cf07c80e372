//! Rows of locks, and of calls on the host.
use crate::locations::scene::Scene;
use row_fixtures::{Row, RowFault, asked, shown};
use std::alloc::Global;
use tame_location::LockOptions;
use tame_names::{FileLock, Files, OpenedLock, ReadAnswer, Text};

/// The state of a lock that was taken.
fn state_line(alloc: Global, lock: Result<FileLock, RowFault>) -> Result<String, RowFault> {
    let lock = lock?;
    Ok(format!(in alloc; "{:?}", lock.state())?)
}

/// What becomes of a lock that is taken in the way of a word.
fn taken(
    alloc: Global,
    scene: &mut Scene,
    options: &LockOptions<'_>,
    row: &mut Row<'_>,
) -> Result<String, RowFault> {
    let host = &mut scene.host;
    match row.word() {
        "once" => state_line(alloc, asked(alloc, options.try_lock(alloc, host))),
        "wait" => state_line(alloc, asked(alloc, options.lock(alloc, host, |_path| None))),
        word => {
            let times = word.parse::<u32>().unwrap_or(0);
            let lock = options.lock(alloc, host, |_path| Some(times));
            state_line(alloc, asked(alloc, lock))
        }
    }
}

fn lock(alloc: Global, scene: &mut Scene, row: &mut Row<'_>) -> Result<String, RowFault> {
    let path = row.text(alloc)?;
    let options = LockOptions::new(path.as_str());
    let options = match row.word() {
        "shared" => options.shared(),
        "exclusive" => options.exclusive(false),
        "fallback" => options.exclusive(true),
        _ => return Err(RowFault::Unread),
    };
    taken(alloc, scene, &options, row)
}

fn package_lock(alloc: Global, scene: &mut Scene, row: &mut Row<'_>) -> Result<String, RowFault> {
    let root = match row.text_or_none(alloc)? {
        Some(root) => Some(Text::from_string(root)),
        None => None,
    };
    let options = asked(
        alloc,
        LockOptions::cargo_package_lock(alloc, &mut scene.host, root),
    )?;
    taken(alloc, scene, &options, row)
}

/// What stands at a path.
fn look(alloc: Global, scene: &mut Scene, path: &str) -> Result<String, RowFault> {
    let kind = scene.host.kind(path);
    let entries = scene.host.list(alloc, path);
    let bytes = match scene.host.read(alloc, path, 1000) {
        Ok(ReadAnswer::Whole(bytes)) => shown(alloc, bytes.as_slice())?,
        _ => String::new(alloc),
    };
    Ok(format!(in alloc; "{kind:?} {entries:?} '{bytes}'")?)
}

/// A call on the host, at a path.
fn called(
    alloc: Global,
    scene: &mut Scene,
    what: &str,
    row: &mut Row<'_>,
) -> Result<String, RowFault> {
    let path = row.text(alloc)?;
    let path = path.as_str();
    match what {
        "make" => Ok(format!(in alloc; "{:?}", scene.host.make_dirs(path))?),
        "create" => {
            let bytes = row.bytes(alloc)?;
            Ok(format!(in alloc; "{:?}", scene.host.create(path, bytes.as_slice()))?)
        }
        "open" => {
            let exclusive = row.is("exclusive", "shared")?;
            let answer = scene.host.open_lock(path, exclusive)?;
            Ok(format!(in alloc; "{answer:?}")?)
        }
        "take" => {
            let exclusive = row.is("exclusive", "shared")?;
            let block = row.is("wait", "once")?;
            let opened = OpenedLock { file: None };
            let answer = scene.host.take_lock(path, &opened, exclusive, block)?;
            Ok(format!(in alloc; "{answer:?}")?)
        }
        "look" => look(alloc, scene, path),
        _ => Err(RowFault::Unread),
    }
}

/// A row of a lock or of a call.
pub fn answer(alloc: Global, scene: &mut Scene, mut row: Row<'_>) -> Result<String, RowFault> {
    match row.word() {
        "lock" => lock(alloc, scene, &mut row),
        "package-lock" => package_lock(alloc, scene, &mut row),
        "steps" => Ok(format!(in alloc; "{:?}", scene.host.steps())?),
        "failed" => {
            let faults = scene.host.file_faults();
            Ok(format!(in alloc; "{faults} {:?}", scene.host.failed())?)
        }
        what => called(alloc, scene, what, &mut row),
    }
}
