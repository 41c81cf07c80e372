//! The lockfile's path.
ghost use Rattle.std.specs.Prelude.{◌≡◌, ◌⊎◌, ℕ, List, pos, Option, true, false, Ok, Err, Some, None, IfOk, IfErr, IsTrue, option_map};
ghost use Rattle.audit_asked.specs.Calls.{AddsFailed, AddsLook, HasFileCause, HasLookCause, IsLookError, IsPlaceCall, LookedAt};
ghost use Rattle.audit_asked.specs.Places.{place_asked, place_of};
ghost use Rattle.audit_asked.specs.Places as spec;
ghost use Rattle.audit_asked.specs.Refusals.{IsAskFault, is_told, refused};
ghost use Rattle.audit_asked.specs.Starts.{Generates, GeneratesWhere, HasRunStartCause, HasStartCause, IsLocateError, IsStartError, RunStartsWhere, StartsAtMost};
ghost use Rattle.audit_asked.specs.Starts as starts_spec;
ghost use Rattle.audit_asked.specs.Asked.{status_told};

use crate::faults::AskFault;
use crate::runners::{Runner, StartFault};
use std::alloc::Global;
use tame_names::{FileFault, Files, Items, NoMemory, PathKind, Text};

/// Why there is no path of a lockfile.
#[derive(Clone, Copy, Debug, PartialEq, Eq)]
pub enum LocateError {
    /// A look at this path failed.
    File { path: &'static str },
    /// Cargo couldn't be started.
    Start,
    /// Cargo ended with this status, which isn't 0.
    Generate { status: i32 },
    /// Out of memory.
    NoMemory,
}

impl From<NoMemory> for LocateError {
    ghost use Rattle.audit_asked.specs.declared.places.LocateError.TheVariants.{NoMemory as no_memory};

    ghost from_gives = { λ _ e. e ≡ no_memory };

    fn from(_: NoMemory) -> LocateError {
        LocateError::NoMemory
    }
}

/// The lockfile if none is named.
const LOCKFILE_NAME: &str = "Cargo.lock";

/// The manifest of a package, from which a lockfile can be generated.
const MANIFEST_NAME: &str = "Cargo.toml";

/// Whether something is at a path.
fn is_there<F: Files>(files: &mut F, path: &'static str) -> Result<bool, LocateError>
    ensures ok { F.tells → IfOk result (λ there.
        there ≡ spec.is_there ((F.host files.old).stands path.now)) }
    ensures only { IfErr result (λ e.
        (e ≡ LocateError.File path.entry) ⊎ (e ≡ LocateError.NoMemory)) }
    ensures cause { HasLookCause (F.faults files.old) (F.faults files.new) result }
    ensures failed { F.tells → AddsLook (F.failed files.old) (F.failed files.new) result }
    ensures same { F.tells → F.host files.new ≡ F.host files.old }
{
    match files.kind(path) {
        Ok(PathKind::Absent) => Ok(false),
        Ok(_) => Ok(true),
        Err(FileFault::Failed) => Err(LocateError::File { path }),
        Err(FileFault::NoMemory) => Err(LocateError::NoMemory),
    }
}

/// Whether a lockfile must be generated, if none is named.
fn is_to_generate<F: Files>(files: &mut F) -> Result<bool, LocateError>
    ensures ok { F.tells → IfOk result
        (λ wanted. wanted ≡ spec.is_to_generate None (F.host files.old)) }
    ensures only { IfErr result IsLocateError }
    ensures unstarted { IfErr result (λ e. ¬ (IsStartError e)) }
    ensures cause { HasLookCause (F.faults files.old) (F.faults files.new) result }
    ensures failed { F.tells → AddsLook (F.failed files.old) (F.failed files.new) result }
    ensures looked { F.tells → IfErr result (LookedAt None (F.host files.old)) }
    ensures same { F.tells → F.host files.new ≡ F.host files.old }
{
    if is_there(files, LOCKFILE_NAME)? {
        return Ok(false);
    }
    is_there(files, MANIFEST_NAME)
}

/// The arguments that generate a lockfile.
fn generating_words(alloc: Global) -> Result<Items<Text>, NoMemory>
    ensures { IfOk result (λ words. words ≡ starts_spec.generating_words) }
{
    let mut words = Items::new(alloc);
    words.add(Text::of(alloc, "update")?)?;
    words.add(Text::of(alloc, "--workspace")?)?;
    Ok(words)
}

/// Starts `cargo update --workspace`. `Generate` if it ends with a status other than 0, `Start`
/// if it can't be started.
pub fn generate<R: Runner>(alloc: Global, runner: &mut R) -> Result<(), LocateError>
    ensures started { R.tells → Generates (R.starts runner.old) (R.starts runner.new) result }
    ensures only { IfErr result IsLocateError }
    ensures unlooked { IfErr result (λ e. ¬ (IsLookError e)) }
    ensures cause { HasStartCause (R.faults runner.old) (R.faults runner.new) result }
{
    let words = generating_words(alloc)?;
    match runner.start(alloc, &words) {
        Ok(status) if status == 0 => Ok(()),
        Ok(status) => Err(LocateError::Generate { status }),
        Err(StartFault::Failed) => Err(LocateError::Start),
        Err(StartFault::NoMemory) => Err(LocateError::NoMemory),
    }
}

/// The path that is given; without one `Cargo.lock`, which is generated if it isn't there and
/// `Cargo.toml` is. `File` if a look at one of the two failed, else as `generate`.
pub fn locate_or_generate<F: Files, R: Runner>(
    alloc: Global,
    files: &mut F,
    runner: &mut R,
    path: Option<&str>,
) -> Result<Text, LocateError>
    ensures ok { IfOk result (λ place. place ≡ place_of (option_map (λ p. p.now) path.entry)) }
    ensures only { IfErr result IsLocateError }

    // a program is started if and only if a lockfile must be generated
    ensures started { F.tells → R.tells
        → GeneratesWhere (spec.is_to_generate (option_map (λ p. p.now) path.entry)
        (F.host files.old))
        (R.starts runner.old) (R.starts runner.new) result }
    ensures start { F.tells → IfErr result (λ e. IsStartError e
        → IsTrue (spec.is_to_generate (option_map (λ p. p.now) path.entry) (F.host files.old))) }
    ensures at_most { R.tells → StartsAtMost (R.starts runner.old) (R.starts runner.new) }
    ensures start_cause { HasStartCause (R.faults runner.old) (R.faults runner.new) result }

    // the files
    ensures cause { HasLookCause (F.faults files.old) (F.faults files.new) result }
    ensures failed { F.tells → AddsLook (F.failed files.old) (F.failed files.new) result }
    ensures looked { F.tells → IfErr result
        (LookedAt (option_map (λ p. p.now) path.entry) (F.host files.old)) }
    ensures same { F.tells → F.host files.new ≡ F.host files.old }
{
    if let Some(path) = path {
        return Ok(Text::of(alloc, path)?);
    }
    let place = Text::of(alloc, LOCKFILE_NAME)?;
    if is_to_generate(files)? {
        generate(alloc, runner)?;
    }
    Ok(place)
}

/// The one of two strings that is this path.
fn same_path(path: &str, one: Text, other: Text) -> Text
    requires { (path.now ≡ one) ⊎ (path.now ≡ other) }
    ensures { result ≡ path.now }
{
    if path == one.as_str() { one } else { other }
}

/// The lockfile's path; the command may name one.
pub(crate) fn place<F: Files, R: Runner>(
    alloc: Global,
    files: &mut F,
    runner: &mut R,
    path: Option<&str>,
) -> Result<Text, AskFault>
    ensures place { IfOk result (λ place. place ≡ place_of (option_map (λ p. p.now) path.entry)) }
    ensures ok { F.tells → IfOk result (λ place. place_asked
        (option_map (λ p. p.now) path.entry) (F.host files.old) (pos 0) ≡ Ok place) }
    ensures refused { F.tells → IfErr result (λ e. IsTrue (is_told e)
        → place_asked (option_map (λ p. p.now) path.entry) (F.host files.old) (status_told result)
        ≡ Err (refused e)) }
    ensures only { (named : Option (List ℕ)) → IfErr result (IsAskFault named) }

    ensures started { F.tells → R.tells
        → RunStartsWhere (spec.is_to_generate (option_map (λ p. p.now) path.entry)
        (F.host files.old))
        (R.starts runner.old) (R.starts runner.new) result }
    ensures at_most { R.tells → StartsAtMost (R.starts runner.old) (R.starts runner.new) }
    ensures start_cause { HasRunStartCause (R.faults runner.old) (R.faults runner.new) result }

    ensures cause { HasFileCause (F.faults files.old) (F.faults files.new) result }
    ensures failed { F.tells → AddsFailed
        (IsPlaceCall (option_map (λ p. p.now) path.entry) (F.host files.old))
        (F.failed files.old) (F.failed files.new) result }
    ensures unstarted { F.tells → R.tells → (told : List ℕ) → result ≡ Err (AskFault.File told)
        → R.starts runner.new ≡ R.starts runner.old }
    ensures same { F.tells → F.host files.new ≡ F.host files.old }
{
    let lockfile = Text::of(alloc, LOCKFILE_NAME)?;
    let manifest = Text::of(alloc, MANIFEST_NAME)?;
    match locate_or_generate(alloc, files, runner, path) {
        Ok(place) => Ok(place),
        Err(LocateError::File { path }) => Err(AskFault::File {
            path: same_path(path, lockfile, manifest),
        }),
        Err(LocateError::Start) => Err(AskFault::Start),
        Err(LocateError::Generate { status }) => Err(AskFault::Generate { status }),
        Err(LocateError::NoMemory) => Err(AskFault::NoMemory),
    }
}
