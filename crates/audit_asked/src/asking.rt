//! What a run asks of its host.
ghost use Rattle.std.specs.Prelude.{◌≡◌, Ok, Err, IfOk, IfErr, IsTrue, option_map};
ghost use Rattle.tame_names.specs.Standing.{IsInput, StaysButInput};
ghost use Rattle.audit_asked.specs.Asked.{IsAskedCall, IsOrderedCall, IsTextsCall, asked, asked_by, generates, status_told, texts_asked};
ghost use Rattle.audit_asked.specs.Calls.{AddsFailed, HasFileCause};
ghost use Rattle.audit_asked.specs.Places.{place_of};
ghost use Rattle.audit_asked.specs.Refusals.{Gives, IsAskFault, IsTextsFault, is_told, refused};
ghost use Rattle.audit_asked.specs.Settings.{settled};
ghost use Rattle.audit_asked.specs.Starts.{HasRunStartCause, RunStartsWhere, StartsAtMost};
ghost use Rattle.audit_asked.specs.Texts.{IsUsedUp};

use crate::advisories::advisories;
use crate::databases::{database, database_path};
use crate::faults::AskFault;
use crate::known::baseline;
use crate::places::place;
use crate::runners::Runner;
use crate::settings::settled;
use crate::texts::input_or_text;
use audit_advisory::Advisory;
use audit_settings::{AuditCommand, AuditConfig};
use known_findings::Baseline;
use std::alloc::Global;
use tame_names::{Files, Items, Text};

/// What a run asked of its host.
#[derive(Debug, Drop)]
pub struct Asked {
    /// The settings with the command's options applied.
    pub config: AuditConfig,
    /// The lockfile's path; `-` is standard input.
    pub place: Text,
    /// The path of the database; `advisory-db` if cargo's home isn't known.
    pub database: Text,
    /// The advisories, in the byte order of their folders and files.
    pub advisories: Items<Advisory>,
    /// The baseline, if one is named.
    pub baseline: Option<Baseline>,
    /// The lockfile's text.
    pub text: Text,
}

/// A path that may be absent, as `&str`.
fn path_of(text: &Option<Text>) -> Option<&str>
    ensures { option_map (λ path. path.now) result ≡ text.now }
{
    match text {
        None => None,
        Some(text) => Some(text.as_str()),
    }
}

/// What the host has for some settings and a lockfile at some path.
#[derive(Drop)]
struct Found {
    database: Text,
    advisories: Items<Advisory>,
    baseline: Option<Baseline>,
    text: Text,
}

/// Asks the host for the advisories, for a baseline if one is named, and for the lockfile's
/// text, with these settings.
fn look<F: Files>(
    alloc: Global,
    files: &mut F,
    config: &AuditConfig,
    named: Option<&str>,
    place: &str,
) -> Result<Found, AskFault>
    ensures ok { F.tells → IfOk result (λ found.
        texts_asked (F.host files.old) config.now (option_map (λ path. path.now) named.entry)
        place.now ≡ Ok (asked_by config.now place.now found)) }
    ensures refused { F.tells → IfErr result (λ e. IsTrue (is_told e)
        → texts_asked (F.host files.old) config.now (option_map (λ path. path.now) named.entry)
        place.now ≡ Err (refused e)) }
    ensures only { IfErr result (IsTextsFault (option_map (λ path. path.now) named.entry)) }
    ensures cause { HasFileCause (F.faults files.old) (F.faults files.new) result }
    ensures failed { F.tells → AddsFailed (IsTextsCall (F.host files.old) config.now
        (option_map (λ path. path.now) named.entry) place.now)
        (F.failed files.old) (F.failed files.new) result }
    ensures same { F.tells → StaysButInput (IsInput place.now)
        (F.host files.old) (F.host files.new) }
    ensures left { F.tells → IfOk result (λ _. IsUsedUp place.now (F.host files.new)) }
{
    let database = database(alloc, files, &config.database.path)?;
    let advisories = advisories(alloc, files, &database)?;
    let baseline = baseline(alloc, files, named)?;
    let text = input_or_text(alloc, files, place)?;
    let database = database_path(alloc, database)?;
    Ok(Found {
        database,
        advisories,
        baseline,
        text,
    })
}

/// The same, with the settings and the path in the answer.
fn texts<F: Files>(
    alloc: Global,
    files: &mut F,
    config: AuditConfig,
    named: Option<&str>,
    place: Text,
) -> Result<Asked, AskFault>
    ensures ok { F.tells → IfOk result (λ asked.
        texts_asked (F.host files.old) config (option_map (λ path. path.now) named.entry) place
        ≡ Ok asked) }
    ensures refused { F.tells → IfErr result (λ e. IsTrue (is_told e)
        → texts_asked (F.host files.old) config (option_map (λ path. path.now) named.entry) place
        ≡ Err (refused e)) }
    ensures only { IfErr result (IsTextsFault (option_map (λ path. path.now) named.entry)) }
    ensures cause { HasFileCause (F.faults files.old) (F.faults files.new) result }
    ensures failed { F.tells → AddsFailed (IsTextsCall (F.host files.old) config
        (option_map (λ path. path.now) named.entry) place)
        (F.failed files.old) (F.failed files.new) result }
    ensures same { F.tells → StaysButInput (IsInput place)
        (F.host files.old) (F.host files.new) }
    ensures left { F.tells → IfOk result (λ _. IsUsedUp place (F.host files.new)) }
{
    let Found {
        database,
        advisories,
        baseline,
        text,
    } = look(alloc, files, &config, named, place.as_str())?;
    Ok(Asked {
        config,
        place,
        database,
        advisories,
        baseline,
        text,
    })
}

/// Asks the host for the settings, for the lockfile's path, for the advisories one after the
/// other, for the baseline if its path is named, and for the lockfile's text. The first
/// refusal ends it.
pub fn ask<F: Files, R: Runner>(
    alloc: Global,
    command: &AuditCommand,
    named: Option<&str>,
    files: &mut F,
    runner: &mut R,
) -> Result<Asked, AskFault>
    // what was asked, or the first refusal
    ensures gives { F.tells
        → Gives (asked command.now (option_map (λ path. path.now) named.entry) (F.host files.old)
        (status_told result)) result }
    ensures only { IfErr result (IsAskFault (option_map (λ path. path.now) named.entry)) }

    // what was started
    ensures started { F.tells → R.tells
        → RunStartsWhere (generates command.now (F.host files.old)
        (settled command.now (F.host files.old)))
        (R.starts runner.old) (R.starts runner.new) result }
    ensures at_most { R.tells → StartsAtMost (R.starts runner.old) (R.starts runner.new) }
    ensures start_cause { HasRunStartCause (R.faults runner.old) (R.faults runner.new) result }

    // which call failed
    ensures cause { HasFileCause (F.faults files.old) (F.faults files.new) result }
    ensures failed { F.tells → AddsFailed (IsAskedCall command.now
        (option_map (λ path. path.now) named.entry) (F.host files.old))
        (F.failed files.old) (F.failed files.new) result }
    // and what was started until then
    ensures ordered { F.tells → R.tells → AddsFailed (IsOrderedCall command.now
        (option_map (λ path. path.now) named.entry) (F.host files.old)
        (R.starts runner.old) (R.starts runner.new))
        (F.failed files.old) (F.failed files.new) result }
    ensures same { F.tells → StaysButInput (IsInput (place_of command.now.file))
        (F.host files.old) (F.host files.new) }
    ensures left { F.tells → IfOk result (λ _.
        IsUsedUp (place_of command.now.file) (F.host files.new)) }
{
    let config = settled(alloc, command, files)?;
    let place = place(alloc, files, runner, path_of(&command.file))?;
    texts(alloc, files, config, named, place)
}
