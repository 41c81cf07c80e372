//! The settings of a run.
ghost use Rattle.std.specs.Prelude.{◌≡◌, Ok, Err, Some, None, IfOk, IfErr, IsTrue};
ghost use Rattle.tame_names.specs.declared.host.FileCall.TheVariants as FileCall;
ghost use Rattle.audit_asked.specs.Calls.{AddsFailed, HasFileCause, IsCallOn, IsHomeConfigCall, IsSettingsCall, IsSettingsFrom};
ghost use Rattle.audit_asked.specs.Refusals.{IsReadFault, is_told, refused};
ghost use Rattle.audit_asked.specs.Settings.{known_home};
ghost use Rattle.audit_asked.specs.Settings as spec;

use crate::faults::AskFault;
use crate::homes::known_home;
use crate::texts::text_there;
use audit_settings::{AuditCommand, AuditConfig, CONFIG_FILE, SettingsFault};
use std::alloc::Global;
use tame_names::{Files, join};

/// The settings file in the current folder.
const FOLDER_FILE: &str = ".cargo/audit.toml";

/// The settings of the file at a path, if it is there.
fn config_at<F: Files>(
    alloc: Global,
    files: &mut F,
    path: &str,
) -> Result<Option<AuditConfig>, AskFault>
    ensures ok { F.tells → IfOk result (λ config.
        spec.config_at (F.host files.old) path.now ≡ Ok config) }
    ensures refused { F.tells → IfErr result (λ e. IsTrue (is_told e)
        → spec.config_at (F.host files.old) path.now ≡ Err (refused e)) }
    ensures only { IfErr result IsReadFault }
    ensures cause { HasFileCause (F.faults files.old) (F.faults files.new) result }
    ensures failed { F.tells → AddsFailed (IsCallOn FileCall.Read path.now)
        (F.failed files.old) (F.failed files.new) result }
    ensures same { F.tells → F.host files.new ≡ F.host files.old }
{
    let Some(text) = text_there(alloc, files, path)? else {
        return Ok(None);
    };
    match AuditConfig::from_toml(alloc, text.as_str()) {
        Ok(config) => Ok(Some(config)),
        Err(SettingsFault::NoMemory) => Err(AskFault::NoMemory),
        Err(fault) => Err(AskFault::Settings(fault)),
    }
}

/// The settings of the file in cargo's home, if it is there.
fn config_in_home<F: Files>(alloc: Global, files: &mut F) -> Result<Option<AuditConfig>, AskFault>
    ensures ok { F.tells → IfOk result (λ config.
        spec.config_in_home (F.host files.old) (known_home (F.host files.old)) ≡ Ok config) }
    ensures refused { F.tells → IfErr result (λ e. IsTrue (is_told e)
        → spec.config_in_home (F.host files.old) (known_home (F.host files.old))
        ≡ Err (refused e)) }
    ensures only { IfErr result IsReadFault }
    ensures cause { HasFileCause (F.faults files.old) (F.faults files.new) result }
    ensures failed { F.tells → AddsFailed (IsHomeConfigCall (F.host files.old))
        (F.failed files.old) (F.failed files.new) result }
    ensures same { F.tells → F.host files.new ≡ F.host files.old }
{
    let Some(home) = known_home(alloc, files)? else {
        return Ok(None);
    };
    let path = join(alloc, home.as_str(), CONFIG_FILE)?;
    config_at(alloc, files, path.as_str())
}

/// The settings of the file at a path, else of the one in cargo's home, else the defaults.
fn settings_from<F: Files>(
    alloc: Global,
    files: &mut F,
    path: &str,
) -> Result<AuditConfig, AskFault>
    ensures ok { F.tells → IfOk result (λ config.
        spec.settings_from (F.host files.old) path.now ≡ Ok config) }
    ensures refused { F.tells → IfErr result (λ e. IsTrue (is_told e)
        → spec.settings_from (F.host files.old) path.now ≡ Err (refused e)) }
    ensures only { IfErr result IsReadFault }
    ensures cause { HasFileCause (F.faults files.old) (F.faults files.new) result }
    ensures failed { F.tells → AddsFailed (IsSettingsFrom (F.host files.old) path.now)
        (F.failed files.old) (F.failed files.new) result }
    ensures same { F.tells → F.host files.new ≡ F.host files.old }
{
    if let Some(config) = config_at(alloc, files, path)? {
        return Ok(config);
    }
    match config_in_home(alloc, files)? {
        Some(config) => Ok(config),
        None => Ok(AuditConfig::new(alloc)?),
    }
}

/// The settings; those of the current folder come first.
fn settings_file<F: Files>(alloc: Global, files: &mut F) -> Result<AuditConfig, AskFault>
    ensures ok { F.tells → IfOk result
        (λ config. spec.settings_file (F.host files.old) ≡ Ok config) }
    ensures refused { F.tells → IfErr result (λ e. IsTrue (is_told e)
        → spec.settings_file (F.host files.old) ≡ Err (refused e)) }
    ensures only { IfErr result IsReadFault }
    ensures cause { HasFileCause (F.faults files.old) (F.faults files.new) result }
    ensures failed { F.tells → AddsFailed (IsSettingsCall (F.host files.old))
        (F.failed files.old) (F.failed files.new) result }
    ensures same { F.tells → F.host files.new ≡ F.host files.old }
{
    settings_from(alloc, files, FOLDER_FILE)
}

/// The settings with the options of a command applied.
pub(crate) fn settled<F: Files>(
    alloc: Global,
    command: &AuditCommand,
    files: &mut F,
) -> Result<AuditConfig, AskFault>
    ensures ok { F.tells → IfOk result (λ config.
        spec.settled command.now (F.host files.old) ≡ Ok config) }
    ensures refused { F.tells → IfErr result (λ e. IsTrue (is_told e)
        → spec.settled command.now (F.host files.old) ≡ Err (refused e)) }
    ensures only { IfErr result IsReadFault }
    ensures cause { HasFileCause (F.faults files.old) (F.faults files.new) result }
    ensures failed { F.tells → AddsFailed (IsSettingsCall (F.host files.old))
        (F.failed files.old) (F.failed files.new) result }
    ensures same { F.tells → F.host files.new ≡ F.host files.old }
{
    let config = settings_file(alloc, files)?;
    Ok(command.override_config(alloc, config)?)
}
