//! The folders of the mirror and of the cache, by the variables that name them.
ghost use Rattle.std.specs.Prelude.{◌≡◌, ◌≤◌, List, Ok, Err, IfOk, IfErr};
ghost use Rattle.tame_names.specs.Counts.{CountRose};
ghost use Rattle.tame_names.specs.declared.host.FailedCall.{FailedCall};
ghost use Rattle.audit_start.specs.Faults.{variable_name};
ghost use Rattle.audit_start.specs.Starts.{AddsVariable, IsStartFault, IsTold, folder_of};
ghost use Rattle.audit_start.specs.Starts as spec;

use crate::faults::{FolderVariable, StartFault};
use audit_edges::folder_named;
use std::alloc::Global;
use tame_names::{EnvValue, FileFault, Files, Text};

/// The value of a variable.
fn value_of<F: Files>(
    alloc: Global,
    files: &mut F,
    variable: FolderVariable,
) -> Result<EnvValue, StartFault>
    ensures ok { F.tells → IfOk result (λ value.
        value ≡ (F.host files.old).environment (variable_name variable)) }
    ensures untold { IfErr result (λ e. IsTold e → ⊥) }
    ensures only { IfErr result IsStartFault }
    ensures later { F.faults files.old ≤ F.faults files.new }
    ensures rose { (v : FolderVariable) → result ≡ Err (StartFault.Unread v)
        → CountRose (F.faults files.old) (F.faults files.new) }
    ensures failed { F.tells → AddsVariable (F.failed files.old) (F.failed files.new) result }
    ensures same { F.tells → F.host files.new ≡ F.host files.old }
    ensures locks { F.tells → F.locks files.new ≡ F.locks files.old }
{
    match files.env(alloc, variable.name()) {
        Ok(value) => Ok(value),
        Err(FileFault::Failed) => Err(StartFault::Unread(variable)),
        Err(FileFault::NoMemory) => Err(StartFault::NoMemory),
    }
}

/// The folder that the value of its variable names.
fn folder_by(alloc: Global, variable: FolderVariable, value: EnvValue) -> Result<Text, StartFault>
    ensures ok { IfOk result (λ folder. spec.folder_by variable value ≡ Ok folder) }
    ensures refused { IfErr result (λ e. IsTold e → spec.folder_by variable value ≡ Err e) }
    ensures only { IfErr result IsStartFault }
    ensures read { (v : FolderVariable) → result ≡ Err (StartFault.Unread v) → ⊥ }
    ensures unfailed { (calls : List FailedCall) → AddsVariable calls calls result }
{
    let unnamed = variable.unnamed();
    match value {
        EnvValue::Unset => Ok(folder_named(alloc, None, unnamed)?),
        EnvValue::NotUtf8 => Err(StartFault::NotUtf8(variable)),
        EnvValue::Value(name) => Ok(folder_named(alloc, Some(name.as_str()), unnamed)?),
    }
}

/// The folder of a variable: the one that it names, or its default if it is unset or empty.
pub fn folder<F: Files>(
    alloc: Global,
    files: &mut F,
    variable: FolderVariable,
) -> Result<Text, StartFault>
    ensures ok { F.tells → IfOk result (λ folder.
        folder_of variable (F.host files.old) ≡ Ok folder) }
    ensures refused { F.tells → IfErr result (λ e. IsTold e
        → folder_of variable (F.host files.old) ≡ Err e) }
    ensures only { IfErr result IsStartFault }
    ensures later { F.faults files.old ≤ F.faults files.new }
    ensures rose { (v : FolderVariable) → result ≡ Err (StartFault.Unread v)
        → CountRose (F.faults files.old) (F.faults files.new) }
    ensures failed { F.tells → AddsVariable (F.failed files.old) (F.failed files.new) result }
    ensures same { F.tells → F.host files.new ≡ F.host files.old }
    ensures locks { F.tells → F.locks files.new ≡ F.locks files.old }
{
    let value = value_of(alloc, files, variable)?;
    folder_by(alloc, variable, value)
}
