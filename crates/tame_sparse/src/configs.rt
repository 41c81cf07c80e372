//! The configuration of an index by its bytes, with the crate's errors.
ghost use Rattle.std.specs.Prelude.{◌≡◌, ◌⊎◌, Some, None, IfOk, IfErr};
ghost use Rattle.tame_entry.specs.Config as spec;

use std::alloc::Global;
use tame_entry::IndexConfig;
use tame_names::Error;
use tame_records::LineFault;

/// The configuration in these bytes; `Json` if there is none.
pub fn config_of(alloc: Global, bytes: &[u8]) -> Result<IndexConfig, Error>
    ensures ok { IfOk result (λ config. spec.config_of bytes.now ≡ Some config) }
    ensures refused { IfErr result
        (λ e. (e ≡ Error.NoMemory) ⊎ ((e ≡ Error.Json 0) × (spec.config_of bytes.now ≡ None))) }
{
    match IndexConfig::from_slice(alloc, bytes) {
        Ok(config) => Ok(config),
        Err(LineFault::Json) => Err(Error::Json { line: 0 }),
        Err(LineFault::NoMemory) => Err(Error::NoMemory),
    }
}
