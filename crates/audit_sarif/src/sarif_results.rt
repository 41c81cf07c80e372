//! The results of the SARIF form.
ghost use Rattle.std.specs.Prelude.{◌≡◌, IfOk, option_map};
ghost use Rattle.audit_sarif.specs.Sarif as spec;

use crate::sarif_logs::{Level, SarifResult};
use crate::sarif_rules::warning_id;
use crate::sarif_texts::{fingerprint, hit_message, warning_message};
use audit_advisory::{Advisory, WarningKind};
use audit_lock::Package;
use std::alloc::Global;
use tame_names::{NoMemory, Text};

/// What is reported of a package that an advisory hits.
pub fn hit_result(
    alloc: Global,
    uri: &str,
    locked: &Package,
    advisory: &Advisory,
) -> Result<SarifResult, NoMemory>
    ensures { IfOk result (λ told. told ≡ spec.hit_result uri.now locked.now advisory.now) }
{
    let metadata = &advisory.metadata;
    Ok(SarifResult {
        rule_id: metadata.id.try_clone(alloc)?,
        message: Text::from_string(hit_message(alloc, locked, metadata)?),
        level: Level::Error,
        uri: Text::of(alloc, uri)?,
        fingerprint: Text::from_string(fingerprint(alloc, metadata.id.as_str(), locked)?),
    })
}

/// What is reported of a package that is warned of.
pub fn warning_result(
    alloc: Global,
    uri: &str,
    kind: WarningKind,
    locked: &Package,
    advisory: Option<&Advisory>,
) -> Result<SarifResult, NoMemory>
    ensures { IfOk result (λ told. told ≡ spec.warning_result uri.now kind locked.now
        (option_map (λ a. a.now) advisory.entry)) }
{
    let id = warning_id(kind, advisory);
    Ok(SarifResult {
        rule_id: Text::of(alloc, id)?,
        message: Text::from_string(warning_message(alloc, kind, locked, advisory)?),
        level: Level::Warning,
        uri: Text::of(alloc, uri)?,
        fingerprint: Text::from_string(fingerprint(alloc, id, locked)?),
    })
}
