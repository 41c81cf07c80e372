//! Configurations of an index, and download urls.
use row_fixtures::{Row, RowFault};
use std::alloc::Global;
use tame_entry::{IndexConfig, version_url};
use tame_names::Text;
use tame_records::IndexVersion;

fn config_at(alloc: Global, dl: &str) -> Result<IndexConfig, RowFault> {
    Ok(IndexConfig {
        dl: Text::of(alloc, dl)?,
        api: None,
        auth_required: false,
    })
}

/// `url DL NAME VERSION`: where a version is downloaded from.
pub fn url(alloc: Global, mut words: Row<'_>) -> Result<String, RowFault> {
    let config = config_at(alloc, words.word())?;
    let name = words.name(alloc)?;
    let url = config.download_url(alloc, name, words.word())?;
    Ok(String::from_str(alloc, url.as_str())?)
}

/// `version-url DL NAME VERSION`: the same of a record, whose name may be none.
pub fn url_of_version(alloc: Global, mut words: Row<'_>) -> Result<String, RowFault> {
    let config = config_at(alloc, words.word())?;
    let name = words.word();
    let version = IndexVersion::fake(alloc, name, words.word())?;
    match version_url(alloc, &version, &config)? {
        Some(url) => Ok(String::from_str(alloc, url.as_str())?),
        None => Ok(String::from_str(alloc, "nothing")?),
    }
}

/// The members of a configuration.
fn config_line(alloc: Global, config: &IndexConfig) -> Result<String, RowFault> {
    let api = match &config.api {
        Some(api) => api.as_str(),
        None => "none",
    };
    Ok(format!(in alloc; "{} {api} {}", config.dl, config.auth_required)?)
}

/// `config BYTES`: the members of a configuration, or that it is refused.
pub fn config(alloc: Global, mut words: Row<'_>) -> Result<String, RowFault> {
    let bytes = words.bytes(alloc)?;
    match IndexConfig::from_slice(alloc, bytes.as_slice()) {
        Ok(config) => config_line(alloc, &config),
        Err(_) => Ok(String::from_str(alloc, "refused")?),
    }
}

/// `order BYTES BYTES`: how two configurations are ordered, or that one is refused.
pub fn order(alloc: Global, mut words: Row<'_>) -> Result<String, RowFault> {
    let (one, other) = (words.bytes(alloc)?, words.bytes(alloc)?);
    let Ok(one) = IndexConfig::from_slice(alloc, one.as_slice()) else {
        return Ok(String::from_str(alloc, "refused")?);
    };
    let Ok(other) = IndexConfig::from_slice(alloc, other.as_slice()) else {
        return Ok(String::from_str(alloc, "refused")?);
    };
    let ordering = one.cmp(&other);
    Ok(format!(in alloc; "{ordering:?}")?)
}
