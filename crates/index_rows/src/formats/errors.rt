//! The texts of errors, as users see them.
use row_fixtures::{Row, RowFault};
use std::alloc::{AllocError, Global};
use std::fmt;
use tame_names::{
    CacheError, Error, FileLockError, HttpError, InvalidJsonLines, InvalidKrateName, InvalidUrl,
    InvalidUrlError, IoKind, LocalRegistryError, LockError, NoMemory, ReservedNameKind, Text,
};
use tame_records::ChksumParseError;

fn text_of<T: fmt::Display + Drop>(alloc: Global, value: T) -> Result<String, AllocError> {
    format!(in alloc; "{value}")
}

const RESERVED: InvalidKrateName = InvalidKrateName::ReservedName {
    reserved: "nul",
    kind: ReservedNameKind::Windows,
};

const CHARACTER: InvalidKrateName = InvalidKrateName::InvalidCharacter {
    invalid: '.',
    index: 2,
};

const STATUS: HttpError = HttpError::StatusCode {
    code: 401,
    msg: "no",
};

/// A url without a scheme.
fn url_of(alloc: Global) -> Result<InvalidUrl, RowFault> {
    Ok(InvalidUrl {
        url: Text::of(alloc, "x")?,
        source: InvalidUrlError::MissingScheme,
    })
}

/// A lock that another process holds.
fn lock_of(alloc: Global) -> Result<FileLockError, RowFault> {
    Ok(FileLockError {
        path: Text::of(alloc, "d/l")?,
        source: LockError::Contested,
    })
}

/// A crate file that isn't there.
fn missing_of(alloc: Global) -> Result<LocalRegistryError, RowFault> {
    Ok(LocalRegistryError::MissingVersion {
        name: Text::of(alloc, "a")?,
        version: Text::of(alloc, "0.1.0")?,
    })
}

/// A crate file with another digest.
fn mismatch_of(alloc: Global) -> Result<LocalRegistryError, RowFault> {
    Ok(LocalRegistryError::ChecksumMismatch {
        name: Text::of(alloc, "a")?,
        version: Text::of(alloc, "0.1.0")?,
    })
}

/// `Error` that holds another error.
fn of_causes(alloc: Global, variant: &str) -> Result<String, RowFault> {
    let error = match variant {
        "Cache" => Error::from(CacheError::OutdatedRevision),
        "InvalidKrateName" => Error::from(RESERVED),
        "InvalidUrl" => Error::from(url_of(alloc)?),
        "Http" => Error::from(HttpError::Http),
        "Lock" => Error::from(lock_of(alloc)?),
        "InvalidJsonLines" => Error::from(InvalidJsonLines::Empty),
        "Local" => Error::from(missing_of(alloc)?),
        "NoMemory" => Error::from(NoMemory),
        _ => return Err(RowFault::Unread),
    };
    Ok(text_of(alloc, error)?)
}

/// `Error`, with this text where it holds one.
fn of_index(alloc: Global, variant: &str, held: &str) -> Result<String, RowFault> {
    let held = Text::of(alloc, held)?;
    let error = match variant {
        "NonUtf8Path" => Error::NonUtf8Path(held),
        "NonUtf8EnvVar" => Error::NonUtf8EnvVar(held),
        "UnknownRegistry" => Error::UnknownRegistry(held),
        "Io" => Error::Io(IoKind::NotFound),
        "IoPath" => Error::IoPath(IoKind::AlreadyExists(2), held),
        "Json" => Error::Json { line: 1 },
        "Toml" => Error::Toml,
        "NoCrateVersions" => Error::NoCrateVersions,
        "Semver" => Error::Semver,
        "NoCargoVersion" => Error::NoCargoVersion,
        _ => return of_causes(alloc, variant),
    };
    Ok(text_of(alloc, error)?)
}

fn of_reserved(alloc: Global, variant: &str) -> Result<String, RowFault> {
    let kind = match variant {
        "Keyword" => ReservedNameKind::Keyword,
        "Artifact" => ReservedNameKind::Artifact,
        "Windows" => ReservedNameKind::Windows,
        "Standard" => ReservedNameKind::Standard,
        _ => return Err(RowFault::Unread),
    };
    Ok(text_of(alloc, kind)?)
}

fn of_names(alloc: Global, variant: &str) -> Result<String, RowFault> {
    let fault = match variant {
        "InvalidLength" => InvalidKrateName::InvalidLength(71),
        "InvalidCharacter" => CHARACTER,
        "ReservedName" => RESERVED,
        _ => return Err(RowFault::Unread),
    };
    Ok(text_of(alloc, fault)?)
}

fn of_entries(alloc: Global, variant: &str) -> Result<String, RowFault> {
    let error = match variant {
        "InvalidCacheEntry" => CacheError::InvalidCacheEntry,
        "OutdatedCacheVersion" => CacheError::OutdatedCacheVersion,
        "UnknownCacheVersion" => CacheError::UnknownCacheVersion,
        "UnknownIndexVersion" => CacheError::UnknownIndexVersion,
        "OtherIndex" => CacheError::OtherIndex,
        "OutdatedRevision" => CacheError::OutdatedRevision,
        "InvalidCrateVersion" => CacheError::InvalidCrateVersion,
        _ => return Err(RowFault::Unread),
    };
    Ok(text_of(alloc, error)?)
}

fn of_lines(alloc: Global, variant: &str) -> Result<String, RowFault> {
    let fault = match variant {
        "Empty" => InvalidJsonLines::Empty,
        "NotJson" => InvalidJsonLines::NotJson(3),
        _ => return Err(RowFault::Unread),
    };
    Ok(text_of(alloc, fault)?)
}

fn of_urls(alloc: Global, variant: &str) -> Result<String, RowFault> {
    let error = match variant {
        "MissingSparse" => InvalidUrlError::MissingSparse,
        "UnknownSchemeModifier" => InvalidUrlError::UnknownSchemeModifier,
        "MissingScheme" => InvalidUrlError::MissingScheme,
        "SparseForGit" => InvalidUrlError::SparseForGit,
        _ => return Err(RowFault::Unread),
    };
    Ok(text_of(alloc, error)?)
}

fn of_http(alloc: Global, variant: &str) -> Result<String, RowFault> {
    let error = match variant {
        "StatusCode" => STATUS,
        "Http" => HttpError::Http,
        "InvalidHeaderValue" => HttpError::InvalidHeaderValue,
        _ => return Err(RowFault::Unread),
    };
    Ok(text_of(alloc, error)?)
}

fn of_locks(alloc: Global, variant: &str) -> Result<String, RowFault> {
    let error = match variant {
        "Open" => LockError::Open,
        "Readonly" => LockError::Readonly,
        "CreateDir" => LockError::CreateDir,
        "NotSupported" => LockError::NotSupported,
        "Lock" => LockError::Lock,
        "TimedOut" => LockError::TimedOut,
        "Contested" => LockError::Contested,
        _ => return Err(RowFault::Unread),
    };
    Ok(text_of(alloc, error)?)
}

fn of_registries(alloc: Global, variant: &str) -> Result<String, RowFault> {
    let error = match variant {
        "MissingVersion" => missing_of(alloc)?,
        "ChecksumMismatch" => mismatch_of(alloc)?,
        _ => return Err(RowFault::Unread),
    };
    Ok(text_of(alloc, error)?)
}

fn of_digests(alloc: Global, variant: &str) -> Result<String, RowFault> {
    let error = match variant {
        "InvalidLength" => ChksumParseError::InvalidLength(63),
        "InvalidValue" => ChksumParseError::InvalidValue('g'),
        _ => return Err(RowFault::Unread),
    };
    Ok(text_of(alloc, error)?)
}

/// `error TYPE VARIANT [TEXT]`: the text of an error; of `Error` with this text where it holds one.
pub fn error(alloc: Global, mut words: Row<'_>) -> Result<String, RowFault> {
    let kind = words.word();
    let variant = words.word();
    match kind {
        "Error" => of_index(alloc, variant, words.word()),
        "ReservedNameKind" => of_reserved(alloc, variant),
        "InvalidKrateName" => of_names(alloc, variant),
        "CacheError" => of_entries(alloc, variant),
        "InvalidJsonLines" => of_lines(alloc, variant),
        "InvalidUrl" => Ok(text_of(alloc, url_of(alloc)?)?),
        "InvalidUrlError" => of_urls(alloc, variant),
        "HttpError" => of_http(alloc, variant),
        "FileLockError" => Ok(text_of(alloc, lock_of(alloc)?)?),
        "LockError" => of_locks(alloc, variant),
        "LocalRegistryError" => of_registries(alloc, variant),
        "ChksumParseError" => of_digests(alloc, variant),
        _ => Err(RowFault::Unread),
    }
}
