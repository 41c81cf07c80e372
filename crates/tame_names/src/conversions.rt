//! Errors passed on: each becomes the variant that holds it.
use crate::errors::{
    CacheError, Error, FileLockError, HttpError, InvalidJsonLines, InvalidKrateName, InvalidUrl,
    LocalRegistryError, NoMemory,
};

impl From<CacheError> for Error {
    ghost use Rattle.std.specs.Prelude.{◌≡◌};
    ghost use Rattle.tame_names.specs.declared.errors.Error.TheVariants.{Cache as variant};

    ghost from_gives = { λ x e. e ≡ variant x };

    fn from(error: CacheError) -> Error {
        Error::Cache(error)
    }
}

impl From<InvalidKrateName> for Error {
    ghost use Rattle.std.specs.Prelude.{◌≡◌};
    ghost use Rattle.tame_names.specs.declared.errors.Error.TheVariants.{InvalidKrateName as variant};

    ghost from_gives = { λ x e. e ≡ variant x };

    fn from(error: InvalidKrateName) -> Error {
        Error::InvalidKrateName(error)
    }
}

impl From<InvalidUrl> for Error {
    ghost use Rattle.std.specs.Prelude.{◌≡◌};
    ghost use Rattle.tame_names.specs.declared.errors.Error.TheVariants.{InvalidUrl as variant};

    ghost from_gives = { λ x e. e ≡ variant x };

    fn from(error: InvalidUrl) -> Error {
        Error::InvalidUrl(error)
    }
}

impl From<HttpError> for Error {
    ghost use Rattle.std.specs.Prelude.{◌≡◌};
    ghost use Rattle.tame_names.specs.declared.errors.Error.TheVariants.{Http as variant};

    ghost from_gives = { λ x e. e ≡ variant x };

    fn from(error: HttpError) -> Error {
        Error::Http(error)
    }
}

impl From<FileLockError> for Error {
    ghost use Rattle.std.specs.Prelude.{◌≡◌};
    ghost use Rattle.tame_names.specs.declared.errors.Error.TheVariants.{Lock as variant};

    ghost from_gives = { λ x e. e ≡ variant x };

    fn from(error: FileLockError) -> Error {
        Error::Lock(error)
    }
}

impl From<InvalidJsonLines> for Error {
    ghost use Rattle.std.specs.Prelude.{◌≡◌};
    ghost use Rattle.tame_names.specs.declared.errors.Error.TheVariants.{InvalidJsonLines as variant};

    ghost from_gives = { λ x e. e ≡ variant x };

    fn from(error: InvalidJsonLines) -> Error {
        Error::InvalidJsonLines(error)
    }
}

impl From<LocalRegistryError> for Error {
    ghost use Rattle.std.specs.Prelude.{◌≡◌};
    ghost use Rattle.tame_names.specs.declared.errors.Error.TheVariants.{Local as variant};

    ghost from_gives = { λ x e. e ≡ variant x };

    fn from(error: LocalRegistryError) -> Error {
        Error::Local(error)
    }
}

impl From<NoMemory> for Error {
    ghost use Rattle.std.specs.Prelude.{◌≡◌};
    ghost use Rattle.tame_names.specs.declared.errors.Error.TheVariants.{NoMemory as variant};

    ghost from_gives = { λ _ e. e ≡ variant };

    fn from(_: NoMemory) -> Error {
        Error::NoMemory
    }
}
