//! The members of a version and of a dependency, by their keys.
ghost use Rattle.std.specs.Prelude.{◌≡◌};
ghost use Rattle.tame_records.specs.VersionFlags as spec;

/// What a key means to a version.
#[derive(Clone, Copy)]
pub(crate) enum VersionKey {
    /// The crate's name.
    Name,
    /// The version's text.
    Version,
    /// The list of dependencies.
    Deps,
    /// The digest of the crate file.
    Checksum,
    /// The features.
    Features,
    /// The features that are written in a newer form.
    Features2,
    /// Whether it is yanked.
    Yanked,
    /// One of the members that are a string or null.
    Text,
    /// The number of the line's format.
    Number,
    /// Not a member of a version.
    Other,
}

/// What a key means to a dependency.
#[derive(Clone, Copy)]
pub(crate) enum DependencyKey {
    /// The name in the version's manifest.
    Name,
    /// The requirement on its version.
    Req,
    /// The features of it that are asked for.
    Features,
    /// Whether it is optional.
    Optional,
    /// Whether its default features are asked for.
    DefaultFeatures,
    /// One of the members that are a string or null.
    Text,
    /// What it is used for.
    Kind,
    /// Not a member of a dependency.
    Other,
}

/// Which required members of a dependency were seen.
#[derive(Clone, Copy)]
pub(crate) struct DependencySeen {
    pub(crate) name: bool,
    pub(crate) req: bool,
    pub(crate) features: bool,
    pub(crate) optional: bool,
    pub(crate) default_features: bool,
}

/// The member of a version that has this key.
pub(crate) fn version_key(key: &[u8]) -> VersionKey
    ensures { result ≡ spec.version_key key.now }
{
    if *key == *b"name".as_slice() {
        VersionKey::Name
    } else if *key == *b"vers".as_slice() {
        VersionKey::Version
    } else if *key == *b"deps".as_slice() {
        VersionKey::Deps
    } else if *key == *b"cksum".as_slice() {
        VersionKey::Checksum
    } else if *key == *b"features".as_slice() {
        VersionKey::Features
    } else if *key == *b"yanked".as_slice() {
        VersionKey::Yanked
    } else if *key == *b"links".as_slice() {
        VersionKey::Text
    } else if *key == *b"rust_version".as_slice() {
        VersionKey::Text
    } else if *key == *b"pubtime".as_slice() {
        VersionKey::Text
    } else if *key == *b"features2".as_slice() {
        VersionKey::Features2
    } else if *key == *b"v".as_slice() {
        VersionKey::Number
    } else {
        VersionKey::Other
    }
}

/// The member of a dependency that has this key.
pub(crate) fn dependency_key(key: &[u8]) -> DependencyKey
    ensures { result ≡ spec.dependency_key key.now }
{
    if *key == *b"name".as_slice() {
        DependencyKey::Name
    } else if *key == *b"req".as_slice() {
        DependencyKey::Req
    } else if *key == *b"features".as_slice() {
        DependencyKey::Features
    } else if *key == *b"optional".as_slice() {
        DependencyKey::Optional
    } else if *key == *b"default_features".as_slice() {
        DependencyKey::DefaultFeatures
    } else if *key == *b"target".as_slice() {
        DependencyKey::Text
    } else if *key == *b"package".as_slice() {
        DependencyKey::Text
    } else if *key == *b"kind".as_slice() {
        DependencyKey::Kind
    } else {
        DependencyKey::Other
    }
}
