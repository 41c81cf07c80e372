//! The tables of the settings and their keys.
ghost use Rattle.std.specs.Prelude.{◌≡◌, codes};
ghost use Rattle.audit_settings.specs.Keys.{is_in, keys, section_of};
ghost use Rattle.audit_settings.specs.Keys as spec;

/// A table of the settings.
#[derive(Clone, Copy, Debug, PartialEq, Eq)]
pub enum Section {
    /// `[advisories]`.
    Advisories,
    /// `[database]`.
    Database,
    /// `[output]`.
    Output,
    /// `[target]`.
    Target,
    /// `[yanked]`.
    Yanked,
}

fn is_advisories_key(key: &str) -> bool
    ensures { result ≡ is_in key.now (keys Section.Advisories) }
{
    match key {
        "ignore" => true,
        "informational_warnings" => true,
        "severity_threshold" => true,
        _ => false,
    }
}

fn is_database_key(key: &str) -> bool
    ensures { result ≡ is_in key.now (keys Section.Database) }
{
    match key {
        "path" => true,
        "url" => true,
        "fetch" => true,
        "stale" => true,
        _ => false,
    }
}

fn is_output_key(key: &str) -> bool
    ensures { result ≡ is_in key.now (keys Section.Output) }
{
    match key {
        "deny" => true,
        "format" => true,
        "quiet" => true,
        "show_tree" => true,
        _ => false,
    }
}

fn is_target_key(key: &str) -> bool
    ensures { result ≡ is_in key.now (keys Section.Target) }
{
    match key {
        "arch" => true,
        "os" => true,
        _ => false,
    }
}

fn is_yanked_key(key: &str) -> bool
    ensures { result ≡ is_in key.now (keys Section.Yanked) }
{
    match key {
        "enabled" => true,
        "update_index" => true,
        _ => false,
    }
}

impl Section {
    /// The table with a name, if there is one.
    pub fn named(name: &str) -> Option<Section>
        ensures { result ≡ section_of name.now }
    {
        match name {
            "advisories" => Some(Section::Advisories),
            "database" => Some(Section::Database),
            "output" => Some(Section::Output),
            "target" => Some(Section::Target),
            "yanked" => Some(Section::Yanked),
            _ => None,
        }
    }

    /// The table's name.
    pub fn name(self) -> &'static str
        ensures { result.now ≡ spec.name self }
    {
        match self {
            Section::Advisories => "advisories",
            Section::Database => "database",
            Section::Output => "output",
            Section::Target => "target",
            Section::Yanked => "yanked",
        }
    }

    /// Whether the table has this key.
    pub fn has_key(self, key: &str) -> bool
        ensures { result ≡ is_in key.now (keys self) }
    {
        match self {
            Section::Advisories => is_advisories_key(key),
            Section::Database => is_database_key(key),
            Section::Output => is_output_key(key),
            Section::Target => is_target_key(key),
            Section::Yanked => is_yanked_key(key),
        }
    }
}
