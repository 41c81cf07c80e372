//! Text without its prefix.
ghost use Rattle.std.specs.Prelude.{◌≡◌, option_map};
ghost use Rattle.tame_entry.specs.Prefixes as spec;

/// What follows a prefix, if the text begins with it.
pub fn without_prefix<'t>(text: &'t str, prefix: &str) -> Option<&'t str>
    ensures { option_map (λ t. t.now) result ≡ spec.without_prefix prefix.now text.now }
{
    text.strip_prefix(prefix)
}
