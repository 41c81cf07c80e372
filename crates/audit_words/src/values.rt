//! The values of options.
ghost use Rattle.std.specs.Prelude.{◌≡◌, option_map};
ghost use Rattle.std.specs.Str.{all_ascii_digits};
ghost use Rattle.audit_words.specs.Values.{joined_value, name_part};
ghost use Rattle.audit_words.specs.Values as spec;

use audit_settings::Color;

/// The value that says when output is coloured.
pub fn color_of(value: &str) -> Option<Color>
    ensures { result ≡ spec.color_of value.now }
{
    match value {
        "always" => Some(Color::Always),
        "auto" => Some(Color::Auto),
        "never" => Some(Color::Never),
        _ => None,
    }
}

/// The text, if it has at least one byte.
pub fn unless_empty(value: &str) -> Option<&str>
    ensures { option_map (λ text. text.now) result ≡ spec.unless_empty value.now }
{
    if value.is_empty() { None } else { Some(value) }
}

/// Whether there are only digits.
fn is_digits(bytes: &[u8]) -> bool
    ensures { result ≡ all_ascii_digits bytes.now }
{
    for byte in bytes {
        if !byte.is_ascii_digit() {
            return false;
        }
    }
    true
}

/// The number that digits write, if there is nothing else and it is at most 2^64 - 1.
pub fn number(value: &str) -> Option<u64>
    ensures { result ≡ spec.number value.now }
{
    if !is_digits(value.as_bytes()) {
        return None;
    }
    match value.parse::<u64>() {
        Ok(number) => Some(number),
        Err(_) => None,
    }
}

/// Whether so many packages can be made: 1 to 5,000.
pub fn is_makeable(count: u64) -> bool
    ensures { result ≡ spec.is_makeable count }
{
    1 <= count && count <= 5000
}

/// The number of packages that are to be made.
pub fn packages_of(word: &str) -> Option<u64>
    ensures { result ≡ spec.packages_of word.now }
{
    match number(word) {
        None => None,
        Some(count) => {
            if is_makeable(count) {
                Some(count)
            } else {
                None
            }
        }
    }
}

/// What comes after a string's beginning.
pub fn after<'t>(text: &'t str, beginning: &str) -> Option<&'t str>
    ensures { option_map (λ t. t.now) result ≡ spec.after beginning.now text.now }
{
    text.strip_prefix(beginning)
}

/// A value without the `=` that may come before it.
pub fn without_equals(value: &str) -> &str
    ensures { result.now ≡ spec.without_equals value.now }
{
    match after(value, "=") {
        Some(rest) => rest,
        None => value,
    }
}

/// The name before the first `=`, and the value after it, if there is one.
pub fn cut_equals(text: &str) -> (&str, Option<&str>)
    ensures name { result.0.now ≡ name_part text.now }
    ensures value { option_map (λ v. v.now) result.1 ≡ joined_value text.now }
{
    match text.split_once('=') {
        Some((name, value)) => (name, Some(value)),
        None => (text, None),
    }
}
