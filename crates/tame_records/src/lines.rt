//! The lines of an index file.
ghost use Rattle.std.specs.Prelude.{◌≡◌};
ghost use Rattle.tame_records.specs.Lines as spec;

use tame_names::without_end;

/// The bytes without the newlines that end them.
pub fn trimmed(bytes: &[u8]) -> &[u8]
    ensures { result.now ≡ spec.trimmed bytes.now }
{
    without_end(bytes, b'\n')
}
