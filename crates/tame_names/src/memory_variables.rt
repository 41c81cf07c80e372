//! The environment of a host in memory.
ghost use Rattle.std.specs.Prelude.{◌≡◌, Ok, IfOk, IfSome};
ghost use Rattle.tame_names.specs.MemoryFiles.{value_free, value_in};

use crate::errors::NoMemory;
use crate::host::EnvValue;
use crate::texts::Text;
use std::alloc::Global;

/// A variable of the environment in memory.
#[derive(Drop)]
pub struct MemVariable {
    /// Its name.
    pub name: Text,
    /// Its value.
    pub value: EnvValue,
}

impl EnvValue {
    /// A copy of this value.
    fn copied(&self, alloc: Global) -> Result<EnvValue, NoMemory>
        ensures same { IfOk result (λ copy. copy ≡ self.now) }
        ensures free { IfSome (value_free self.now) (λ a. result ≡ Ok a) }
    {
        match self {
            EnvValue::Unset => Ok(EnvValue::Unset),
            EnvValue::NotUtf8 => Ok(EnvValue::NotUtf8),
            EnvValue::Value(text) => Ok(EnvValue::Value(text.try_clone(alloc)?)),
        }
    }
}

/// The value of a variable: that of the first with this name.
pub(crate) fn value_of(
    alloc: Global,
    variables: &[MemVariable],
    name: &str,
) -> Result<EnvValue, NoMemory>
    ensures first { IfOk result (λ value. value ≡ value_in variables.now name.now) }
    ensures free { IfSome (value_free (value_in variables.now name.now)) (λ a. result ≡ Ok a) }
{
    for variable in variables {
        if variable.name.as_str() == name {
            return variable.value.copied(alloc);
        }
    }
    Ok(EnvValue::Unset)
}
