//! The environment, and the current folder.
use crate::calls::current_path;
use std::env::{self, VarError};
use std::io::{self, ErrorKind};
use std::rt::Env;
use tame_names::{EnvValue, Text};

/// The value of a variable of the environment.
pub fn variable<R: Env + AllocGlobal>(rt: &R, name: &str) -> io::Result<EnvValue> {
    match env::var(rt, name) {
        Ok(value) => Ok(EnvValue::Value(Text::from_string(value))),
        Err(VarError::NotPresent) => Ok(EnvValue::Unset),
        Err(VarError::NotUnicode) => Ok(EnvValue::NotUtf8),
        Err(VarError::OutOfMemory) => Err(io::Error::from(ErrorKind::OutOfMemory)),
    }
}

/// The path of the current folder. One that isn't UTF-8 is an error.
pub fn current_folder<R: Env + AllocGlobal>(rt: &R) -> io::Result<Text> {
    Ok(Text::from_string(current_path(rt)?.into_string()))
}
