//! What an audit says about a package.

/// Why it isn't known whether a version is yanked.
#[derive(Clone, Copy, Debug, PartialEq, Eq)]
pub enum Cause {
    /// The package's name isn't the name of a crate; nothing is asked.
    Name,
    /// The server answered with this status.
    Status(u16),
    /// The body that came doesn't have JSON objects as lines.
    JsonLines,
    /// Some line has no record.
    Record,
    /// The server has no such crate.
    Absent,
    /// No record has the locked version.
    NoVersion,
    /// The exchange failed.
    Wire,
    /// The kept entry couldn't be read.
    Store,
}

/// Whether a locked version is yanked.
#[derive(Clone, Copy, Debug, PartialEq, Eq)]
pub enum Verdict {
    /// The index has it as yanked.
    Yanked,
    /// The index has it as not yanked.
    NotYanked,
    /// It isn't known, for this cause.
    Unchecked(Cause),
}

/// The verdict of the package at a place of the lockfile.
#[derive(Clone, Copy, Debug, PartialEq, Eq)]
pub struct Judged {
    /// The place of the package in the lockfile, from 0.
    pub package: usize,
    /// The verdict on it.
    pub verdict: Verdict,
}
