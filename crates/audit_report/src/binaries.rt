//! What a binary reports of itself.

/// What a binary reports of the packages that it was built from.
#[derive(Clone, Copy, Debug, PartialEq, Eq)]
pub enum Found {
    /// All of them.
    Complete,
    /// Some of them.
    Incomplete,
    /// None of them.
    Nothing,
}
