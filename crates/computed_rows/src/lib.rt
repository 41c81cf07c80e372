//! Rows that the definitions compute: equations whose left sides are definitions at written values.
#![tactic(auto)]

pub mod formats;
pub mod program;
