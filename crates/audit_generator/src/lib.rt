//! Two audits of a generated world: a lockfile, what a server holds for it, and advisories.
//!
//! Promises: each text is a function of the number of its package, and reads to that package or
//! advisory. Two audits of n packages are exactly what their definition says, and so are the eight
//! lines that sum them up, which are a function of n.
#![tactic(auto)]

mod advisories;
mod generating;
mod hosting;
mod laws;
mod lockfiles;
mod summaries;

pub use advisories::advisory_texts;
pub use generating::{Generated, generate};
pub use hosting::hosted;
pub use laws::{advisory_text_reads_to_its_advisory, lockfile_reads_to_its_packages};
pub use lockfiles::lockfile_text;
pub use summaries::summary_text;
