//! Audits of what binaries say about themselves: a decoder turns a binary's bytes into the text of
//! a lockfile. The limits are a value of their own, passed to each call, and not a part of the
//! auditor; and so is what is denied, for the summary.
//!
//! Promises: one answer for each path, in their order; each audit is that of the decoded text, from
//! the end of the one before; a cache that was kept stays kept.
//! Depends on the auditor of `audit_core` and its dependencies, and on `memchr`.
//!
//! ```text
//! #cargo-lock begin
//! version = 4
//! #cargo-lock end
//! ```
#![tactic(auto)]

mod answers;
mod auditing;
mod decoders;
mod laws;
mod limits;
mod memory_decoders;
mod opening;
mod payloads;
mod plain_decoders;
mod summaries;

pub use answers::{
    BinariesAudit, BinaryAnswer, BinaryFault, MultiFileReportSummary, PackagesFound,
};
pub use auditing::{audit_binaries, audit_binary};
pub use decoders::{DecodeFault, Decoded, Decoder};
pub use laws::answers_are_exact;
pub use limits::BinaryLimits;
pub use memory_decoders::MemDecoder;
pub use plain_decoders::PlainDecoder;
pub use summaries::summary_status;
