//! A local registry of the packages that were audited.
//!
//! Promises: each package is checked whole before the next, and all before anything is written; a
//! refusal is the first of a table; the created folder holds exactly the deciding records of the
//! audited versions and their crate files, and agrees with its index.
//! Depends on the builder of `tame_local`, the cache of `tame_sparse` and the audits of
//! `audit_core`.
//!
//! ```ignore
//! let made = vendor(alloc, &audited, &index, "crates", to, &mut files, &lock, &mut disk)?;
//! println!(rt; "vendored {} packages, {} bytes", made.packages, made.bytes)?;
//! ```
#![tactic(auto)]

mod building;
mod checks;
mod faults;
mod grouping;
mod laws;
mod looking;
mod vendoring;

pub use faults::VendorFault;
pub use laws::{
    each_pair_is_looked_at_once, hosts_in_memory_are_bare, hosts_in_memory_stand_plain,
    packages_of_lockfiles_are_versioned,
};
pub use vendoring::{Vendored, vendor};
