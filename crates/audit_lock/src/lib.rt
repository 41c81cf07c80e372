//! Cargo's lockfiles, and the inverse dependency trees of their packages.
//!
//! Promises: a text reads to the packages that the definition gives, or to the first rule that it
//! breaks; a rendered tree shows which packages lead to one, each opened once.
//! Depends on the strings, lists and sinks of `tame_names`, the TOML tables of `toml_tables` and
//! the versions of `semver`.
//!
//! ```ignore
//! // crates/uses/src/audits.rt: put_trees
//! let Ok(tree) = Tree::of(alloc, lockfile) else {
//!     return Err(RenderFault::NoMemory);
//! };
//! let packages = lockfile.packages();
//! for (place, package) in packages.iter().enumerate() {
//!     if package.name.as_str() == name {
//!         tree.render(alloc, lockfile, place, sink)?;
//!     }
//! }
//! Ok(())
//! ```
#![tactic(auto)]

mod laws;
mod listed;
mod lockfiles;
mod naming;
mod parents;
mod rendering;
mod resolving;
mod trees;

pub use laws::{first_broken_package_is_named, lines_are_the_tree};
pub use listed::LockRule;
pub use lockfiles::{Lockfile, LockfileFault, is_default_registry, is_from_default, package_at};
pub use resolving::Package;
pub use trees::{RenderFault, Tree};
