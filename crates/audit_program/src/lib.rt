//! The program: from its arguments, the host, and a server's answers to what is printed, a status
//! and an updated cache.
//!
//! Promises: the audits are those of the arguments and of what the host has; `out` and `err` gain
//! exactly their output; the steps of `fix` were started in order; what is made of an audit is
//! exactly that of its definition; each fault has its cause and its line.
//! Uses every crate below it, and no real host: files, decoder, runner, wire, disk and sinks are
//! traits.
//!
//! ```ignore
//! let outcome = run(
//!     alloc, words, &mut files, &mut decoder, &mut runner, &lock, &mut wire, &mut disk,
//!     &mut out, &mut err,
//! );
//! outcome.status // 0 to 3
//! ```
#![tactic(auto)]

mod auditing;
mod binary_runs;
mod generating;
mod input_laws;
mod laws;
mod outcomes;
mod running;
mod task_runs;
mod tasks;

pub use audit_remedies::{Remedy, RunFault, fault_line};
pub use audit_words::{
    BinCommand, CONFIG_FILE, Command, FixCommand, VERSION, VendorCommand, WordsFault, read_words,
};
pub use input_laws::nothing_is_left_of_the_input;
pub use laws::{
    binaries_match_the_server, nothing_is_asked_without_a_lockfile,
    nothing_is_called_where_checks_are_off, offline_runs_in_histories_remember,
    offline_runs_say_what_online_runs_saw, plans_of_runs_in_histories_tell_what_the_server_held,
    plans_of_runs_tell_what_the_server_held, runs_agree, runs_are_complete, runs_in_histories_keep,
    runs_in_histories_match_the_server, runs_match_the_server, texts_need_no_host,
};
pub use outcomes::Outcome;
pub use running::run;
