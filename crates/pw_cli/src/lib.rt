//! The program: the words of a command line, the command's work, and what it prints and operates.
#![tactic(auto)]

mod laws;
mod program;

pub use laws::{
    audits_keep_their_promise, checks_keep_their_promise, drives_keep_their_promise,
    loads_keep_their_promise, rewrites_keep_their_promise, runs_of_cppc_keep_their_promise,
    shows_keep_their_promise, statuses_have_causes, tasks_keep_their_promise,
};
pub use program::run;
pub use pw_generate::{generate_block, generate_script, print_summary};
pub use pw_runs::Outcome;
