//! What `check` prints: the plan of a machine with its notes, or why there is none.
#![tactic(auto)]

mod domains;
mod machine;
mod names;
mod noting;
mod printing;
mod refusing;
mod words;

pub use printing::print_check;
pub use refusing::put_refusal;
