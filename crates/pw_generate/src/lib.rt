//! Machines and scripts of a given size: containers of eight processors, and a load for them.
#![tactic(auto)]

mod block;
mod counts;
mod ends;
mod laws;
mod names;
mod planned_laws;
mod printing;
mod script;
mod summary_laws;
mod tables;

pub use block::generate_block;
pub use laws::{loads_can_be_asked, machines_are_writable, names_tell_numbers};
pub use planned_laws::{generated_loads_fit, generated_machines_have_plans};
pub use printing::{print_summary, print_summary_known};
pub use script::generate_script;
pub use summary_laws::{counts_add_up, counts_are_of_requests, histories_have_one_summary};
pub use tables::{CPUS_EACH, MOST_CONTAINERS};
