//! Scripts driven on registers: every request of a script in its order, by the records of the plan.
#![tactic(auto)]

mod driving;
mod gathering;
mod lists;
mod records;
mod replying;
mod running;
mod seating;
mod walking;
mod workers;
mod working;

pub use driving::{Driven, serial};
pub use records::Records;
pub use workers::{Drove, drive};
