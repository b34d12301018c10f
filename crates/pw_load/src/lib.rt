//! What a command works on, step by step: the blocks of files, their objects, the plan of the machine.
//! Each step says why it fails, and the status.
#![tactic(auto)]

mod ending;
mod lines;
mod loading;
mod placing;
mod planning;
mod refusal;
mod saying;

pub use ending::{printed, read_fault, say, without_memory, write_fault};
pub use loading::load;
pub use placing::place;
pub use planning::make_plan;
