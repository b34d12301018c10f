//! Idle tables: `_CST`, `_CSD` and `_LPI`, from objects and as objects (ACPI 6.5, 8.4.1 and 8.4.3).
#![tactic(auto)]

mod c_states;
mod laws;
mod lpis;
mod writing;

pub use c_states::{read_csd, read_cst};
pub use laws::{meant_idle, one_idle, refused_idle, writable_idle, written_idle};
pub use lpis::read_lpi;
pub use writing::{write_csd, write_cst, write_lpi};
