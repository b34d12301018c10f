//! Continuous performance control: `_CPC` of revisions 2 and 3, from objects and as objects
//! (ACPI 6.5, 8.4.6).
#![tactic(auto)]

mod laws;
mod reading;
mod writing;

pub use laws::{meant_cpc, one_cpc, refused_cpc, writable_cpc, written_cpc};
pub use reading::read_cpc;
pub use writing::write_cpc;
