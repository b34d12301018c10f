//! Which limit is to stand when the platform tells that `_PPC` or `_TPC` changed (ACPI 6.5, 8.4.5.3 and
//! 8.4.4.3).
#![tactic(auto)]

mod answers;
mod handlers;
mod laws;

pub use answers::{follow, step};
pub use handlers::Handlers;
pub use laws::limits_are_own;
