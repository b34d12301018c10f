//! The records of a domain and of a group (ACPI 6.5, 8.3): of a domain of performance or throttling what its
//! members ask for and their limits, of a group what its members vote for.
#![tactic(auto)]

mod domain;
mod group;
mod setting;

pub use domain::DomainRec;
pub use group::GroupRec;
