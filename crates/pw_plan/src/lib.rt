//! The plan of a machine: its tree of containers and processors, its dependency domains and groups,
//! made of the tables that its firmware gives (ACPI 6.5, chapter 8).
#![tactic(auto)]

mod bounds;
mod domain;
mod domains;
mod fault;
mod groups;
mod index;
mod laws;
mod limits;
mod parts;
mod parts_check;
mod plan;
mod request;
mod tables;
mod tree;

pub use bounds::covers;
pub use domain::{Child, Domain, DomainKind, Group};
pub use fault::PlanFault;
pub use index::{CpuIndex, Membership};
pub use laws::{domains_are_known, first_places_are_told, indices_show_first_places};
pub use limits::in_32_bits;
pub use parts::{ContainerParts, CpuParts, Scale};
pub use parts_check::parts_ok;
pub use plan::Plan;
pub use request::{ANY_LATENCY, MOST_OF_A_REQUEST, Request};
