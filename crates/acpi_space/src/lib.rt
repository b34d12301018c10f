//! The objects of definition blocks at their places in the namespace (ACPI 6.5, 5.3).
#![tactic(auto)]

mod blocks;
mod building;
mod fault;
mod labels;
mod laws;
mod object;
mod passed;
mod space;
mod terms;
mod tree;

pub use fault::SpaceFault;
pub use laws::{first_dsdt_tells_widths, method_names, opened_place};
pub use object::{Object, Placed};
pub use passed::{PassedOver, passed_over};
pub use space::Space;
