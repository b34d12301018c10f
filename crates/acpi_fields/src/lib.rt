//! The parts of which the objects of processor power are made: integers, registers and packages, at
//! their places in an object (ACPI 6.5, 8.4).
#![tactic(auto)]

mod dependencies;
mod laws;
mod packages;
mod reading;
mod rows;
mod writing;

pub use dependencies::dependency_of;
pub use laws::{meant_field, one_field, writable_field, written_field};
pub use packages::{elements_at, fields_of, is_countable, whole_of};
pub use reading::{count_at, fixed_of, integer_at, number_of, register_at, text_at, u32_of};
pub use rows::{package_of, rows_from};
pub use writing::{coord_number, package_object, register_object};
