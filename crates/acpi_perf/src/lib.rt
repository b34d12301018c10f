//! Performance and throttling tables: `_PSS`, `_PCT`, `_PPC`, `_PSD`, `_TSS`, `_PTC`, `_TPC` and
//! `_TSD`, from objects and as objects (ACPI 6.5, 8.4.4 and 8.4.5).
#![tactic(auto)]

mod laws;
mod objects;
mod scales;
mod writing;

pub use laws::{
    meant_object, meant_scale, one_meaning, refused_meaning, writable_object, writable_scale,
    written_object, written_scale,
};
pub use objects::{read_control, read_dependency, read_limit};
pub use scales::{read_pss, read_tss};
pub use writing::{write_control, write_dependency, write_limit, write_pss, write_tss};
