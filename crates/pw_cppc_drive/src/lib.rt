//! The coordinator of one caller over a script of requests for performance (ACPI 6.5, 8.4.6.1.2).
#![tactic(auto)]

mod driving;
mod gathering;
mod index;
mod kind;
mod laws;
mod line;
mod lists;
mod parsing;
mod paths;
mod printing;
mod running;
mod script;
mod seating;
mod text_laws;
mod text_values;
mod words;
mod workers;
mod working;

pub use driving::{CppcDriven, cppc_serial};
pub use laws::{cppc_texts_tell, serial_is_lawful};
pub use parsing::cppc_parse;
pub use paths::cppc_path_texts;
pub use printing::{cppc_print, cppc_print_known};
pub use script::{CppcLine, CppcScript};
pub use text_laws::{
    cppc_beginnings_are_starts, cppc_beginnings_complete, cppc_lines_follow,
    cppc_texts_are_of_workers, cppc_texts_of_scripts_tell,
};
pub use text_values::cppc_plans_have_segments;
pub use workers::cppc_drive;
