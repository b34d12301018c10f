//! The plan of a machine from the objects of its definition blocks: its containers and processors, their
//! tables, and notes of what counts as absent (ACPI 6.5, 8.4).
#![tactic(auto)]

mod depths;
mod fault;
mod finding;
mod idle;
mod laws;
mod machine;
mod names;
mod note;
mod planning;
mod said;
mod scales;
mod survey;
mod tables;

pub use fault::{BuildFault, ObjectFault};
pub use laws::{
    blocks_are_countable, control_registers_are_not_null, idle_rows_are_of_states,
    notes_have_causes, one_plan, one_survey, parents_are_innermost, processors_and_containers,
    surveys_tell_plans, tables_are_meant,
};
pub use note::{Note, NoteKind};
pub use planning::{plan, survey_objects};
pub use survey::{Outcome, Survey};
