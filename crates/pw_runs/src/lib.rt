//! The command `drive`: a script's requests on the machine that blocks describe, and the history that is
//! printed.
#![tactic(auto)]

mod audit_print;
mod audit_refusal;
mod auditing;
mod cppc_given;
mod cppc_planned;
mod cppc_print;
mod cppc_running;
mod cppc_script;
mod cppc_working;
mod given;
mod history;
mod machine;
mod outcome;
mod planned;
mod print;
mod refusal;
mod running;
mod say;
mod script;
mod trial;
mod trial_print;
mod working;

pub use auditing::{audit, audit_cppc};
pub use cppc_running::cppc_serially;
pub use cppc_working::cppc;
pub use given::read_given;
pub use outcome::{Outcome, handed_on};
pub use print::{end_failed, failed_after};
pub use refusal::{refuse_script, say_register};
pub use running::drive_serially;
pub use say::{put_between, say_number};
pub use trial::generate;
pub use working::drive;
