//! Audits: whether a printed history is one that a plan and a script allow, and if it isn't, which line is
//! the first that can't be.
#![tactic(auto)]

mod answer;
mod asked;
mod auditing;
mod entry;
mod form;
mod head;
mod index;
mod kind;
mod laws;
mod matching;
mod opening;
mod operations;
mod outcome;
mod performance;
mod power;
mod queues;
mod traced;
mod walk;
mod words;

pub use answer::{Audit, AuditFault, CppcAudit, MOST_BYTES};
pub use auditing::{audit, audit_as, audit_cppc, audit_cppc_trace, audit_trace};
pub use form::Form;
pub use kind::Audited;
pub use laws::{
    cppc_histories_are_traces, cppc_traces_sort_to_histories, histories_are_traces,
    traces_sort_to_histories,
};
pub use performance::Performance;
pub use power::Power;
