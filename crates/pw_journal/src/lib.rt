//! The journal of a coordinator: who asked for what, in order, and the registers that were
//! operated for it.
#![tactic(auto)]

mod journal;
mod operating;
mod past;
mod recording;
mod reported;

pub use journal::Journal;
pub use operating::operate_all;
pub use pw_model::HistoryEntry;
pub use reported::ReportedRegisters;
