//! Histories as texts, of any kind of coordination: what is printed of one, and what that tells.
#![tactic(auto)]

mod kind;
mod printing;
mod segments;

pub use kind::Kind;
pub use printing::print_history;
pub use segments::segments_known;
