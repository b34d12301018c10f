//! A request walks over its records, one in hand at a time: where it begins, what it makes of the record
//! that comes next and which comes then, its answer and operations at the end, and how it is undone.
#![tactic(auto)]

mod beginning;
mod climbing;
mod grouping;
mod levels;
mod place;
mod scaling;
mod turning;
mod turns;

pub use beginning::begin;
pub use climbing::{step_node, unstep_node};
pub use grouping::{step_group, unstep_group};
pub use levels::{ask_domain, limit_domain};
pub use place::{Climb, OldLevel, OldState, OldVote, Place};
pub use scaling::{step_domain, unstep_domain};
pub use turning::{Voted, chain_with, goes_on, set_vote};
pub use turns::{next_turn, record_count, scaled_count};
