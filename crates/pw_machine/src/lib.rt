//! The coordinator's turns as plain data: who may take, release, split and join, and what each seat
//! knows. Here nothing runs: a machine, the kinds of its steps, and laws over every list of them.
#![tactic(auto)]

mod laws;
mod part;
mod view;
mod walk_laws;

pub use laws::{
    each_kind_is_taken, histories_come_about, no_deadlock, requests_end_soon, seats_are_told,
    turn_law, two_seats_meet,
};
pub use part::{Noted, Part};
pub use view::{Held, Met, View};
pub use walk_laws::{walks_stand_at_records, walks_tell_requests, walks_tell_turns};
