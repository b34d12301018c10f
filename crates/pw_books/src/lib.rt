//! What seats that share a history know of it, over entries of any kind: the beginning that each has
//! seen, and books of who made which entries. Here nothing runs.
#![tactic(auto)]

mod calls;
mod desk_laws;
mod interleaving;
mod track;
mod view;

pub use calls::Calls;
pub use desk_laws::{
    Histories, each_kind_is_taken, histories_come_about, no_deadlock, seats_are_told, turn_law,
};
pub use interleaving::{
    Tells, runs_ask_no_more, seats_make_histories, serial_runs_are_runs, workers_are_gathered,
    workers_make_histories, workers_make_their_lines,
};
pub use track::Track;
pub use view::View;
