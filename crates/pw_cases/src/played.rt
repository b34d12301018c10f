//! Runs of scripts on registers in memory, by one caller and by workers, with what came of them as text, and
//! a gate at which requests meet; and the machines, loads and blocks that are generated.

mod gates;
mod made;
mod running;
mod telling;

pub(crate) use gates::Meeting;
pub(crate) use made::{block_bytes, machine_of};
pub(crate) use running::{play, play_alone};
pub(crate) use telling::Played;
