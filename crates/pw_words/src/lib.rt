//! Words of a command line to a command, by `clap`.
#![tactic(auto)]

mod app;
mod command;
mod count;
mod laws;
mod matches;
mod order;

pub use command::{Command, Review, Task, Way, WordsFault, command_of};
pub use laws::{
    few_blocks, few_clusters, one_command, other_words, same_words, stated_words_are_taken,
    taken_words, usual_line,
};
