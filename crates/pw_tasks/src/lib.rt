//! What is done over the blocks of files: `show`, `rewrite`, `check` and `lint`.
#![tactic(auto)]

mod check;
mod json;
mod laws;
mod lint;
mod rewrite;
mod show;
mod tasks;

pub use laws::rewritten_blocks_are_read_alike;
pub use tasks::do_on_blocks;
