//! The coordinator of one caller (ACPI 6.5, chapter 8): it answers idle, performance and throttling
//! requests on a plan, keeps what was asked, and says which registers are operated, in order.
#![tactic(auto)]

mod accepting;
mod c_states;
mod chain;
mod changing;
mod composite;
mod domains;
mod opening;
mod reads;
mod refusal;
mod replaying;
mod setting;
mod state;
mod stepping;
mod tree;

pub use chain::{chain_of_one, extended};
pub use changing::capped;
pub use composite::{chain_composite, own_register};
pub use domains::standing_now;
pub use opening::{open_all, opening_limit};
pub use pw_model::{HistoryEntry, Reply, Vote};
pub use pw_regs::Ops;
pub use refusal::fixed_answer;
pub use replaying::{replay, replay_on};
pub use setting::{set_each, set_on};
pub use state::State;
pub use tree::{container_state, row};
