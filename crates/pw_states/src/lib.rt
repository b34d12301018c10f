//! What `lint` finds of states and levels as such: of idle states one after the other and beside those of the
//! container around, of C states, of how fast performance and throttling states are, and of `_CPC`; and of
//! objects that mean nothing.
#![tactic(auto)]

mod c_states;
mod cpcs;
mod idle;
mod objects;
mod parents;
mod rates;

pub use c_states::find_in_cst;
pub use cpcs::{Range, are_apart, find_in_cpc, range_of};
pub use idle::{find_counted, find_in_idle, find_integers, first_with_cst, has_cst};
pub use objects::find_meaningless;
pub use parents::{around, find_beside_parent};
pub use rates::{find_hasty, find_in_rates};
