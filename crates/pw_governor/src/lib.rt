//! Which idle state a processor is to take, given how long it may take to wake and how long it is
//! expected to stay.
#![tactic(auto)]

mod choices;
mod governor;
mod laws;

pub use choices::deepest;
pub use governor::Governor;
pub use laws::choices_are_deepest;
