//! Handles: structs of a caller in another language, each of which keeps a box of this library's, and the
//! calls on them. Misuse that can be told is a status, and changes nothing.
#![tactic(auto)]

mod endless;
mod handle;
mod kept;
mod machines;
mod parts;
mod performance;
mod place;
mod seats;

pub use handle::{Handle, handles_cross};
pub use kept::Kept;
pub use place::Place;
