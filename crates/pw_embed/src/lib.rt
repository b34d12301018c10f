//! What a caller in another language keeps of a machine and asks of it: its definition blocks, its plan,
//! and the coordinators of one caller. What crosses is plain numbers, and each call answers with a
//! status.
#![tactic(auto)]

mod blocks;
mod cppc;
mod cppc_numbers;
mod endless;
mod entries;
mod faults;
mod machine;
mod ongoing;
mod operations;
mod paths;
mod planned;
mod registers;
mod replies;
mod requests;
mod resting;
mod seat;
mod sharing;
mod single;
mod status;
mod told;

pub use blocks::Blocks;
pub use cppc::Cppc;
pub use cppc_numbers::{CppcReplyNumbers, CppcRequestNumbers};
pub use endless::Endless;
pub use entries::EntryNumbers;
pub use faults::FaultNumbers;
pub use machine::Machine;
pub use ongoing::Ongoing;
pub use operations::{OpNumbers, tell_ops};
pub use planned::{Counts, CpuNumbers, Planned};
pub use registers::NoRegisters;
pub use replies::ReplyNumbers;
pub use requests::RequestNumbers;
pub use resting::Resting;
pub use seat::Seat;
pub use sharing::{SeatFacts, Sharing};
pub use single::Single;
pub use status::Status;
