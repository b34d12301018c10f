//! Registers as a coordinator operates them: the trait, and registers in memory that keep what was
//! done.
#![tactic(auto)]

mod failing;
mod file;
mod ops;
mod registers;

pub use failing::FailingRegisters;
pub use file::RegisterFile;
pub use ops::Ops;
pub use registers::Registers;
