//! The tables of processor power as plain values: registers, idle, performance and throttling states,
//! dependencies, and what a processor is told to do with them (ACPI 6.5, chapter 8).
#![tactic(auto)]

mod dependency;
mod fault;
mod idle;
mod laws;
mod lpi;
mod operation;
mod performance;
mod register;

pub use dependency::{CDependency, Coord, Dependency};
pub use fault::{Place, ReadFault, Shape, Why};
pub use idle::{CState, IdleKind, IdleRow, IdleTable};
pub use laws::one_null_register;
pub use lpi::{EntryMethod, Lpi, LpiState};
pub use operation::{Chain, Composite, Op};
pub use performance::{ControlPair, Cpc, CpcEntry, PState, TState};
pub use register::{Register, RegisterFault};
