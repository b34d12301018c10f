//! What every layer stands on: plain lists, want of memory, and the outside as traits.
#![tactic(auto)]

mod boxed;
mod compact_list;
mod failure;
mod files;
mod gate;
mod list;
mod memory_files;
mod memory_sink;
mod room;
mod sink;
mod std_files;
mod std_sink;
mod thin;

pub use boxed::Boxed;
pub use compact_list::CompactList;
pub use failure::{Failed, Memory};
pub use files::Files;
pub use gate::{Gate, OpenGate};
pub use list::List;
pub use memory_files::{MemoryFile, MemoryFiles};
pub use memory_sink::MemorySink;
pub use room::Room;
pub use sink::{Sink, put_all};
pub use std_files::StdFiles;
pub use std_sink::StdSink;
