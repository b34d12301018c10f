//! Definition blocks: the header, and the terms that follow it (ACPI 6.5, 5.2.6 and 5.2.11).
#![tactic(auto)]

mod block;
mod blocks_fault;
mod blocks_laws;
mod blocks_reading;
mod blocks_writing;
mod fault;
mod file;
mod front;
mod header;
mod laws;
mod lengths;
pub mod opcode;
mod parsing;
mod parts;
mod plain;
mod reading;
mod term;
mod term_fault;
mod term_laws;
mod term_reading;
mod term_writing;
mod writable;
mod writing;

pub use block::{Block, Header, Signature};
pub use blocks_fault::BlocksFault;
pub use blocks_laws::{blocks_or_fault, one_fault_or_blocks, one_list, whole_list};
pub use blocks_reading::{LARGEST_SUM, read_blocks};
pub use blocks_writing::encode_blocks;
pub use fault::{BlockFault, HeaderFault, WriteFault};
pub use file::{FileFault, read_all};
pub use header::LARGEST;
pub use laws::{block_or_fault, countable_objects, one_block, one_fault, written_blocks};
pub use lengths::written_terms_len;
pub use parsing::parse;
pub use reading::read;
pub use term::Term;
pub use term_fault::TermFault;
pub use term_laws::{
    countable_values, one_list_of_terms, one_term_fault, shortest_terms, terms_or_fault,
};
pub use term_reading::terms_of;
pub use term_writing::encode_terms;
pub use writable::is_writable_terms;
pub use writing::{encode_block, is_writable_block, write};
