//! Texts as they are read and printed: pages of text for a sink, numbers and paths; lines and their fields,
//! the look-up of a path, and what the texts of all kinds of scripts and histories have in common.
#![tactic(auto)]

mod digits;
mod fault;
mod front;
mod index;
mod laws;
mod lines;
mod name;
mod numbers;
mod openings;
mod operations;
mod page;
mod path_index;
mod path_texts;
mod paths;
mod script;
mod value;
mod words;

pub use digits::{put_decimal, put_hexadecimal};
pub use fault::PrintFault;
pub use index::{index_path, key_of};
pub use laws::names_tell_paths;
pub use lines::{count_lines, first_field, first_line};
pub use name::write_name;
pub use numbers::{hex_digit, put_hex, put_number, write_hex};
pub use openings::{first_of, opened, put_open_line, put_opened};
pub use operations::put_ops;
pub use page::Page;
pub use path_index::{PathIndex, Spelled};
pub use path_texts::PathTexts;
pub use paths::{put_path, put_place};
pub use script::{LineWhy, MOST_BYTES, MOST_LINES, MOST_OPERATIONS, ScriptFault, too_long};
pub use value::{is_number, value_of};
pub use words::{put_asker, put_fault, put_labelled};
