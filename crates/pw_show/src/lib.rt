//! What `show` prints: a line for each object that definition blocks place.
#![tactic(auto)]

mod buffers;
mod json_buffers;
mod json_laws;
mod json_objects;
mod json_paths;
mod json_printing;
mod json_strings;
mod json_values;
mod printing;
mod show;
mod strings;
mod values;

pub use json_laws::{string_bytes_stand, text_is_an_array};
pub use json_printing::print_json;
pub use printing::print_space;
pub use show::{put_line, put_space};
pub use values::put_value;
