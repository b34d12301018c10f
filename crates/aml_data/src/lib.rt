//! Names, lengths and data objects of the ACPI Machine Language (ACPI 6.5, 20.2).
#![tactic(auto)]

mod bytes;
mod constant;
mod data;
mod decoding;
mod encoding;
mod fault;
mod filling;
mod laws;
mod length;
mod lengths;
pub mod limits;
mod meaning;
mod name;
mod object;
pub mod opcode;
mod path;
mod seg;
mod shortest;
mod text;
mod writable;
mod writing;

pub use bytes::byte_of;
pub use constant::constant_of;
pub use data::{Buffer, Counted, Data, Width, copy_data};
pub use decoding::{decode, decode_constant, decode_length, decode_name};
pub use encoding::encode;
pub use fault::DataFault;
pub use laws::{
    constant_or_fault, length_or_fault, name_or_fault, object_or_fault, one_constant,
    one_constant_fault, one_length, one_length_fault, one_name, one_name_fault, one_object,
    one_object_fault,
};
pub use length::{length_of, window_of};
pub use lengths::{constant_len, length_len, name_len, written_len};
pub use meaning::integer;
pub use name::name_of;
pub use object::object_of;
pub use path::{FullPath, Path, copy_full_path, copy_path};
pub use seg::Seg;
pub use shortest::{
    countable_parts, nesting_within, shortest_constant, shortest_length, shortest_name,
    shortest_object,
};
pub use writable::{is_writable, is_writable_name};
pub use writing::{encode_constant, encode_length, encode_name};
