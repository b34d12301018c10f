use crate::told::{put_refused, put_register};
use acpi_fields::{elements_at, fields_of, integer_at, register_at, register_object};
use acpi_values::{Place, Register, RegisterFault};
use aml_data::{Data, Width};
use std::alloc::Global;

const WHOLE: Place = Place { outer: 0, inner: 0 };

/// The bytes of a register as they stand in a resource template, and written again where they are one.
pub(crate) fn put_template(text: &mut String, bytes: &[u8]) -> Option<Option<[u8; 17]>> {
    match Register::from_bytes(bytes) {
        Ok(register) => {
            put_register(text, &register)?;
            return Some(Some(register.to_bytes()));
        }
        Err(RegisterFault::Length { found }) => write!(text, "length {found}").ok()?,
        Err(RegisterFault::Tag { at }) => write!(text, "tag {at}").ok()?,
        Err(RegisterFault::Sum { sum }) => write!(text, "sum 0x{sum:x}").ok()?,
    }
    Some(None)
}

/// A register in a buffer, and the object that is written of it.
pub(crate) fn put_register_at(
    text: &mut String,
    alloc: Global,
    object: &Data,
) -> Option<Option<Data>> {
    match register_at(object, WHOLE) {
        Ok(register) => {
            put_register(text, &register)?;
            Some(Some(register_object(alloc, &register).ok()?))
        }
        Err(shape) => {
            put_refused(text, shape)?;
            Some(None)
        }
    }
}

/// An integer below 2^32.
pub(crate) fn put_integer(text: &mut String, object: &Data, width: Width) -> Option<()> {
    match integer_at(object, width, u64::from(u32::MAX), WHOLE) {
        Ok(number) => write!(text, "{number}").ok(),
        Err(shape) => put_refused(text, shape),
    }
}

/// How many elements a package has.
pub(crate) fn put_elements(text: &mut String, object: &Data) -> Option<()> {
    match elements_at(object, WHOLE) {
        Ok(elements) => {
            let count = elements.len();
            write!(text, "{count}").ok()
        }
        Err(shape) => put_refused(text, shape),
    }
}

/// The two fields of element 4.
pub(crate) fn put_two_fields(text: &mut String, object: &Data) -> Option<()> {
    match fields_of(object, 4, 2) {
        Ok(_) => text.push_str("two").ok(),
        Err(shape) => put_refused(text, shape),
    }
}
