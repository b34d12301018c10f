//! Worked calls on the desk for desired performance that many callers share (ACPI 6.5, 8.4.6.1.2), of
//! machines whose processors have a `_CPC`.

mod ask;
pub(crate) mod case;
mod crew;
mod machine;
mod play;
mod replay;
mod seats;
mod text;
