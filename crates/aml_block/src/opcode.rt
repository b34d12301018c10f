//! The opcodes that begin a term (ACPI 6.5, 20.3). Code and definitions name them from here. One behind
//! the prefix 5B is 0x5B00 plus its second byte.

ghost use Rattle.std.specs.Prelude.{◌≡◌, ◌<◌, length, IfOk};
ghost use Rattle.aml_data.specs.inner.Reading.{Tells};
ghost use Rattle.aml_block.specs.Opcodes.{is_unread};
ghost use Rattle.aml_block.specs.inner.ReadingParts.{opcode_at};

use aml_data::opcode::EXT_OP_PREFIX;
use aml_data::{DataFault, byte_of};

/// What an opcode behind the byte 5B has above that of its second byte.
pub const EXTENDED: u16 = 0x5B00;

/// A second name of an object.
pub const ALIAS_OP: u16 = 0x06;
/// An object with a name.
pub const NAME_OP: u16 = 0x08;
/// Terms whose names are read from another place on.
pub const SCOPE_OP: u16 = 0x10;
/// A control method.
pub const METHOD_OP: u16 = 0x14;
/// A name that another block declares.
pub const EXTERNAL_OP: u16 = 0x15;
/// Terms under a condition.
pub const IF_OP: u16 = 0xA0;
/// The terms otherwise.
pub const ELSE_OP: u16 = 0xA1;
/// A loop.
pub const WHILE_OP: u16 = 0xA2;
/// A mutex.
pub const MUTEX_OP: u16 = 0x5B01;
/// An event.
pub const EVENT_OP: u16 = 0x5B02;
/// A range of an address space.
pub const OP_REGION_OP: u16 = 0x5B80;
/// Fields of an operation region.
pub const FIELD_OP: u16 = 0x5B81;
/// A device.
pub const DEVICE_OP: u16 = 0x5B82;
/// A processor, of editions before 6.0 (ACPI 5.1, 20.3).
pub const PROCESSOR_OP: u16 = 0x5B83;
/// A power resource.
pub const POWER_RES_OP: u16 = 0x5B84;
/// A thermal zone.
pub const THERMAL_ZONE_OP: u16 = 0x5B85;
/// Fields behind an index and a data register.
pub const INDEX_FIELD_OP: u16 = 0x5B86;
/// Fields of a bank.
pub const BANK_FIELD_OP: u16 = 0x5B87;

/// The opcode that stands first, and the bytes after it. `end` is the place where the bytes end.
#[tactic(auto, unfolding(crate::specs::inner::ReadingParts::opcode_at))]
pub(crate) fn read_opcode(bytes: &[u8], end: usize) -> Result<(u16, &[u8]), DataFault>
    ensures value { Tells (λ x. (x.0, x.1.now)) result (opcode_at end bytes.now) }
    ensures shorter { IfOk result (λ x. length x.1.now < length bytes.now) }
{
    match bytes {
        [] => Err(DataFault::Short { at: end }),
        [EXT_OP_PREFIX, rest @ ..] => {
            let (second, rest) = byte_of(rest, end)?;
            Ok((EXTENDED + u16::from(second), rest))
        }
        [lead, rest @ ..] => Ok((u16::from(*lead), rest)),
    }
}

/// Whether the body of a term of this opcode is kept and not read (ACPI 6.5, 20.2.5.2 and 20.2.5.3).
pub(crate) fn keeps_body(opcode: u16) -> bool
    ensures { result ≡ is_unread opcode }
{
    matches!(
        opcode,
        METHOD_OP
            | IF_OP
            | ELSE_OP
            | WHILE_OP
            | FIELD_OP
            | POWER_RES_OP
            | THERMAL_ZONE_OP
            | INDEX_FIELD_OP
            | BANK_FIELD_OP
    )
}
