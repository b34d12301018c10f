//! The bytes that begin a data object, a name or a part of one (ACPI 6.5, 20.3). Code and definitions
//! name them from here.

/// The integer 0.
pub const ZERO_OP: u8 = 0x00;
/// The integer 1.
pub const ONE_OP: u8 = 0x01;
/// An integer of one byte follows.
pub const BYTE_PREFIX: u8 = 0x0A;
/// An integer of two bytes follows.
pub const WORD_PREFIX: u8 = 0x0B;
/// An integer of four bytes follows.
pub const DWORD_PREFIX: u8 = 0x0C;
/// A string follows, up to a 0.
pub const STRING_PREFIX: u8 = 0x0D;
/// An integer of eight bytes follows.
pub const QWORD_PREFIX: u8 = 0x0E;
/// A buffer.
pub const BUFFER_OP: u8 = 0x11;
/// A package that a byte counts.
pub const PACKAGE_OP: u8 = 0x12;
/// A package that a constant counts.
pub const VAR_PACKAGE_OP: u8 = 0x13;
/// Behind `EXT_OP_PREFIX`: the revision of the interpreter.
pub const REVISION_OP: u8 = 0x30;
/// An opcode of two bytes begins.
pub const EXT_OP_PREFIX: u8 = 0x5B;
/// The integer with all bits set.
pub const ONES_OP: u8 = 0xFF;

/// In place of the segments of a name: there is none.
pub const NULL_NAME: u8 = 0x00;
/// Two segments of a name follow.
pub const DUAL_NAME_PREFIX: u8 = 0x2E;
/// A byte and as many segments of a name as it counts follow.
pub const MULTI_NAME_PREFIX: u8 = 0x2F;
/// `\`: a name from the root.
pub const ROOT_CHAR: u8 = 0x5C;
/// `^`: a step up from the scope.
pub const PARENT_PREFIX_CHAR: u8 = 0x5E;
