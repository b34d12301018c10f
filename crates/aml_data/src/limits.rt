//! Limits of names and data objects. Code and definitions name them from here.

/// How deep packages nest at most: a limit of this project's profile.
pub const DEEPEST: u32 = 32;

/// A name has fewer segments than this, since a byte counts them (ACPI 6.5, 20.2.2).
pub const TOO_MANY_SEGMENTS: usize = 0x100;

/// No object of so many bytes or more can be written, since its PkgLength couldn't count them
/// (ACPI 6.5, 20.2.4).
pub const TOO_LONG: u64 = 0x1000_0000;

/// The most bytes that a PkgLength can count behind its own four (ACPI 6.5, 20.2.4).
pub const LONGEST_CONTENT: usize = 0x0FFF_FFFB;
