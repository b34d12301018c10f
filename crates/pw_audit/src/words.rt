//! Words of lines, each put behind what a line has so far.
ghost use Rattle.std.specs.Prelude.{◌≡◌, ◌++◌, decimal, OnOk};
ghost use Rattle.pw_text.specs.Text.{hex_text};

use itoa::Buffer;
use pw_base::Memory;
use pw_text::write_hex;

/// Puts bytes.
pub(crate) fn push(line: &mut Vec<u8>, bytes: &[u8]) -> Result<(), Memory>
    ensures { OnOk result (line.new.items ≡ line.old.items ++ bytes.now) }
{
    line.extend_from_slice(bytes)?;
    Ok(())
}

/// Puts a number in decimal.
pub(crate) fn push_decimal(line: &mut Vec<u8>, number: u64) -> Result<(), Memory>
    ensures { OnOk result (line.new.items ≡ line.old.items ++ decimal number) }
{
    let mut digits = Buffer::new();
    push(line, digits.format(number).as_bytes())
}

/// Puts a number in decimal behind a text.
pub(crate) fn push_long(line: &mut Vec<u8>, label: &[u8], number: u64) -> Result<(), Memory>
    ensures { OnOk result (line.new.items ≡ line.old.items ++ (label.now ++ decimal number)) }
{
    push(line, label)?;
    push_decimal(line, number)
}

/// The same of one of 32 bits.
pub(crate) fn push_labelled(line: &mut Vec<u8>, label: &[u8], number: u32) -> Result<(), Memory>
    ensures { OnOk result (line.new.items ≡ line.old.items ++ (label.now ++ decimal number)) }
{
    push_long(line, label, u64::from(number))
}

/// Puts a number in upper-case hexadecimal behind `0x`.
pub(crate) fn push_hex(line: &mut Vec<u8>, number: u64) -> Result<(), Memory>
    ensures { OnOk result (line.new.items ≡ line.old.items ++ hex_text number) }
{
    push(line, b"0x")?;
    let mut digits = [0u8; 64];
    let start = write_hex(number, &mut digits);
    push(line, &digits[start..])
}
