ghost use Rattle.std.specs.Prelude.{◌<◌, ◌≤◌, length, IfOk};
ghost use Rattle.aml_data.specs.inner.Reading.{Tells, constant_at};

use crate::bytes::{byte_of, double_of, quad_of, word_of};
use crate::fault::DataFault;
use crate::opcode::{BYTE_PREFIX, DWORD_PREFIX, ONE_OP, QWORD_PREFIX, WORD_PREFIX, ZERO_OP};

/// The integer constant that stands first, and the bytes after it. `end` is the place where the bytes
/// end (ACPI 6.5, 20.2.3).
#[tactic(auto, unfolding(crate::specs::inner::Reading::constant_at))]
pub fn constant_of(bytes: &[u8], end: usize) -> Result<(u64, &[u8]), DataFault>
    requires within { length bytes.now ≤ end }
    ensures value { Tells (λ x. (x.0, x.1.now)) result (constant_at end bytes.now) }
    ensures shorter { IfOk result (λ x. length x.1.now < length bytes.now) }
{
    match bytes {
        [] => Err(DataFault::Short { at: end }),
        [ZERO_OP, rest @ ..] => Ok((0, rest)),
        [ONE_OP, rest @ ..] => Ok((1, rest)),
        [BYTE_PREFIX, rest @ ..] => {
            let (number, rest) = byte_of(rest, end)?;
            Ok((u64::from(number), rest))
        }
        [WORD_PREFIX, rest @ ..] => word_of(rest, end),
        [DWORD_PREFIX, rest @ ..] => double_of(rest, end),
        [QWORD_PREFIX, rest @ ..] => quad_of(rest, end),
        [byte, ..] => Err(DataFault::BadLead {
            at: end - bytes.len(),
            byte: *byte,
        }),
    }
}
