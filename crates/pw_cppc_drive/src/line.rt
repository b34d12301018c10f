ghost use Rattle.std.specs.Prelude.{◌≡◌, bytes_eq, IfOk, IfSome};
ghost use Rattle.pw_text.specs.Fields.{fields_of};
ghost use Rattle.pw_text.specs.Looking.{IsIndexOf};
ghost use Rattle.pw_cppc.specs.Requests.{Has, cpu_of};
ghost use Rattle.pw_cppc_drive.specs.Forms.{control_named, request_by, request_in, said, segs_of};

use crate::index::find;
use pw_base::Memory;
use pw_cppc::{Control, CppcPlan, CppcRequest};
use pw_text::{LineWhy, PathIndex, Spelled, first_field, is_number, value_of};

/// Whether bytes are this text.
fn is(bytes: &[u8], text: &str) -> bool
    ensures { result ≡ bytes_eq bytes.now text.now }
{
    bytes == text.as_bytes()
}

/// The control that a word names.
fn control_named(word: &[u8]) -> Option<Control>
    ensures { result ≡ control_named word.now }
{
    if is(word, "desired") {
        Some(Control::Desired)
    } else if is(word, "minimum") {
        Some(Control::Minimum)
    } else if is(word, "maximum") {
        Some(Control::Maximum)
    } else {
        None
    }
}

/// What the fields behind a path say: a control and a number, none for one above 4294967295.
fn said(line: &[u8]) -> Option<(Control, Option<u32>)>
    ensures { result ≡ said (fields_of line.now) }
{
    let (word, rest) = first_field(line);
    let (number, rest) = first_field(rest);
    if !is_number(number) {
        return None;
    }
    let (third, _) = first_field(rest);
    if !third.is_empty() {
        return None;
    }
    let control = control_named(word)?;
    Some((control, value_of(number)))
}

/// What a processor asks for by a control and a number.
fn request_by(control: Control, cpu: u32, value: u32) -> CppcRequest
    ensures request { result ≡ request_by control cpu value }
    ensures cpu { cpu_of result ≡ cpu }
{
    match control {
        Control::Desired => CppcRequest::Desired { cpu, value },
        Control::Minimum => CppcRequest::Minimum { cpu, value },
        Control::Maximum => CppcRequest::Maximum { cpu, value },
    }
}

/// What a line asks for, if anything, or why it is bad. `room` is room for its path.
pub(crate) fn request_in(
    plan: &CppcPlan,
    index: &PathIndex,
    room: &mut Spelled,
    line: &[u8],
) -> Result<Result<Option<CppcRequest>, LineWhy>, Memory>
    requires { IsIndexOf segs_of plan.now.paths index.now }
    ensures request { IfOk result (λ asked. asked ≡ request_in plan.now line.now) }
    ensures exists { IfOk result (λ asked. IfOk asked (λ some. IfSome some (λ q. Has plan.now q))) }
{
    let (path, rest) = first_field(line);
    if path.is_empty() || path[0] == b'#' {
        return Ok(Ok(None));
    }
    let Some(found) = find(plan, index, room, path)? else {
        return Ok(Err(LineWhy::Grammar));
    };
    let Some((control, value)) = said(rest) else {
        return Ok(Err(LineWhy::Grammar));
    };
    let Some(cpu) = found else {
        return Ok(Err(LineWhy::Processor));
    };
    let Some(value) = value else {
        return Ok(Err(LineWhy::Number));
    };
    Ok(Ok(Some(request_by(control, cpu, value))))
}
