ghost use Rattle.std.specs.Prelude.{◌≡◌, ◌<◌, true};
ghost use Rattle.aml_data.specs.Segment.{IsSegment};
ghost use Rattle.pw_generate.specs.Names.{container_name, cpu_name, hex_digit};

use aml_data::Seg;

/// The lowest hexadecimal digit of a number, in upper case.
fn last_digit(number: u32) -> u8
    ensures { result ≡ hex_digit number }
{
    let digit = (number % 16) as u8;
    if digit < 10 {
        b'0' + digit
    } else {
        b'A' + (digit - 10)
    }
}

/// The name of a container.
pub(crate) fn container_seg(number: u32) -> Seg
    ensures { result ≡ container_name number }
{
    Seg::of_segment([b'C', b'L', last_digit(number / 16), last_digit(number)])
}

/// The name of a processor.
pub(crate) fn cpu_seg(number: u32) -> Seg
    ensures { result ≡ cpu_name number }
{
    Seg::of_segment([
        b'P',
        last_digit(number / 256),
        last_digit(number / 16),
        last_digit(number),
    ])
}
