ghost use Rattle.std.specs.Prelude.{◌≡◌, ◌+◌, ◌≤◌, length, sum, IfOk};
ghost use Rattle.aml_block.specs.Header.{HasSize, field, number_field};
ghost use Rattle.aml_block.specs.inner.Reading.{signature_at, fields_at, header_at};

use crate::block::{Header, Signature};
use crate::fault::HeaderFault;

/// The greatest number of bytes of a block: 4 MiB, this project's own limit.
pub const LARGEST: usize = 4_194_304;

/// How many bytes a header has (ACPI 6.5, 5.2.6).
pub(crate) const HEADER_SIZE: usize = 36;

/// So many bytes from a place on.
fn bytes_at<const N: usize>(bytes: &[u8], at: usize) -> [u8; N]
    requires { at + N ≤ length bytes.now }
    ensures { result ≡ field at N bytes.now }
{
    let mut out = [0; N];
    out.copy_from_slice(&bytes[at..at + N]);
    out
}

/// The number of four bytes from a place on, lowest first.
fn number_at(bytes: &[u8], at: usize) -> u32
    requires { at + 4 ≤ length bytes.now }
    ensures { result ≡ number_field at bytes.now }
{
    u32::from_le_bytes(bytes_at::<4>(bytes, at))
}

/// The sum of all bytes.
pub(crate) fn sum_of(bytes: &[u8]) -> u32
    requires { length bytes.now ≤ LARGEST }
    ensures { result ≡ sum bytes.now }
{
    bytes.iter().map(|byte| u32::from(*byte)).sum()
}

#[tactic(auto, unfolding(crate::specs::inner::Reading::signature_at))]
fn signature_of(text: &[u8]) -> Result<Signature, HeaderFault>
    ensures { result ≡ signature_at text.now }
{
    if text == b"DSDT".as_slice() {
        Ok(Signature::Dsdt)
    } else if text == b"SSDT".as_slice() {
        Ok(Signature::Ssdt)
    } else {
        Err(HeaderFault::Signature)
    }
}

#[tactic(auto, unfolding(crate::specs::inner::Reading::fields_at))]
fn fields_of(signature: Signature, bytes: &[u8]) -> Header
    requires { HEADER_SIZE ≤ length bytes.now }
    ensures { result ≡ fields_at signature bytes.now }
{
    Header {
        signature,
        revision: bytes[8],
        oem_id: bytes_at(bytes, 10),
        oem_table_id: bytes_at(bytes, 16),
        oem_revision: number_at(bytes, 24),
        creator_id: bytes_at(bytes, 28),
        creator_revision: number_at(bytes, 32),
    }
}

/// The header of a block of these bytes, or the first thing that is wrong with it.
#[tactic(auto, unfolding(crate::specs::inner::Reading::header_at))]
pub(crate) fn header_of(bytes: &[u8]) -> Result<Header, HeaderFault>
    ensures value { result ≡ header_at bytes.now }
    ensures size { IfOk result (λ _. HasSize bytes.now) }
{
    if bytes.len() > LARGEST {
        return Err(HeaderFault::Large);
    }
    if bytes.len() < HEADER_SIZE {
        return Err(HeaderFault::Short);
    }
    let signature = signature_of(&bytes[..4])?;
    if number_at(bytes, 4) as usize != bytes.len() {
        return Err(HeaderFault::Length);
    }
    if sum_of(bytes) % 256 != 0 {
        return Err(HeaderFault::Sum);
    }
    Ok(fields_of(signature, bytes))
}
