ghost use Rattle.std.specs.Prelude.{◌≡◌, ◌≢◌, ◌<◌, ◌≤◌, ◌^◌, ℕ, List, length, drop, Ok, Err, IfOk};
ghost use Rattle.std.specs.Prelude.{IfErr};
ghost use Rattle.aml_data.specs.declared.data.Data.{Data as object};
ghost use Rattle.aml_data.specs.declared.path.Path.{Path as name};
ghost use Rattle.aml_data.specs.declared.fault.DataFault.{DataFault as data_fault};
ghost use Rattle.aml_data.specs.declared.fault.DataFault.TheVariants.{Memory as no_memory};
ghost use Rattle.pw_base.specs.Answers.{IsUnless, FailsUnless};
ghost use Rattle.aml_data.specs.Grammar.{Const, NameOf, Spells};
ghost use Rattle.aml_data.specs.Faults.{ConstFails, LenFails, NameFails, Fails};
ghost use Rattle.aml_data.specs.Decoded.{IsSpelledAt, IsLengthAt};
ghost use Rattle.aml_data.specs.inner.Places.{from_place, length_from_place};
ghost use Rattle.aml_data.specs.inner.Reading.{Gives, Tells, constant_at, name_at};
ghost use Rattle.aml_data.specs.inner.ReadingObjects.{object_at};

use crate::constant::constant_of;
use crate::data::Data;
use crate::fault::DataFault;
use crate::length::length_of;
use crate::name::name_of;
use crate::object::object_of;
use crate::path::Path;
use std::alloc::Global;

fn constant_from(bytes: &[u8], at: usize) -> Result<(u64, usize), DataFault>
    requires { at ≤ length bytes.now }
    ensures { Tells (λ x. x) result (from_place constant_at at bytes.now) }
{
    let (_, tail) = bytes.split_at(at);
    let (value, rest) = constant_of(tail, bytes.len())?;
    Ok((value, tail.len() - rest.len()))
}

/// The integer constant that begins at a place, and how many bytes it has (ACPI 6.5, 20.2.3). It
/// takes no memory.
pub fn decode_constant(bytes: &[u8], at: usize) -> Result<(u64, usize), DataFault>
    requires { at ≤ length bytes.now }
    // What is read is spelled by so many bytes.
    ensures found { IfOk result (λ r. IsSpelledAt Const bytes.now at r.0 r.1) }
    // What is spelled there is read.
    ensures only { (value n : ℕ) → IsSpelledAt Const bytes.now at value n → result ≡ Ok (value, n) }
    // Otherwise it is the first fault.
    ensures fault { IfErr result (λ f. ConstFails (length bytes.now) (drop at bytes.now) f) }
    // Where there is a first fault it is the answer.
    ensures refused { (f : data_fault) → ConstFails (length bytes.now) (drop at bytes.now) f
        → result ≡ Err f }
{
    constant_from(bytes, at)
}

fn length_from(bytes: &[u8], at: usize) -> Result<(usize, usize), DataFault>
    requires { at ≤ length bytes.now }
    ensures { Tells (λ x. x) result (length_from_place at bytes.now) }
{
    let (_, tail) = bytes.split_at(at);
    let (count, rest) = length_of(tail, bytes.len())?;
    Ok((bytes.len() - rest.len() + count, tail.len() - rest.len()))
}

/// The PkgLength that begins at a place: where what it counts ends, and how many bytes it has itself
/// (ACPI 6.5, 20.2.4). Its faults are `Short` and `BadLength`. It takes no memory.
pub fn decode_length(bytes: &[u8], at: usize) -> Result<(usize, usize), DataFault>
    requires { at ≤ length bytes.now }
    // What is read is a length that reaches from the place to this end, spelled by so many bytes.
    ensures found { IfOk result (λ r. IsLengthAt bytes.now at r.0 r.1) }
    // The length that stands there is read.
    ensures only { (end n : ℕ) → IsLengthAt bytes.now at end n → result ≡ Ok (end, n) }
    // Otherwise it is the first fault.
    ensures fault { IfErr result (λ f. LenFails (length bytes.now) (drop at bytes.now) f) }
    // Where there is a first fault it is the answer.
    ensures refused { (f : data_fault) → LenFails (length bytes.now) (drop at bytes.now) f
        → result ≡ Err f }
{
    length_from(bytes, at)
}

fn name_from(alloc: Global, bytes: &[u8], at: usize) -> Result<(Path, usize), DataFault>
    requires within { at ≤ length bytes.now }
    requires small { length bytes.now < 2 ^ 32 }
    ensures { Gives (λ x. x) result (from_place name_at at bytes.now) }
{
    let (_, tail) = bytes.split_at(at);
    let (path, rest) = name_of(alloc, tail, bytes.len())?;
    Ok((path, tail.len() - rest.len()))
}

/// The name that begins at a place, and how many bytes it has (ACPI 6.5, 20.2.2).
pub fn decode_name(alloc: Global, bytes: &[u8], at: usize) -> Result<(Path, usize), DataFault>
    requires within { at ≤ length bytes.now }
    // A path has fewer than 2 ^ 32 steps up.
    requires small { length bytes.now < 2 ^ 32 }
    // What is read is spelled by so many bytes.
    ensures found { IfOk result (λ r. IsSpelledAt NameOf bytes.now at r.0 r.1) }
    // What is spelled there is read, unless memory runs out.
    ensures only { (path : name) (n : ℕ) → IsSpelledAt NameOf bytes.now at path n
        → IsUnless no_memory result (path, n) }
    // Otherwise it is the first fault.
    ensures fault { IfErr result (λ f. f ≢ no_memory → NameFails (length bytes.now) (drop at bytes.now) f) }
    // Where there is a first fault it is the answer, unless memory runs out.
    ensures refused { (f : data_fault) → NameFails (length bytes.now) (drop at bytes.now) f
        → FailsUnless no_memory result f }
{
    name_from(alloc, bytes, at)
}

fn object_from(alloc: Global, bytes: &[u8], at: usize) -> Result<(Data, usize), DataFault>
    requires within { at ≤ length bytes.now }
    requires small { length bytes.now < 2 ^ 32 }
    ensures { Gives (λ x. x) result (from_place object_at at bytes.now) }
{
    let (_, tail) = bytes.split_at(at);
    let (value, rest) = object_of(alloc, tail, bytes.len())?;
    Ok((value, tail.len() - rest.len()))
}

/// The data object that begins at a place, and how many bytes it has (ACPI 6.5, 20.2.3 and 20.2.5.4).
/// Packages nest at most 32 deep. What a buffer has past its bytes, up to its size, is not made.
pub fn decode(alloc: Global, bytes: &[u8], at: usize) -> Result<(Data, usize), DataFault>
    requires within { at ≤ length bytes.now }
    requires small { length bytes.now < 2 ^ 32 }
    // What is read is spelled by so many bytes.
    ensures found { IfOk result (λ r. IsSpelledAt Spells bytes.now at r.0 r.1) }
    // What is spelled there is read, unless memory runs out.
    ensures only { (value : object) (n : ℕ) → IsSpelledAt Spells bytes.now at value n
        → IsUnless no_memory result (value, n) }
    // Otherwise it is the first fault.
    ensures fault { IfErr result (λ f. f ≢ no_memory → Fails (length bytes.now) (drop at bytes.now) f) }
    // Where there is a first fault it is the answer, unless memory runs out.
    ensures refused { (f : data_fault) → Fails (length bytes.now) (drop at bytes.now) f
        → FailsUnless no_memory result f }
{
    object_from(alloc, bytes, at)
}
