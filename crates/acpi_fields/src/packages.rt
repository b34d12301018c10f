ghost use Rattle.std.specs.Prelude.{◌≡◌, ◌↔◌, ◌≤◌, length, IfOk, IsTrue};
ghost use Rattle.aml_data.specs.Countable.{IsCountable};
ghost use Rattle.acpi_fields.specs.Reading.{elements_at};
ghost use Rattle.pw_base.specs.Answers.{Tells};
ghost use Rattle.acpi_fields.specs.Reading.{fields_of, whole_of};

use acpi_values::{Place, Shape, Why};
use aml_data::Data;

/// The elements of a package, of either kind.
pub fn elements_at(object: &Data, place: Place) -> Result<&[Data], Shape>
    ensures { Tells (λ r. r.now) result (elements_at place object.now) }
{
    match object {
        Data::Package { elements, .. } => Ok(elements.as_slice()),
        Data::VarPackage(counted) => Ok(counted.get().elements.as_slice()),
        Data::Int(_)
        | Data::Ones
        | Data::Revision
        | Data::Text(_)
        | Data::Buffer(_)
        | Data::Path(_) => Err(Shape {
            place,
            why: Why::Kind,
        }),
    }
}

/// The fields of element `outer`, a package of `count`.
pub fn fields_of(object: &Data, outer: u32, count: usize) -> Result<&[Data], Shape>
    ensures value { Tells (λ r. r.now) result (fields_of outer count object.now) }
    ensures count { IfOk result (λ r. length r.now ≡ count) }
{
    let place = Place { outer, inner: 0 };
    let elements = elements_at(object, place)?;
    if elements.len() != count {
        return Err(Shape {
            place,
            why: Why::Count,
        });
    }
    Ok(elements)
}

/// The elements of the whole, a package of at least so many.
pub fn whole_of(object: &Data, count: usize) -> Result<&[Data], Shape>
    ensures value { Tells (λ r. r.now) result (whole_of count object.now) }
    ensures count { IfOk result (λ r. count ≤ length r.now) }
{
    let place = Place { outer: 0, inner: 0 };
    let elements = elements_at(object, place)?;
    if elements.len() < count {
        return Err(Shape {
            place,
            why: Why::Count,
        });
    }
    Ok(elements)
}

/// Whether the elements of an object can be counted in 32 bits, as the readers of tables ask. An
/// object that is read from a block always can. It takes no memory.
pub fn is_countable(object: &Data) -> bool
    ensures { IsTrue result ↔ IsCountable object.now }
{
    match object {
        Data::Package { elements, .. } => elements.as_slice().len() <= u32::MAX as usize,
        Data::VarPackage(counted) => counted.get().elements.as_slice().len() <= u32::MAX as usize,
        Data::Int(_)
        | Data::Ones
        | Data::Revision
        | Data::Text(_)
        | Data::Buffer(_)
        | Data::Path(_) => true,
    }
}
