ghost use Rattle.std.specs.Prelude.{◌≡◌};
ghost use Rattle.acpi_fields.specs.Reading.{place};
ghost use Rattle.acpi_perf.specs.Objects.{control_of, domain_of, limit_of};

use acpi_fields::{dependency_of, elements_at, fields_of, integer_at, register_at};
use acpi_values::{ControlPair, Dependency, Place, Shape, Why};
use aml_data::{Data, Width};

/// The place of a whole object.
const WHOLE: Place = Place { outer: 0, inner: 0 };

/// The place of an element.
fn element(outer: u32) -> Place
    ensures { result ≡ place outer 0 }
{
    Place { outer, inner: 0 }
}

/// What is said of a package of another number of elements.
const MISCOUNTED: Shape = Shape {
    place: WHOLE,
    why: Why::Count,
};

/// The control and status registers of `_PCT` or `_PTC` (ACPI 6.5, 8.4.5.1 and 8.4.4.1). It takes no
/// memory.
#[tactic(auto, unfolding(crate::specs::Objects::control_of))]
pub fn read_control(object: &Data) -> Result<ControlPair, Shape>
    ensures { result ≡ control_of object.now }
{
    let elements = elements_at(object, WHOLE)?;
    if elements.len() != 2 {
        return Err(MISCOUNTED);
    }
    let control = register_at(&elements[0], element(1))?;
    let status = register_at(&elements[1], element(2))?;
    Ok(ControlPair { control, status })
}

/// The limit of `_PPC` or `_TPC`: the first state that may be used, counted from 0
/// (ACPI 6.5, 8.4.5.3 and 8.4.4.3). It takes no memory.
#[tactic(auto, unfolding(acpi_fields::specs::Reading::most_32))]
pub fn read_limit(object: &Data, width: Width) -> Result<u32, Shape>
    ensures { result ≡ limit_of width object.now }
{
    let limit = integer_at(object, width, u64::from(u32::MAX), WHOLE)?;
    Ok(limit as u32)
}

/// The domain that `_PSD` or `_TSD` declares (ACPI 6.5, 8.4.5.5 and 8.4.4.4). It takes no memory.
#[tactic(auto, unfolding(crate::specs::Objects::domain_of))]
pub fn read_dependency(object: &Data, width: Width) -> Result<Dependency, Shape>
    ensures { result ≡ domain_of width object.now }
{
    let elements = elements_at(object, WHOLE)?;
    if elements.len() != 1 {
        return Err(MISCOUNTED);
    }
    let fields = fields_of(&elements[0], 1, 5)?;
    dependency_of(fields, width, 5, 1)
}
