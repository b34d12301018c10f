ghost use Rattle.std.specs.Prelude.{◌≡◌, ◌≤◌, length};
ghost use Rattle.acpi_fields.specs.Dependencies.{coord_of, dependency_of};

use crate::reading::{fixed_of, number_of, u32_of};
use acpi_values::{Coord, Dependency, Place, Shape, Why};
use aml_data::{Data, Width};

/// Field `inner` of element `outer`: CoordType (ACPI 6.5, 8.3).
#[tactic(auto, unfolding(crate::specs::Reading::most_64))]
fn coord_of(fields: &[Data], width: Width, outer: u32, inner: u32) -> Result<Coord, Shape>
    requires first { 1 ≤ inner }
    requires last { inner ≤ length fields.now }
    ensures { result ≡ coord_of width outer inner fields.now }
{
    match number_of(fields, width, u64::MAX, outer, inner)? {
        0xFC => Ok(Coord::SwAll),
        0xFD => Ok(Coord::SwAny),
        0xFE => Ok(Coord::HwAll),
        _ => Err(Shape {
            place: Place { outer, inner },
            why: Why::Range,
        }),
    }
}

/// The first five fields of element `outer`, which has `count`: their number, the revision, and what
/// is declared of a domain (ACPI 6.5, 8.3).
pub fn dependency_of(
    fields: &[Data],
    width: Width,
    count: u64,
    outer: u32,
) -> Result<Dependency, Shape>
    requires { 5 ≤ length fields.now }
    ensures { result ≡ dependency_of width count outer fields.now }
{
    let _count = fixed_of(fields, width, count, Why::Count, outer, 1)?;
    let _revision = fixed_of(fields, width, 0, Why::Revision, outer, 2)?;
    let domain = u32_of(fields, width, outer, 3)?;
    let coord = coord_of(fields, width, outer, 4)?;
    let processors = u32_of(fields, width, outer, 5)?;
    Ok(Dependency {
        domain,
        coord,
        processors,
    })
}
