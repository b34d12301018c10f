ghost use Rattle.std.specs.Prelude.{◌≡◌, ◌≤◌, IfOk};
ghost use Rattle.acpi_fields.specs.Reading.{Gives};
ghost use Rattle.acpi_cpc.specs.Cpcs.{cpc_of, element_count, entry_at};

use acpi_fields::{integer_at, register_at, rows_from, whole_of};
use acpi_values::{Cpc, CpcEntry, Place, ReadFault, Shape, Why};
use aml_data::{Data, Width, integer};
use pw_base::List;
use std::alloc::Global;

/// How many elements a revision has.
fn element_count(revision: u64) -> Result<u64, Shape>
    ensures value { result ≡ element_count revision }
    ensures small { IfOk result (λ n. n ≤ 23) }
    ensures known { IfOk result (λ _. revision ≤ 3) }
{
    match revision {
        2 => Ok(21),
        3 => Ok(23),
        _ => Err(Shape {
            place: Place { outer: 2, inner: 0 },
            why: Why::Revision,
        }),
    }
}

/// Element `outer`: an integer or a register.
fn entry_of(object: &Data, width: Width, outer: u32) -> Result<CpcEntry, Shape>
    ensures { result ≡ entry_at width outer object.now }
{
    match integer(object, width) {
        Some(number) => Ok(CpcEntry::Number(number)),
        None => {
            let register = register_at(object, Place { outer, inner: 0 })?;
            Ok(CpcEntry::Register(register))
        }
    }
}

/// What `_CPC` says (ACPI 6.5, 8.4.6.1).
#[tactic(auto, unfolding(crate::specs::Cpcs::cpc_of, acpi_fields::specs::Reading::most_64))]
pub fn read_cpc(alloc: Global, object: &Data, width: Width) -> Result<Cpc, ReadFault>
    ensures { Gives (λ cpc. cpc) result (cpc_of width object.now) }
{
    let elements = whole_of(object, 2)?;
    let (front, rest) = elements.split_at(2);
    let count = integer_at(&front[0], width, u64::MAX, Place { outer: 1, inner: 0 })?;
    let revision = integer_at(&front[1], width, u64::MAX, Place { outer: 2, inner: 0 })?;
    let wanted = element_count(revision)?;
    if count != wanted {
        return Err(ReadFault::Shape {
            place: Place { outer: 1, inner: 0 },
            why: Why::Count,
        });
    }
    if elements.len() as u64 != wanted {
        return Err(ReadFault::Shape {
            place: Place { outer: 0, inner: 0 },
            why: Why::Count,
        });
    }
    let read = |element: &Data, outer: u32| -> Result<CpcEntry, ReadFault>
        ensures { Gives (λ entry. entry) result (entry_at width outer element.now) }
    { Ok(entry_of(element, width, outer)?) };
    let entries = rows_from(alloc, rest, 2, read)?;
    Ok(Cpc {
        revision: revision as u8,
        entries: List::from_vec(entries),
    })
}
