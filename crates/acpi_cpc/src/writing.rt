ghost use Rattle.std.specs.Prelude.{◌≡◌, ◌≤◌, length, IfOk};
ghost use Rattle.acpi_cpc.specs.Written.{cpc_object, entry_object};

use acpi_fields::{package_of, register_object};
use acpi_values::{Cpc, CpcEntry};
use aml_data::Data;
use pw_base::Memory;
use std::alloc::Global;

fn entry_of(alloc: Global, entry: &CpcEntry) -> Result<Data, Memory>
    ensures { IfOk result (λ object. object ≡ entry_object entry.now) }
{
    match entry {
        CpcEntry::Number(number) => Ok(Data::Int(*number)),
        CpcEntry::Register(register) => register_object(alloc, register),
    }
}

/// The object of `_CPC` for these elements (ACPI 6.5, 8.4.6.1).
pub fn write_cpc(alloc: Global, cpc: &Cpc) -> Result<Data, Memory>
    requires { length cpc.now.entries ≤ 250 }
    ensures { IfOk result (λ object. object ≡ cpc_object cpc.now) }
{
    let entries = cpc.entries.as_slice();
    let front = vec![in alloc;
        Data::Int(entries.len() as u64 + 2),
        Data::Int(u64::from(cpc.revision)),
    ]?;
    let make = |entry: &CpcEntry| entry_of(alloc, entry);
    package_of(alloc, front, entries, make)
}
