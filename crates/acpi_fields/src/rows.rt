ghost use Rattle.std.specs.Prelude.{◌≡◌, ◌<◌, ◌+◌, ◌++◌, ◌^◌, ℕ, length, map, IfOk};
ghost use Rattle.aml_data.specs.declared.data.Data.{Data as object};
ghost use Rattle.acpi_fields.specs.Reading.{Gives, Read, rows_from};
ghost use Rattle.acpi_fields.specs.Rows.{MakesObject, ReadsRow};
ghost use Rattle.acpi_fields.specs.Writing.{package_object};

use crate::writing::package_object;
use acpi_values::ReadFault;
use aml_data::Data;
use pw_base::Memory;
use std::alloc::Global;

/// The rows that objects are, each as this function reads it. Before the first there are so many elements.
pub fn rows_from<T: Drop, F: Fn(&Data, u32) -> Result<T, ReadFault>>(
    alloc: Global,
    objects: &[Data],
    before: u32,
    read: F,
) -> Result<Vec<T>, ReadFault>
    requires callable { F.IsAlwaysCallable read }
    requires few { before + length objects.now < 2 ^ 32 }
    ensures { (row : ℕ → object → Read T) → ReadsRow (F.post read) row
        → Gives (λ rows. rows.items) result (rows_from row (before + 1) objects.now) }
{
    let mut rows = Vec::new(alloc);
    let mut outer = before;
    for object in objects {
        outer += 1;
        rows.push(read(object, outer)?)?;
    }
    Ok(rows)
}

/// A package of these elements, and behind them of the object that this function makes of each row.
pub fn package_of<T, F: Fn(&T) -> Result<Data, Memory>>(
    alloc: Global,
    front: Vec<Data>,
    rows: &[T],
    make: F,
) -> Result<Data, Memory>
    requires callable { F.IsAlwaysCallable make }
    requires few { length front.items + length rows.now < 256 }
    ensures { (object_of : T → object) → MakesObject (F.post make) object_of
        → IfOk result (λ made. made ≡ package_object (front.items ++ map object_of rows.now)) }
{
    let mut elements = front;
    for row in rows {
        elements.push(make(row)?)?;
    }
    package_object(alloc, elements)
}
