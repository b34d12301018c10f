//! What an object means, and that what is written can be written and means its value.

ghost use Rattle.std.specs.Prelude.{◌≡◌, ◌↔◌, ◌<◌, ◌≤◌, Ok, length};
ghost use Rattle.std.specs.List.{AllByRecursion};
ghost use Rattle.aml_data.specs.declared.data.Data.{Data};
ghost use Rattle.aml_data.specs.declared.data.Width.{Width};
ghost use Rattle.aml_data.specs.Written.{IsWritable};
ghost use Rattle.acpi_values.specs.declared.performance.Cpc.{Cpc};
ghost use Rattle.acpi_cpc.specs.Cpcs.{cpc_of};
ghost use Rattle.acpi_fields.specs.Meaning.{IsRefusedWhereNothing};
ghost use Rattle.acpi_cpc.specs.Meaning.{CpcMeans};
ghost use Rattle.acpi_cpc.specs.Written.{IsCpc, IsEntry, cpc_object};

/// What is read of continuous performance control is what the object means, and what it means is read
/// (ACPI 6.5, 8.4.6.1).
pub fn meant_cpc()
    ensures { (width : Width) (object : Data) (cpc : Cpc)
        → (cpc_of width object ≡ Ok cpc) ↔ CpcMeans width object cpc }
{}

/// An object is refused, at some place, exactly where it means nothing.
pub fn refused_cpc()
    ensures { (width : Width) (object : Data)
        → IsRefusedWhereNothing (cpc_of width object) (CpcMeans width object) }
{}

/// An object means at most one continuous performance control.
pub fn one_cpc()
    ensures { (width : Width) (object : Data) (x y : Cpc)
        → CpcMeans width object x → CpcMeans width object y → x ≡ y }
{}

/// What is written of continuous performance control means it, at either width of integers that its
/// numbers fit.
pub fn written_cpc()
    ensures { (width : Width) (cpc : Cpc) → IsCpc width cpc → cpc_of width (cpc_object cpc) ≡ Ok cpc }
{}

/// What is written of at most 250 elements behind the first two can be written in a definition block,
/// whatever the revision (ACPI 6.5, 20.2.3).
pub fn writable_cpc()
    ensures { (width : Width) (cpc : Cpc) → length cpc.entries ≤ 250 → cpc.revision < 256
        → AllByRecursion (IsEntry width) cpc.entries → IsWritable (cpc_object cpc) }
{}
