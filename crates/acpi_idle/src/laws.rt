//! What an object means, and that what is written can be written and means its value.

ghost use Rattle.std.specs.Prelude.{◌≡◌, ◌↔◌, ◌<◌, ◌≤◌, List, Ok, length};
ghost use Rattle.std.specs.List.{AllByRecursion};
ghost use Rattle.aml_data.specs.declared.data.Data.{Data};
ghost use Rattle.aml_data.specs.declared.data.Width.{Width};
ghost use Rattle.aml_data.specs.Written.{IsWritable};
ghost use Rattle.acpi_values.specs.declared.dependency.CDependency.{CDependency};
ghost use Rattle.acpi_values.specs.declared.idle.CState.{CState};
ghost use Rattle.acpi_values.specs.declared.lpi.Lpi.{Lpi};
ghost use Rattle.acpi_idle.specs.CStates.{csd_of, cst_of};
ghost use Rattle.acpi_idle.specs.Lpis.{lpi_of};
ghost use Rattle.acpi_fields.specs.Meaning.{IsRefusedWhereNothing};
ghost use Rattle.acpi_idle.specs.Meaning.{CsdMeans, CstMeans, LpiMeans};
ghost use Rattle.acpi_idle.specs.Written.{IsCDependency, IsCState, IsLpi, IsName};
ghost use Rattle.acpi_idle.specs.Written.{csd_object, cst_object, lpi_object};

/// What is read of idle tables is what the object means, and what it means is read (ACPI 6.5, 8.4.1 and
/// 8.4.3.3).
pub fn meant_idle()
    ensures cst { (width : Width) (object : Data) (states : List CState)
        → (cst_of width object ≡ Ok states) ↔ CstMeans width object states }
    ensures csd { (width : Width) (object : Data) (entries : List CDependency)
        → (csd_of width object ≡ Ok entries) ↔ CsdMeans width object entries }
    ensures lpi { (width : Width) (object : Data) (lpi : Lpi)
        → (lpi_of width object ≡ Ok lpi) ↔ LpiMeans width object lpi }
{}

/// Each object is refused, at some place, exactly where it means nothing.
pub fn refused_idle()
    ensures cst { (width : Width) (object : Data)
        → IsRefusedWhereNothing (cst_of width object) (CstMeans width object) }
    ensures csd { (width : Width) (object : Data)
        → IsRefusedWhereNothing (csd_of width object) (CsdMeans width object) }
    ensures lpi { (width : Width) (object : Data)
        → IsRefusedWhereNothing (lpi_of width object) (LpiMeans width object) }
{}

/// An object means at most one list of C states, one of their dependencies, and one table of low power
/// idle states.
pub fn one_idle()
    ensures cst { (width : Width) (object : Data) (xs ys : List CState)
        → CstMeans width object xs → CstMeans width object ys → xs ≡ ys }
    ensures csd { (width : Width) (object : Data) (xs ys : List CDependency)
        → CsdMeans width object xs → CsdMeans width object ys → xs ≡ ys }
    ensures lpi { (width : Width) (object : Data) (x y : Lpi)
        → LpiMeans width object x → LpiMeans width object y → x ≡ y }
{}

/// What is written of idle tables means them: at either width of integers, where the numbers of 64
/// bits in `_LPI` fit it. No table has more states than a package counts.
pub fn written_idle()
    ensures cst { (width : Width) (states : List CState) → length states < 256
        → AllByRecursion IsCState states → cst_of width (cst_object states) ≡ Ok states }
    ensures csd { (width : Width) (entries : List CDependency)
        → AllByRecursion IsCDependency entries → csd_of width (csd_object entries) ≡ Ok entries }
    ensures lpi { (width : Width) (lpi : Lpi) → length lpi.states < 256 → IsLpi width lpi
        → lpi_of width (lpi_object lpi) ≡ Ok lpi }
{}

/// What is written of at most 250 idle states can be written in a definition block: of `_LPI` where the
/// names are strings (ACPI 6.5, 20.2.3).
pub fn writable_idle()
    ensures cst { (states : List CState) → length states ≤ 250 → AllByRecursion IsCState states
        → IsWritable (cst_object states) }
    ensures csd { (entries : List CDependency) → length entries ≤ 250
        → AllByRecursion IsCDependency entries → IsWritable (csd_object entries) }
    ensures lpi { (width : Width) (lpi : Lpi) → length lpi.states ≤ 250 → IsLpi width lpi
        → AllByRecursion (λ s. IsName s.name) lpi.states → IsWritable (lpi_object lpi) }
{}
