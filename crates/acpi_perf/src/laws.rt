//! What an object means, and that what is written can be written and means its value, at either width
//! of integers.

ghost use Rattle.std.specs.Prelude.{◌≡◌, ◌↔◌, ◌<◌, ◌≤◌, ◌^◌, ℕ, List, Ok, length};
ghost use Rattle.std.specs.List.{AllByRecursion};
ghost use Rattle.aml_data.specs.declared.data.Data.{Data};
ghost use Rattle.aml_data.specs.declared.data.Data.TheVariants.{Int as integer};
ghost use Rattle.aml_data.specs.declared.data.Width.{Width};
ghost use Rattle.aml_data.specs.Written.{IsWritable};
ghost use Rattle.acpi_values.specs.declared.dependency.Dependency.{Dependency};
ghost use Rattle.acpi_values.specs.declared.performance.ControlPair.{ControlPair};
ghost use Rattle.acpi_values.specs.declared.performance.PState.{PState};
ghost use Rattle.acpi_values.specs.declared.performance.TState.{TState};
ghost use Rattle.acpi_fields.specs.Meaning.{IsRefusedWhereNothing};
ghost use Rattle.acpi_perf.specs.Meaning.{ControlMeans, DomainMeans, LimitMeans, PssMeans, TssMeans};
ghost use Rattle.acpi_perf.specs.Objects.{control_of, domain_of, limit_of};
ghost use Rattle.acpi_perf.specs.Scales.{pss_of, tss_of};
ghost use Rattle.acpi_perf.specs.Written.{IsDependency, IsPState, IsTState};
ghost use Rattle.acpi_perf.specs.Written.{control_object, domain_object, pss_object, tss_object};

/// What is read of performance or throttling states is what the object means, and what it means is
/// read (ACPI 6.5, 8.4.5.2 and 8.4.4.2).
pub fn meant_scale()
    ensures pss { (width : Width) (object : Data) (states : List PState)
        → (pss_of width object ≡ Ok states) ↔ PssMeans width object states }
    ensures tss { (width : Width) (object : Data) (states : List TState)
        → (tss_of width object ≡ Ok states) ↔ TssMeans width object states }
{}

/// What is read of control registers, a limit or a domain is what the object means, and what it means
/// is read (ACPI 6.5, 8.4.4 and 8.4.5).
pub fn meant_object()
    ensures control { (object : Data) (pair : ControlPair)
        → (control_of object ≡ Ok pair) ↔ ControlMeans object pair }
    ensures limit { (width : Width) (object : Data) (n : ℕ)
        → (limit_of width object ≡ Ok n) ↔ LimitMeans width object n }
    ensures domain { (width : Width) (object : Data) (d : Dependency)
        → (domain_of width object ≡ Ok d) ↔ DomainMeans width object d }
{}

/// Each object is refused, at some place, exactly where it means nothing.
pub fn refused_meaning()
    ensures pss { (width : Width) (object : Data)
        → IsRefusedWhereNothing (pss_of width object) (PssMeans width object) }
    ensures tss { (width : Width) (object : Data)
        → IsRefusedWhereNothing (tss_of width object) (TssMeans width object) }
    ensures control { (object : Data) → IsRefusedWhereNothing (control_of object) (ControlMeans object) }
    ensures limit { (width : Width) (object : Data)
        → IsRefusedWhereNothing (limit_of width object) (LimitMeans width object) }
    ensures domain { (width : Width) (object : Data)
        → IsRefusedWhereNothing (domain_of width object) (DomainMeans width object) }
{}

/// An object means at most one list of performance or throttling states, one pair of registers, one
/// limit and one domain.
pub fn one_meaning()
    ensures pss { (width : Width) (object : Data) (xs ys : List PState)
        → PssMeans width object xs → PssMeans width object ys → xs ≡ ys }
    ensures tss { (width : Width) (object : Data) (xs ys : List TState)
        → TssMeans width object xs → TssMeans width object ys → xs ≡ ys }
    ensures control { (object : Data) (x y : ControlPair)
        → ControlMeans object x → ControlMeans object y → x ≡ y }
    ensures limit { (width : Width) (object : Data) (m n : ℕ)
        → LimitMeans width object m → LimitMeans width object n → m ≡ n }
    ensures domain { (width : Width) (object : Data) (x y : Dependency)
        → DomainMeans width object x → DomainMeans width object y → x ≡ y }
{}

/// What is written of performance or throttling states means these states.
pub fn written_scale()
    ensures pss { (width : Width) (states : List PState) → AllByRecursion IsPState states
        → pss_of width (pss_object states) ≡ Ok states }
    ensures tss { (width : Width) (states : List TState) → AllByRecursion IsTState states
        → tss_of width (tss_object states) ≡ Ok states }
{}

/// What is written of control registers, a limit or a domain means it.
pub fn written_object()
    ensures control { (pair : ControlPair) → pair.control.address < 2 ^ 64
        → pair.status.address < 2 ^ 64 → control_of (control_object pair) ≡ Ok pair }
    ensures limit { (width : Width) (n : ℕ) → n < 2 ^ 32 → limit_of width (integer n) ≡ Ok n }
    ensures domain { (width : Width) (d : Dependency) → IsDependency d
        → domain_of width (domain_object d) ≡ Ok d }
{}

/// What is written of at most 250 performance or throttling states can be written in a definition block
/// (ACPI 6.5, 20.2.3).
pub fn writable_scale()
    ensures pss { (states : List PState) → length states ≤ 250 → AllByRecursion IsPState states
        → IsWritable (pss_object states) }
    ensures tss { (states : List TState) → length states ≤ 250 → AllByRecursion IsTState states
        → IsWritable (tss_object states) }
{}

/// What is written of control registers, a limit or a domain can be written in a definition block
/// (ACPI 6.5, 20.2.3).
pub fn writable_object()
    ensures control { (pair : ControlPair) → IsWritable (control_object pair) }
    ensures limit { (n : ℕ) → n < 2 ^ 32 → IsWritable (integer n) }
    ensures domain { (d : Dependency) → IsDependency d → IsWritable (domain_object d) }
{}
