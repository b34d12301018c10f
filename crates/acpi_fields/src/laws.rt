//! What the definitions say of themselves.

ghost use Rattle.std.specs.Prelude.{◌≡◌, ◌↔◌, ◌<◌, ◌^◌, ℕ, List, Some, Ok};
ghost use Rattle.aml_data.specs.declared.data.Data.{Data};
ghost use Rattle.aml_data.specs.declared.data.Data.TheVariants.{Int as integer, Text as string};
ghost use Rattle.aml_data.specs.declared.data.Width.{Width};
ghost use Rattle.aml_data.specs.Meaning.{meaning};
ghost use Rattle.aml_data.specs.Written.{IsWritable};
ghost use Rattle.acpi_values.specs.Registers.{register_of};
ghost use Rattle.acpi_values.specs.declared.dependency.Dependency.{Dependency};
ghost use Rattle.acpi_values.specs.declared.fault.Place.{Place};
ghost use Rattle.acpi_values.specs.declared.register.Register.{Register};
ghost use Rattle.acpi_fields.specs.Dependencies.{dependency_of};
ghost use Rattle.acpi_fields.specs.Meaning.{DependencyMeans, IsInteger, IsNumber, IsPackageOf, IsRegisterObject};
ghost use Rattle.acpi_fields.specs.Meaning.{IsTemplateOf};
ghost use Rattle.acpi_fields.specs.Reading.{elements_at, integer_at, most_32, most_64, register_at, text_at};
ghost use Rattle.acpi_fields.specs.Writing.{FitsWidth, package_object, register_object};

/// What is written of a number, a register or a package means it, at either width of integers.
pub fn written_field()
    ensures number { (width : Width) (at : Place) (n : ℕ) → n < 2 ^ 32
        → integer_at width most_32 at (integer n) ≡ Ok n }
    ensures long_number { (width : Width) (at : Place) (n : ℕ) → FitsWidth width n
        → integer_at width most_64 at (integer n) ≡ Ok n }
    ensures register { (at : Place) (r : Register) → r.address < 2 ^ 64
        → register_at at (register_object r) ≡ Ok r }
    ensures package { (at : Place) (elements : List Data)
        → elements_at at (package_object elements) ≡ Ok elements }
{}

/// What is read of an integer, a template, a register, a string, a package or a dependency, wherever it
/// stands, is what the object means, and what it means is read (ACPI 6.5, 8.3 and 8.4).
pub fn meant_field()
    ensures integer { (width : Width) (object : Data) (n : ℕ)
        → (meaning object width ≡ Some n) ↔ IsInteger width object n }
    ensures number { (width : Width) (at : Place) (object : Data) (n : ℕ)
        → (integer_at width most_32 at object ≡ Ok n) ↔ IsNumber width (2 ^ 32) object n }
    ensures long_number { (width : Width) (at : Place) (object : Data) (n : ℕ)
        → (integer_at width most_64 at object ≡ Ok n) ↔ IsNumber width (2 ^ 64) object n }
    ensures template { (bytes : List ℕ) (r : Register)
        → (register_of bytes ≡ Ok r) ↔ IsTemplateOf bytes r }
    ensures register { (at : Place) (object : Data) (r : Register)
        → (register_at at object ≡ Ok r) ↔ IsRegisterObject object r }
    ensures text { (at : Place) (object : Data) (text : List ℕ)
        → (text_at at object ≡ Ok text) ↔ (object ≡ string text) }
    ensures elements { (at : Place) (object : Data) (elements : List Data)
        → (elements_at at object ≡ Ok elements) ↔ IsPackageOf object elements }
    ensures dependency { (width : Width) (count k : ℕ) (fields : List Data) (d : Dependency)
        → (dependency_of width count k fields ≡ Ok d) ↔ DependencyMeans width count fields d }
{}

/// An object means at most one integer and one register, and is a package of one list of elements
/// alone.
pub fn one_field()
    ensures number { (width : Width) (object : Data) (m n : ℕ) → IsInteger width object m
        → IsInteger width object n → m ≡ n }
    ensures register { (object : Data) (r s : Register) → IsRegisterObject object r
        → IsRegisterObject object s → r ≡ s }
    ensures elements { (object : Data) (xs ys : List Data) → IsPackageOf object xs
        → IsPackageOf object ys → xs ≡ ys }
{}

/// What is written of a number or a register can be written in a definition block (ACPI 6.5, 20.2.3).
pub fn writable_field()
    ensures number { (n : ℕ) → n < 2 ^ 64 → IsWritable (integer n) }
    ensures register { (r : Register) → IsWritable (register_object r) }
{}
