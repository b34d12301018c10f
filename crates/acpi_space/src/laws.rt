//! What holds of the definitions.

ghost use Rattle.std.specs.Prelude.{◌≡◌, ◌↔◌, [], ◌∷◌, ◌++◌, ℕ, List, Some};
ghost use Rattle.aml_data.specs.Decoded.{AreBytes};
ghost use Rattle.aml_data.specs.declared.path.Path.{Path as path_type};
ghost use Rattle.acpi_space.specs.Places.{Place as place, Opens, opened};
ghost use Rattle.acpi_space.specs.MethodNames.{IsMethodName};
ghost use Rattle.aml_block.specs.declared.block.Block.{Block as block_type};
ghost use Rattle.aml_block.specs.declared.block.Signature.TheVariants.{Dsdt};
ghost use Rattle.acpi_space.specs.Namespace.{block_turn, entries_in, entries_of};
ghost use Rattle.acpi_space.specs.Steps.{Step as step};
ghost use Rattle.acpi_space.specs.Widths.{AreOfWidthBy, HaveNoDsdt};
ghost use Rattle.acpi_space.specs.inner.Naming.{named_by};

/// A method is placed by the name that its body begins with, which is at most one (ACPI 6.5, 20.2.5.2).
pub fn method_names()
    ensures named { (body : List ℕ) (path : path_type) → AreBytes body
        → (named_by body ≡ Some path) ↔ IsMethodName body path }
    ensures one { (body : List ℕ) (a b : path_type) → IsMethodName body a → IsMethodName body b → a ≡ b }
{}

/// A Scope opens the nearest known place, from the scope that it stands in up to the root (ACPI 6.5, 5.3).
pub fn opened_place()
    ensures { (known : List place) (scope whole : place) (path : path_type) →
        Opens known scope path whole ↔ (whole ≡ opened known scope path) }
{}

/// The first DSDT among blocks tells by its revision how wide the integers of all are; where no block is
/// a DSDT, each tells it of its own (ACPI 6.5, 5.2.11.1).
pub fn first_dsdt_tells_widths()
    ensures first { (front back : List block_type) (dsdt : block_type)
        → HaveNoDsdt front → dsdt.header.signature ≡ Dsdt
        → AreOfWidthBy dsdt.header.revision (entries_in (front ++ dsdt ∷ back)) }
    ensures none { (blocks : List block_type) (block : block_type) (known : List step) → HaveNoDsdt blocks
        → AreOfWidthBy block.header.revision (entries_of (block_turn blocks block [] known)) }
{}
