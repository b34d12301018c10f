//! What the definitions mean.

ghost use Rattle.std.specs.Prelude.{◌≡◌, ◌↔◌, [], ◌∷◌, ◌++◌, true};
ghost use Rattle.std.specs.List.{repeat};
ghost use Rattle.acpi_values.specs.declared.register.Register.{Register as register};
ghost use Rattle.acpi_values.specs.Null.{is_null, null_register};
ghost use Rattle.acpi_values.specs.Registers.{register_bytes};

/// One register is null: the one that has a zero in each byte of its template that tells a field
/// (ACPI 6.5, 6.4.3.7 and 8.4.6.1).
pub fn one_null_register()
    ensures zeros { register_bytes null_register ≡ 130 ∷ 12 ∷ 0 ∷ repeat 12 (0 ∷ []) ++ 121 ∷ 0 ∷ [] }
    ensures only { (r : register) → (is_null r ≡ true) ↔ (r ≡ null_register) }
{}
