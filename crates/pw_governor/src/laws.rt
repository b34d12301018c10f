ghost use Rattle.std.specs.Prelude.{◌<◌, ◌≤◌, ◌^◌, ℕ};
ghost use Rattle.acpi_values.specs.declared.idle.IdleTable.{IdleTable as table};
ghost use Rattle.pw_governor.specs.Choices.{IsLawful, Suits, choice};

/// The state that is chosen may be chosen, and no deeper one that 32 bits number suits
/// (ACPI 6.5, 8.4.3.2).
pub fn choices_are_deepest()
    ensures lawful { (t : table) (tolerance residency : ℕ)
        → IsLawful t tolerance residency (choice t tolerance residency) }
    ensures deepest { (t : table) (tolerance residency s : ℕ) → s < 2 ^ 32
        → Suits t tolerance residency s → s ≤ choice t tolerance residency }
{}
