//! What the definitions of the written form say of it: it spells its value, and none that does is
//! shorter.

ghost use Rattle.std.specs.Prelude.{◌≡◌, ◌+◌, ◌<◌, ◌≤◌, ◌^◌, ◌++◌, ◌↔◌, ℕ, List, length};
ghost use Rattle.aml_data.specs.declared.data.Data.{Data};
ghost use Rattle.aml_data.specs.declared.path.Path.{Path};
ghost use Rattle.aml_data.specs.declared.limits.TheConstants.{LONGEST_CONTENT, TOO_LONG};
ghost use Rattle.aml_data.specs.Countable.{IsCountable, IsIn};
ghost use Rattle.aml_data.specs.Grammar.{Const, Len, NameOf, Spells, SpellsWithin};
ghost use Rattle.aml_data.specs.Nesting.{nesting};
ghost use Rattle.aml_data.specs.Decoded.{IsSpelledAt};
ghost use Rattle.aml_data.specs.Written.{written, written_constant, written_length, written_name};
ghost use Rattle.aml_data.specs.Written.{IsWritable, IsWritablePath, IsWritableWithin};

/// The written form of a number spells it, and no integer constant of the number is shorter
/// (ACPI 6.5, 20.2.3).
pub fn shortest_constant()
    ensures spelled { (n : ℕ) → n < 2 ^ 64 → Const n (written_constant n) }
    ensures least { (n : ℕ) (c : List ℕ) → Const n c → length (written_constant n) ≤ length c }
{}

/// The written PkgLength counts its own bytes and those that follow, and none that does is shorter
/// (ACPI 6.5, 20.2.4).
pub fn shortest_length()
    ensures spelled { (n : ℕ) → n ≤ LONGEST_CONTENT → Len (length (written_length n) + n) (written_length n) }
    ensures least { (n : ℕ) (p : List ℕ) → Len (length p + n) p → length (written_length n) ≤ length p }
{}

/// The written form of a name spells it, no spelling of the name is shorter, and every name that is
/// spelled can be written (ACPI 6.5, 20.2.2).
pub fn shortest_name()
    ensures spelled { (path : Path) → IsWritablePath path → NameOf path (written_name path) }
    ensures least { (path : Path) (b : List ℕ) → NameOf path b → length (written_name path) ≤ length b }
    ensures writable { (path : Path) (b : List ℕ) → NameOf path b → IsWritablePath path }
{}

/// The written form of a data object spells it, no spelling of the object is shorter, and every object
/// that is spelled in fewer than 2 ^ 28 bytes can be written, so every object that is read from a
/// definition block (ACPI 6.5, 20.2.3).
pub fn shortest_object()
    ensures spelled { (v : Data) → IsWritable v → Spells v (written v) }
    // What stands at the place where it was written is this object, whatever stands before and after.
    ensures placed { (v : Data) (before after : List ℕ) → IsWritable v
        → IsSpelledAt Spells (before ++ written v ++ after) (length before) v (length (written v)) }
    // What was written is read as itself, whatever follows.
    ensures read { (v w : Data) (b x y : List ℕ) → IsWritable v → Spells w b → b ++ x ≡ written v ++ y
        → (w ≡ v) × (b ≡ written v) }
    ensures least { (v : Data) (b : List ℕ) → Spells v b → length (written v) ≤ length b }
    ensures writable { (v : Data) (b : List ℕ) → Spells v b → length b < TOO_LONG → IsWritable v }
{}

/// An object is spelled, or can be written, within some nesting exactly where it is so within any and its
/// packages nest no deeper.
pub fn nesting_within()
    ensures spelled { (n : ℕ) (v : Data) (b : List ℕ) → SpellsWithin n v b
        ↔ (((m : ℕ) × SpellsWithin m v b) × (nesting v ≤ n)) }
    ensures writable { (n : ℕ) (v : Data) → IsWritableWithin n v
        ↔ (((m : ℕ) × IsWritableWithin m v) × (nesting v ≤ n)) }
{}

/// Whatever is in an object that can be written, or that is spelled in fewer than 2 ^ 32 bytes, has
/// elements that 32 bits can count, as the readers of tables ask: so has all that `decode` answers.
pub fn countable_parts()
    ensures writable { (v part : Data) → IsWritable v → IsIn part v → IsCountable part }
    ensures spelled { (v part : Data) (b : List ℕ) → Spells v b → length b < 2 ^ 32 → IsIn part v
        → IsCountable part }
{}
