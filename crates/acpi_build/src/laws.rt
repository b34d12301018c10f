//! What the definitions mean.

ghost use Rattle.std.specs.Prelude.{◌≡◌, ◌≢◌, ◌↔◌, ◌<◌, ◌≤◌, ◌∷◌, [], ℕ, List, Option, Some, None, Err};
ghost use Rattle.std.specs.Prelude.{length, slice_index, Contains};
ghost use Rattle.std.specs.List.{All, AllPairs, AllZip};
ghost use Rattle.aml_block.specs.declared.block.Block.{Block as block_type};
ghost use Rattle.aml_block.specs.Written.{IsWritableBlock};
ghost use Rattle.acpi_values.specs.declared.idle.CState.{CState as c_state};
ghost use Rattle.acpi_values.specs.declared.idle.IdleTable.{IdleTable as idle_type};
ghost use Rattle.acpi_values.specs.declared.lpi.Lpi.{Lpi as lpi_type};
ghost use Rattle.acpi_values.specs.declared.performance.ControlPair.{ControlPair as pair_type};
ghost use Rattle.acpi_values.specs.declared.register.Register.{Register as register_type};
ghost use Rattle.acpi_values.specs.Null.{null_register};
ghost use Rattle.acpi_space.specs.Distinct.{IsDistinct};
ghost use Rattle.acpi_space.specs.Namespace.{Entry as entry_type, entries_in, places_of};
ghost use Rattle.pw_plan.specs.declared.plan.Plan.{Plan as plan_type};
ghost use Rattle.acpi_build.specs.declared.fault.BuildFault.TheVariants as faults;
ghost use Rattle.acpi_build.specs.declared.fault.ObjectFault.{ObjectFault as fault_type};
ghost use Rattle.acpi_build.specs.declared.note.Note.{Note as note_type};
ghost use Rattle.acpi_build.specs.declared.survey.Outcome.TheVariants.{Planned, PastLimit};
ghost use Rattle.acpi_build.specs.declared.survey.Survey.{Survey as survey_type};
ghost use Rattle.acpi_build.specs.Finding.{containers_of, parent_of, processors_of};
ghost use Rattle.acpi_build.specs.Tables.{AreCountable};
ghost use Rattle.acpi_build.specs.Causes.{AreNotesOfCauses, IsCaused};
ghost use Rattle.acpi_build.specs.Machine.{idle_table, register_in};
ghost use Rattle.acpi_build.specs.Rows.{HasRows};
ghost use Rattle.acpi_build.specs.Planning.{parts_within, AreSame, AreSameOutcomes, IsPlanFrom, IsSurvey};
ghost use Rattle.acpi_build.specs.Meaning.{IsAround, IsContainer, IsOuter, IsParent, IsProcessor};
ghost use Rattle.acpi_build.specs.Sources.{IsContainerOf, IsCpuOf};

/// Which objects are processors and containers, and their orders (ACPI 6.5, 8.4): processors stand in
/// the order of the objects, containers by the number of their segments and then in that order.
pub fn processors_and_containers()
    ensures processors { (entries : List entry_type) (k : ℕ) → IsDistinct (places_of entries)
        → (Contains (processors_of entries) k ↔ IsProcessor entries k) }
    ensures containers { (entries : List entry_type) (k : ℕ) → IsDistinct (places_of entries)
        → (Contains (containers_of entries) k ↔ IsContainer entries k) }
    ensures in_order { (entries : List entry_type) → AllPairs (λ i j. i < j) (processors_of entries) }
    ensures outer_first { (entries : List entry_type) → AllPairs (IsOuter entries) (containers_of entries) }
{}

/// The parent of an object is the container with the longest path that begins its own and is shorter; it
/// has none where no container's path does. A plan has at most 256 containers.
pub fn parents_are_innermost()
    ensures some { (entries : List entry_type) (k n : ℕ) → IsDistinct (places_of entries)
        → length (containers_of entries) ≤ 256
        → ((parent_of entries k ≡ Some n)
        ↔ ((n < length (containers_of entries))
        × IsParent entries k (slice_index (containers_of entries) n))) }
    ensures none { (entries : List entry_type) (k : ℕ) → IsDistinct (places_of entries)
        → ((parent_of entries k ≡ None)
        ↔ ((c : ℕ) → Contains (containers_of entries) c → IsAround entries k c → ⊥)) }
{}

/// The containers and processors of a plan are those among the objects, one by one: each has its path,
/// its parent, and the tables that the objects at its names mean (ACPI 6.5, 8.4).
pub fn tables_are_meant()
    ensures containers { (entries : List entry_type) (P : plan_type) (notes : List note_type)
        → IsDistinct (places_of entries) → IsPlanFrom entries P notes
        → AllZip (IsContainerOf entries) (containers_of entries) P.containers }
    ensures processors { (entries : List entry_type) (P : plan_type) (notes : List note_type)
        → IsDistinct (places_of entries) → IsPlanFrom entries P notes
        → AllZip (IsCpuOf entries) (processors_of entries) P.cpus }
{}

/// An idle table has a row for each state of `_LPI`, or else of `_CST`, whose fields are those of the state,
/// and no other table has (ACPI 6.5, 8.4.1.1 and 8.4.3.3).
pub fn idle_rows_are_of_states()
    ensures { (lpi : Option lpi_type) (cst : Option (List c_state)) (t : idle_type)
        → HasRows lpi cst t ↔ (t ≡ idle_table lpi cst) }
{}

/// The control register of a scale is that of `_PCT` or `_PTC`, unless that is the null register (ACPI 6.5,
/// 8.4.4.1 and 8.4.5.1).
pub fn control_registers_are_not_null()
    ensures { (pair : pair_type) (r : register_type)
        → (register_in (Some pair) ≡ Some r) ↔ ((pair.control ≡ r) × (r ≢ null_register)) }
{}

/// Each note has a cause, and each cause has its note, once: what stands at the names of a container or a
/// processor, an entry of `_CSD`, or a domain that can't be coordinated.
pub fn notes_have_causes()
    ensures caused { (entries : List entry_type) (P : plan_type) (notes : List note_type)
        → IsDistinct (places_of entries) → IsPlanFrom entries P notes → All (IsCaused entries P) notes }
    ensures each_once { (entries : List entry_type) (P : plan_type) (notes : List note_type)
        → IsDistinct (places_of entries) → IsPlanFrom entries P notes → AreNotesOfCauses entries P notes }
{}

/// Objects tell of at most one plan with its notes.
pub fn one_plan()
    ensures { (entries : List entry_type) (P Q : plan_type) (first second : List note_type)
        → IsPlanFrom entries P first → IsPlanFrom entries Q second → AreSame P Q × (first ≡ second) }
{}

/// A survey tells what `plan` answers: the first object that means nothing, or else the plan with its notes,
/// or the limit that is passed.
pub fn surveys_tell_plans()
    ensures object { (entries : List entry_type) (S : survey_type) (f : fault_type) (fs : List fault_type)
        → IsSurvey entries S → S.faults ≡ f ∷ fs
        → parts_within entries [] ≡ Err (faults.Object f.path f.place f.why) }
    ensures limit { (entries : List entry_type) (S : survey_type) (which number : ℕ)
        → IsSurvey entries S → S.faults ≡ [] → S.outcome ≡ PastLimit which number
        → parts_within entries [] ≡ Err (faults.Limit which number) }
    ensures plan { (entries : List entry_type) (S : survey_type) (P : plan_type)
        → IsSurvey entries S → S.faults ≡ [] → S.outcome ≡ Planned P → IsPlanFrom entries P S.notes }
{}

/// Objects have at most one survey.
pub fn one_survey()
    ensures { (entries : List entry_type) (S T : survey_type) → IsSurvey entries S → IsSurvey entries T
        → (S.faults ≡ T.faults) × (AreSameOutcomes S.outcome T.outcome × (S.notes ≡ T.notes)) }
{}

/// What blocks place is countable where the blocks can be written, so where bytes spell them: `plan`
/// asks for no more.
pub fn blocks_are_countable()
    ensures { (blocks : List block_type) → All IsWritableBlock blocks → AreCountable (entries_in blocks) }
{}
