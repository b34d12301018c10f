//! What the definitions mean.

ghost use Rattle.std.specs.Prelude.{◌≡◌, ◌↔◌, ◌++◌, ℕ, Bool, [], List, Option, Err, Contains};
ghost use Rattle.std.specs.List.{Any, flat_map};
ghost use Rattle.std.proofs.Common.{◌⊎◌};
ghost use Rattle.aml_data.specs.declared.path.FullPath.{FullPath as path_type};
ghost use Rattle.acpi_values.specs.Idle.{rows_of};
ghost use Rattle.acpi_values.specs.declared.idle.CState.{CState as c_state_type};
ghost use Rattle.acpi_values.specs.declared.idle.IdleTable.{IdleTable as table_type};
ghost use Rattle.acpi_space.specs.Namespace.{Entry as entry_type};
ghost use Rattle.acpi_space.specs.declared.passed.PassedOver.{PassedOver as passed_type};
ghost use Rattle.acpi_build.specs.declared.fault.BuildFault.{BuildFault as fault_type};
ghost use Rattle.acpi_build.specs.declared.note.Note.{Note as note_type};
ghost use Rattle.acpi_build.specs.Planning.{parts_within, IsPlanFrom};
ghost use Rattle.pw_plan.specs.declared.domain.Domain.{Domain as domain_type};
ghost use Rattle.pw_plan.specs.declared.domain.DomainKind.{DomainKind as kind_type};
ghost use Rattle.pw_plan.specs.declared.parts.ContainerParts.{ContainerParts as container_type};
ghost use Rattle.pw_plan.specs.declared.parts.CpuParts.{CpuParts as cpu_type};
ghost use Rattle.pw_plan.specs.declared.plan.Plan.{Plan as plan_type};
ghost use Rattle.pw_findings.specs.declared.finding.Finding.{Finding as finding_type};
ghost use Rattle.pw_findings.specs.Domains.{domain_findings, unfit_findings};
ghost use Rattle.pw_states.specs.CStates.{cst_findings};
ghost use Rattle.pw_states.specs.Idle.{counted, idle_findings};
ghost use Rattle.pw_states.specs.Parents.{parent_findings};
ghost use Rattle.pw_lint.specs.Devices.{status_findings, twin_findings};
ghost use Rattle.pw_lint.specs.Laws.{IsAbsent, IsClean, IsCounted, IsDisabled, IsFalling, IsFound};
ghost use Rattle.pw_lint.specs.Laws.{IsFoundOfCpu};
ghost use Rattle.pw_lint.specs.Laws.{IsFoundOfDomain, IsOfRefusal, IsRepeated, IsTwin};
ghost use Rattle.pw_lint.specs.Laws.{IsCostlier, IsLowered, IsNowhere, IsOverflowing, IsPast};
ghost use Rattle.pw_lint.specs.Laws.{IsRootless, IsSkipped, IsUnreached};
ghost use Rattle.pw_lint.specs.Laws.{IsRising, IsShrinking, IsStill, IsUnentered, IsWise};
ghost use Rattle.pw_lint.specs.Machine.{cpu_findings, findings, AreFindings};
ghost use Rattle.pw_lint.specs.Passed.{passed_findings};
ghost use Rattle.pw_findings.specs.Scales.{rate_findings};

/// What is found of a machine is what is found of its notes, its containers, its processors and its domains;
/// and of what is passed over it is the terms in which objects may stand.
pub fn findings_are_of_objects()
    ensures passed { (passed : List passed_type) (f : finding_type)
        → Contains (flat_map passed_findings passed) f ↔ Any (λ (t : passed_type). IsSkipped t f) passed }
    ensures machine { (entries : List entry_type) (containers : List container_type) (cpus : List cpu_type)
        (domains : List domain_type) (noted : List note_type) (f : finding_type)
        → Contains (findings entries containers cpus domains noted) f
        ↔ IsFound entries containers cpus domains noted f }
    ensures processor { (entries : List entry_type) (containers : List container_type) (cpus : List cpu_type)
        (c : cpu_type) (f : finding_type)
        → Contains (cpu_findings entries containers cpus c) f ↔ IsFoundOfCpu entries containers cpus c f }
    ensures domain { (cpus : List cpu_type) (d : domain_type) (f : finding_type)
        → Contains (domain_findings cpus d) f ↔ IsFoundOfDomain cpus d f }
{}

/// What `check` refuses objects for is found; where it makes a plan, all that is found is of that, but for
/// the terms that were passed over; and nothing else can be found.
pub fn findings_of_refusals()
    ensures refused { (entries : List entry_type) (passed : List passed_type) (fault : fault_type)
        (found : List finding_type) (f : finding_type)
        → parts_within entries [] ≡ Err fault → IsOfRefusal fault f → AreFindings entries passed found
        → Contains found f }
    ensures planned { (entries : List entry_type) (passed : List passed_type) (P : plan_type)
        (noted : List note_type) (found : List finding_type)
        → IsPlanFrom entries P noted → AreFindings entries passed found
        → found ≡ flat_map passed_findings passed ++ findings entries P.containers P.cpus P.domains noted }
    ensures one { (entries : List entry_type) (passed : List passed_type) (first second : List finding_type)
        → AreFindings entries passed first → AreFindings entries passed second → first ≡ second }
{}

/// Nothing is found of a plan exactly where all notes are about unfit domains and no domain is unfit, and
/// where none of what is unwise holds; and nothing at all exactly where objects make such a plan and no term
/// was passed over in which objects may stand.
pub fn nothing_is_found()
    ensures whole { (entries : List entry_type) (passed : List passed_type) (found : List finding_type)
        → AreFindings entries passed found → (found ≡ []) ↔ IsClean entries passed }
    ensures plan { (entries : List entry_type) (containers : List container_type) (cpus : List cpu_type)
        (domains : List domain_type) (noted : List note_type)
        → (findings entries containers cpus domains noted ≡ [])
        ↔ IsWise entries containers cpus domains noted }
{}

/// A container or a processor is found not to be present, or to be present and not enabled, by the number of
/// its `_STA` (ACPI 6.5, 6.3.7); and where two of one `_UID` are found, the earlier one is the first with
/// that.
pub fn findings_of_devices()
    ensures status { (entries : List entry_type) (path : path_type) (f : finding_type)
        → Contains (status_findings entries path) f ↔ (IsAbsent entries path f ⊎ IsDisabled entries path f) }
    ensures names { (entries : List entry_type) (cpus : List cpu_type) (f : finding_type)
        → Contains (twin_findings entries cpus) f → IsTwin entries cpus f }
{}

/// What is found of idle states: each that wakes sooner than the one before it or is worth its cost sooner,
/// each C state with the null register, and another number of C states than the first processor with any has
/// (ACPI 6.5, 8.4.1.1 and 8.4.3.3).
pub fn findings_of_idle_states()
    ensures states { (path : path_type) (t : table_type) (f : finding_type)
        → Contains (idle_findings path t) f
        ↔ (IsUnentered path t f ⊎ (IsFalling path (rows_of t) f ⊎ IsShrinking path (rows_of t) f)) }
    ensures count { (c : cpu_type) (first : Option cpu_type) (f : finding_type)
        → Contains (counted c first) f ↔ IsCounted c first f }
{}

/// What is found of idle states beside the container around: each that enables one that isn't there, that
/// none enables the deepest one, and each to whose number one that it enables adds too much (ACPI 6.5,
/// 8.4.3.3).
pub fn findings_beside_parents()
    ensures { (path : path_type) (known : Bool) (parent : Option container_type) (t : table_type)
        (f : finding_type)
        → Contains (parent_findings path known parent t) f
        ↔ ((IsNowhere path parent (rows_of t) f ⊎ IsPast path parent (rows_of t) f)
        ⊎ (IsUnreached path known parent (rows_of t) f ⊎ IsOverflowing path parent (rows_of t) f)) }
{}

/// What is found of C states: a first one that isn't C1, each of a lower type than the one before it, and
/// each that takes more power than that (ACPI 6.5, 8.4.1.1).
pub fn findings_of_c_states()
    ensures { (path : path_type) (states : List c_state_type) (f : finding_type)
        → Contains (cst_findings path states) f
        ↔ (IsRootless path states f ⊎ (IsLowered path states f ⊎ IsCostlier path states f)) }
{}

/// What is found of rates: each of 0, each that is faster than the one before it, the first that is the same
/// as an earlier one (ACPI 6.5, 8.4.5.2 and 8.4.4.2).
pub fn findings_of_rates()
    ensures { (kind : kind_type) (path : path_type) (rates : List ℕ) (f : finding_type)
        → Contains (rate_findings kind path rates) f
        ↔ ((IsStill kind path rates f ⊎ IsRising kind path rates f) ⊎ IsRepeated kind path rates f) }
{}

/// A reason is found of a domain exactly where it is unfit (ACPI 6.5, 8.3).
pub fn findings_of_domains()
    ensures { (cpus : List cpu_type) (d : domain_type) → (unfit_findings cpus d ≡ []) ↔ (d.unfit ≡ 0) }
{}
