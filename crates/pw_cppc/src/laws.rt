ghost use Rattle.std.specs.Prelude.{◌≡◌, ◌≢◌, ◌↔◌, List, ℕ, true, None, Some};
ghost use Rattle.std.specs.List.{AllByRecursion};
ghost use Rattle.acpi_values.specs.declared.performance.CpcEntry.TheVariants.{Register as register_element};
ghost use Rattle.acpi_values.specs.declared.register.Register.{Register as register_type};
ghost use Rattle.acpi_values.specs.Null.{null_register};
ghost use Rattle.pw_plan.specs.Groups.{has_member};
ghost use Rattle.pw_cppc.specs.declared.parts.Control.{Control as control_type};
ghost use Rattle.pw_cppc.specs.declared.parts.CppcParts.{CppcParts as cppc_parts};
ghost use Rattle.pw_cppc.specs.declared.plan.CppcDomain.{CppcDomain as cppc_domain};
ghost use Rattle.pw_cppc.specs.Domains.{AreDomains, domains_of};
ghost use Rattle.pw_cppc.specs.Reasons.{IsAlone, IsReason};
ghost use Rattle.pw_cppc.specs.Parts.{entry_of, parts_in, place_of, register_of};

/// What processors declare tells their domains, with their members, order and faults: the computed
/// list is one of them, and the only one (ACPI 6.5, 8.3).
pub fn domains_hold_those_together()
    ensures listed { (ps : List cppc_parts) → AreDomains ps (domains_of ps) }
    ensures one { (ps : List cppc_parts) (ds : List cppc_domain) → AreDomains ps ds → ds ≡ domains_of ps }
{}

/// An unfit domain's number says why: the first of six reasons that holds. A processor that declares
/// no domain is alone in one of SW_ALL, which the first three can't make unfit (ACPI 6.5, 8.3).
pub fn domains_have_reasons()
    ensures reasons { (ps : List cppc_parts)
        → AllByRecursion (λ (d : cppc_domain). IsReason ps d.members d.unfit) (domains_of ps) }
    ensures alone { (ps : List cppc_parts) (p : ℕ) → (parts_in ps p).dependency ≡ None
        → AllByRecursion (λ (d : cppc_domain). has_member d.members p ≡ true → IsAlone d p)
        (domains_of ps) }
{}

/// A control has the register that stands at its place of `_CPC`, unless that is the null register (ACPI 6.5,
/// 8.4.6.1).
pub fn control_registers_are_not_null()
    ensures { (control : control_type) (parts : cppc_parts) (r : register_type)
        → (register_of control parts ≡ Some r)
        ↔ ((entry_of parts.cpc (place_of control) ≡ Some (register_element r)) × (r ≢ null_register)) }
{}
