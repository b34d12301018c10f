ghost use Rattle.std.specs.Prelude.{◌≡◌, ◌<◌, ℕ, true, List, length, slice_index_or};
ghost use Rattle.pw_plan.specs.declared.domain.Domain.{Domain as domain};
ghost use Rattle.pw_plan.specs.declared.domain.DomainKind.{DomainKind as domain_kind};
ghost use Rattle.pw_plan.specs.declared.index.CpuIndex.{CpuIndex as cpu_index};
ghost use Rattle.pw_plan.specs.declared.parts.CpuParts.{CpuParts as cpu_parts};
ghost use Rattle.pw_plan.specs.declared.plan.Plan.{Plan as plan};
ghost use Rattle.pw_plan.specs.Domains.{AreDomains};
ghost use Rattle.pw_plan.specs.Firsts.{HasInKind, IsIndexOf, IsPlaceOfFirst, IsUnfitOf};
ghost use Rattle.pw_plan.specs.Groups.{has_member, no_domain, no_group};
ghost use Rattle.pw_plan.specs.Parts.{FitsCsd, cpu_in};
ghost use Rattle.pw_plan.specs.Places.{domain_of, group_of, unfit_of};
ghost use Rattle.pw_plan.specs.inner.DomainList.{all_domains};

/// What processors declare tells their domains, with their members, order and faults: there is just
/// one list of them (ACPI 6.5, 8.3).
pub fn domains_are_known()
    ensures one { (ps : List cpu_parts) (ds es : List domain) → AreDomains ps ds → AreDomains ps es
        → ds ≡ es }
    // The computed list is it.
    ensures listed { (ps : List cpu_parts)
        → ((p : ℕ) → p < length ps → FitsCsd (cpu_in ps p)) → AreDomains ps (all_domains ps) }
{}

/// A processor's domain of a kind, its unfit idle domain and its group are each the first of the
/// plan's that is so; where there is none, the length of the list stands for its place.
pub fn first_places_are_told()
    ensures domain { (P : plan) (kind : domain_kind) (p : ℕ)
        → IsPlaceOfFirst (HasInKind kind p) no_domain P.domains (domain_of P kind p) }
    ensures unfit { (P : plan) (p : ℕ)
        → IsPlaceOfFirst (IsUnfitOf p) no_domain P.domains (unfit_of P p) }
    ensures group { (P : plan) (p : ℕ)
        → IsPlaceOfFirst (λ g. has_member g.members p ≡ true) no_group P.groups (group_of P p) }
{}

/// The index shows each processor among the members of its domains, of its first unfit idle domain
/// and of its group.
pub fn indices_show_first_places()
    ensures { (P : plan) (p : ℕ) (i : cpu_index) → p < length P.cpus
        → IsIndexOf P p (slice_index_or P.cpu_index p i) }
{}
