ghost use Rattle.std.specs.Prelude.{◌≡◌, ◌↔◌, ◌<◌, ◌≤◌, ◌-◌, ℕ, min, true, false, Some, length};
ghost use Rattle.pw_plan.specs.declared.domain.DomainKind.{DomainKind as domain_kind};
ghost use Rattle.pw_plan.specs.declared.parts.Scale.{Scale as scale_part};
ghost use Rattle.pw_plan.specs.declared.plan.Plan.{Plan as plan};
ghost use Rattle.pw_plan.specs.Groups.{has_member, is_software};
ghost use Rattle.pw_plan.specs.Parts.{scale_of};
ghost use Rattle.pw_plan.specs.Places.{cpu_at, domain_at};
ghost use Rattle.pw_model.specs.States.{ask_of, limit_of, opening, running, vote_of};
ghost use Rattle.pw_model.specs.Domains.{standing};
ghost use Rattle.pw_model.specs.Laws.{LimitsWithin};

/// At the start nobody idles, each processor's limit is that of its tables, or the last state where
/// it is past that, and its ask is its limit; so a domain stands at its slowest limit, and in one
/// that hardware coordinates each member at its own.
pub fn starts_are_those_of_the_tables()
    ensures votes { (P : plan) (p : ℕ) → vote_of (opening P) p ≡ running }
    ensures limits { (P : plan) (kind : domain_kind) (p : ℕ) (scale : scale_part) → p < length P.cpus
        → scale_of kind (cpu_at P p) ≡ Some scale
        → limit_of kind (opening P) p ≡ min scale.limit (length scale.controls - 1) }
    ensures asks { (P : plan) (kind : domain_kind) (p : ℕ)
        → ask_of kind (opening P) p ≡ limit_of kind (opening P) p }
    ensures software { (P : plan) (d p q t : ℕ) → is_software (domain_at P d).coord ≡ true
        → has_member (domain_at P d).members q ≡ true
        → standing P (opening P) d p ≤ t ↔ LimitsWithin P (opening P) d t }
    ensures hardware { (P : plan) (d p : ℕ) → is_software (domain_at P d).coord ≡ false
        → standing P (opening P) d p ≡ limit_of (domain_at P d).kind (opening P) p }
{}
