ghost use Rattle.std.specs.Prelude.{◌≡◌, ◌<◌, ◌∷◌, ◌++◌, [], true, length};
ghost use Rattle.std.specs.Option.{is_some};
ghost use Rattle.pw_plan.specs.Index.{member_place};
ghost use Rattle.pw_plan.specs.Parts.{count_of, scale_of};
ghost use Rattle.pw_plan.specs.Places.{cpu_at, domain_at, domain_of};
ghost use Rattle.pw_plan.specs.Requests.{domain_bound};
ghost use Rattle.pw_model.specs.Effects.{ask_effect, limit_effect};
ghost use Rattle.pw_model.specs.Records.{domain as scaled};
ghost use Rattle.pw_domain.specs.Domains.{domain_part};
ghost use Rattle.pw_regs.specs.Rooms.{HasRoom};
ghost use Rattle.pw_walker.specs.Records.{IsDomain};

use pw_core::{Ops, capped};
use pw_domain::DomainRec;
use pw_model::Reply;
use pw_plan::{DomainKind, Plan};

/// Asks for a state on the record of the processor's domain, where the processor is this member.
#[inline(always)]
pub fn ask_domain(
    levels: &mut DomainRec,
    plan: &Plan,
    kind: DomainKind,
    cpu: u32,
    member: u32,
    index: u32,
    ops: &mut Ops,
) -> Reply
    requires cpu { cpu < length plan.now.cpus }
    requires scale { is_some (scale_of kind (cpu_at plan.now cpu)) ≡ true }
    requires index { index < count_of (scale_of kind (cpu_at plan.now cpu)) }
    requires of { IsDomain plan.now (domain_of plan.now kind cpu) levels.old }
    requires member { member ≡ member_place (domain_at plan.now (domain_of plan.now kind cpu)).members cpu }
    requires room { HasRoom ops.old (domain_bound plan.now kind cpu) }
    ensures of { IsDomain plan.now (domain_of plan.now kind cpu) levels.new }
    ensures reply { let d = domain_of plan.now kind cpu in
        result ≡ (ask_effect plan.now kind cpu index d (domain_part levels.old)).reply }
    ensures part { let d = domain_of plan.now kind cpu in
        (ask_effect plan.now kind cpu index d (domain_part levels.old)).takes
        ≡ record { place = scaled d; part = domain_part levels.new } ∷ [] }
    ensures list { let d = domain_of plan.now kind cpu in
        ops.new ≡ record ops.old {
          elements = ops.old.elements ++ (ask_effect plan.now kind cpu index d (domain_part levels.old)).ops;
        } }
{
    let limit = u32::from(levels.own_limit(member));
    if index < limit {
        return Reply::AboveLimit { limit };
    }
    Reply::Stands {
        index: u32::from(levels.ask_ops(plan, member, index as u8, ops)),
    }
}

/// Sets a limit on the record of the processor's domain, where the processor is this member.
#[inline(always)]
pub fn limit_domain(
    levels: &mut DomainRec,
    plan: &Plan,
    kind: DomainKind,
    cpu: u32,
    member: u32,
    n: u32,
    ops: &mut Ops,
) -> Reply
    requires cpu { cpu < length plan.now.cpus }
    requires scale { is_some (scale_of kind (cpu_at plan.now cpu)) ≡ true }
    requires of { IsDomain plan.now (domain_of plan.now kind cpu) levels.old }
    requires member { member ≡ member_place (domain_at plan.now (domain_of plan.now kind cpu)).members cpu }
    requires room { HasRoom ops.old (domain_bound plan.now kind cpu) }
    ensures of { IsDomain plan.now (domain_of plan.now kind cpu) levels.new }
    ensures reply { let d = domain_of plan.now kind cpu in
        result ≡ (limit_effect plan.now kind cpu n d (domain_part levels.old)).reply }
    ensures part { let d = domain_of plan.now kind cpu in
        (limit_effect plan.now kind cpu n d (domain_part levels.old)).takes
        ≡ record { place = scaled d; part = domain_part levels.new } ∷ [] }
    ensures list { let d = domain_of plan.now kind cpu in
        ops.new ≡ record ops.old {
          elements = ops.old.elements ++ (limit_effect plan.now kind cpu n d (domain_part levels.old)).ops;
        } }
{
    let limit = capped(plan, kind, cpu, n);
    Reply::Stands {
        index: u32::from(levels.limit_ops(plan, member, limit, ops)),
    }
}
