ghost use Rattle.std.specs.Prelude.{◌≡◌};
ghost use Rattle.pw_cppc.specs.Planning.{domain_at, domain_of};
ghost use Rattle.pw_cppc.specs.Requests.{Has};
ghost use Rattle.pw_cppc.specs.Answers.{crossing, fixed_refusal, refusal};

use crate::numbers::CppcNumbers;
use crate::reply::CppcReply;
use crate::standings::number;
use crate::{CppcPlan, CppcRequest};

/// Why the processor's domain can't be coordinated, 0 where it can or has none.
#[tactic(auto, unfolding(crate::specs::Sound::no_domain))]
fn unfit_of(plan: &CppcPlan, cpu: u32) -> u8
    ensures { result ≡ (domain_at plan.now (domain_of plan.now cpu)).unfit }
{
    match plan.domain_of(cpu) {
        None => 0,
        Some(place) => plan.domain(place).unfit,
    }
}

/// The refusal that comes whatever was asked before, if there is one.
fn fixed_refusal(plan: &CppcPlan, request: CppcRequest) -> Option<CppcReply>
    requires { Has plan.now request }
    ensures { result ≡ fixed_refusal plan.now request }
{
    let cpu = request.cpu();
    let value = u64::from(request.value());
    let parts = plan.parts(cpu);
    if parts.cpc.is_none() {
        return Some(CppcReply::NoTable);
    }
    let why = unfit_of(plan, cpu);
    if why != 0 {
        return Some(CppcReply::Unfit { why });
    }
    let lowest = parts.lowest();
    let highest = parts.highest();
    if value < lowest || highest < value {
        return Some(CppcReply::OutOfRange { lowest, highest });
    }
    None
}

/// That a minimum is above the processor's maximum, or a maximum below its minimum.
fn crossing(numbers: &CppcNumbers, request: CppcRequest) -> Option<CppcReply>
    ensures { result ≡ crossing numbers.now request }
{
    match request {
        CppcRequest::Desired { .. } => None,
        CppcRequest::Minimum { cpu, value } => {
            let maximum = number(numbers.maxima.as_slice(), cpu);
            if maximum < u64::from(value) {
                Some(CppcReply::Crossed { bound: maximum })
            } else {
                None
            }
        }
        CppcRequest::Maximum { cpu, value } => {
            let minimum = number(numbers.minima.as_slice(), cpu);
            if u64::from(value) < minimum {
                Some(CppcReply::Crossed { bound: minimum })
            } else {
                None
            }
        }
    }
}

/// Why the request is refused, if it is.
pub fn refusal(plan: &CppcPlan, numbers: &CppcNumbers, request: CppcRequest) -> Option<CppcReply>
    requires { Has plan.now request }
    ensures { result ≡ refusal plan.now numbers.now request }
{
    match fixed_refusal(plan, request) {
        Some(reply) => Some(reply),
        None => crossing(numbers, request),
    }
}
