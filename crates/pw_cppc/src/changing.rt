ghost use Rattle.std.specs.Prelude.{◌≡◌};
ghost use Rattle.pw_cppc.specs.States.{changed, number_of};
ghost use Rattle.pw_cppc.specs.inner.Changes.{CanChange, with_number};

use crate::CppcRequest;
use crate::numbers::CppcNumbers;
use crate::standings::number;

/// The number that the request would change.
pub fn number_of(numbers: &CppcNumbers, request: CppcRequest) -> u64
    ensures { result ≡ number_of numbers.now request }
{
    match request {
        CppcRequest::Desired { cpu, .. } => number(numbers.asks.as_slice(), cpu),
        CppcRequest::Minimum { cpu, .. } => number(numbers.minima.as_slice(), cpu),
        CppcRequest::Maximum { cpu, .. } => number(numbers.maxima.as_slice(), cpu),
    }
}

/// Writes this number where the request would write its own.
pub fn put(numbers: &mut CppcNumbers, request: CppcRequest, number: u64)
    requires { CanChange numbers.old request }
    ensures { numbers.new ≡ with_number numbers.old request number }
{
    match request {
        CppcRequest::Desired { cpu, .. } => numbers.asks.set(cpu as usize, number),
        CppcRequest::Minimum { cpu, .. } => numbers.minima.set(cpu as usize, number),
        CppcRequest::Maximum { cpu, .. } => numbers.maxima.set(cpu as usize, number),
    }
}

/// Writes what the request asks for.
pub fn change(numbers: &mut CppcNumbers, request: CppcRequest)
    requires { CanChange numbers.old request }
    ensures { numbers.new ≡ changed numbers.old request }
{
    put(numbers, request, u64::from(request.value()));
}
