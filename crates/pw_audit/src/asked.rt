//! What a script asks for, processor by processor.
ghost use Rattle.std.specs.Prelude.{◌≡◌, ◌<◌, ℕ, length, map, IfOk};
ghost use Rattle.pw_history.specs.Asked.{own};
ghost use Rattle.pw_audit.specs.inner.Queues.{left_of};

use crate::kind::Audited;
use crate::queues::Queues;
use pw_base::Memory;
use std::alloc::Global;

/// What the lines of a script ask for.
pub(crate) fn asked_by<T: Audited>(
    alloc: Global,
    cpus: usize,
    lines: &[T::Line],
) -> Result<Queues<T::Request>, Memory>
    ensures size { IfOk result (λ asked. length asked ≡ cpus) }
    ensures each { IfOk result (λ asked. (p : ℕ) → p < cpus →
        left_of asked p ≡ own T.words p (map T.ask lines.now)) }
{
    let mut asked = Queues::none(alloc, cpus)?;
    let mut at = lines.len();
    while at > 0 {
        at -= 1;
        let request = T::request_of(&lines[at]);
        asked.put(T::cpu(request), request)?;
    }
    Ok(asked)
}
