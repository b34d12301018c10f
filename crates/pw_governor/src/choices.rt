ghost use Rattle.std.specs.Prelude.{◌≡◌, ◌≤◌, length};
ghost use Rattle.acpi_values.specs.Idle.{rows_of};
ghost use Rattle.pw_plan.specs.Places.{row_at};
ghost use Rattle.pw_governor.specs.Choices.{choice, is_lawful, IsLawful};

use acpi_values::IdleTable;

/// Whether a state of the table may be chosen.
fn may_choose(table: &IdleTable, state: usize, tolerance: u32, residency: u32) -> bool
    requires from { 1 ≤ state }
    requires to { state ≤ length (rows_of table.now) }
    ensures { result ≡ is_lawful tolerance residency (row_at table.now state) }
{
    let row = table.states()[state - 1];
    row.enabled && row.latency <= tolerance && row.residency <= residency
}

/// The deepest state of the table that is enabled and whose latency and residency, in microseconds, are
/// at most the tolerance and the residency; 0 where there is none. Of a table with more states than 32
/// bits number it is the deepest of those.
#[tactic(auto, using(crate::proofs::Lawfulness::choice_lawful), unfolding(crate::specs::Choices::choice))]
pub fn deepest(table: &IdleTable, tolerance: u32, residency: u32) -> u32
    ensures choice { result ≡ choice table.now tolerance residency }
    ensures lawful { IsLawful table.now tolerance residency result }
{
    let mut state = table.states().len().min(u32::MAX as usize);
    while state > 0 {
        if may_choose(table, state, tolerance, residency) {
            return state as u32;
        }
        state -= 1;
    }
    0
}
