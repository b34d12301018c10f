//! What is found of terms that are passed over.

ghost use Rattle.std.specs.Prelude.{◌≡◌, ◌++◌, OnOk};
ghost use Rattle.std.specs.List.{flat_map};
ghost use Rattle.pw_lint.specs.Passed.{passed_findings, skipped};

use crate::notes::find_unused;
use acpi_space::PassedOver;
use aml_block::opcode::{ELSE_OP, IF_OP, POWER_RES_OP, THERMAL_ZONE_OP, WHILE_OP};
use pw_base::Memory;
use pw_findings::{Finding, Unread, Unused};
use std::alloc::Global;

/// A term of this opcode, where objects may stand in it.
fn skipped(opcode: u16) -> Option<Unused>
    ensures { result ≡ skipped opcode }
{
    match opcode {
        IF_OP => Some(Unused::Skipped(Unread::If)),
        ELSE_OP => Some(Unused::Skipped(Unread::Else)),
        WHILE_OP => Some(Unused::Skipped(Unread::While)),
        POWER_RES_OP => Some(Unused::Skipped(Unread::PowerResource)),
        THERMAL_ZONE_OP => Some(Unused::Skipped(Unread::ThermalZone)),
        _ => None,
    }
}

/// Adds what is found of terms that are passed over, in their order.
pub(crate) fn find_passed(
    alloc: Global,
    passed: &[PassedOver],
    found: &mut Vec<Finding>,
) -> Result<(), Memory>
    ensures { OnOk result (found.new.items ≡ found.old.items ++ flat_map passed_findings passed.now) }
{
    for term in passed {
        find_unused(alloc, &term.path, skipped(term.opcode), found)?;
    }
    Ok(())
}
