ghost use Rattle.std.specs.Prelude.{◌≡◌, ◌<◌, ◌≤◌, ◌^◌, length, IfOk};
ghost use Rattle.acpi_values.specs.declared.lpi.EntryMethod.TheVariants.{Register as by_register};
ghost use Rattle.pw_generate.specs.Tables.{container_idle, cpu_control, cpu_domain, cpu_idle, cpu_perf};
ghost use Rattle.pw_generate.specs.Tables.{idle_state, hardware_register, machine_header, perf_state, port_register};

use acpi_values::{ControlPair, Coord, Dependency, EntryMethod, Lpi, LpiState, PState, Register};
use aml_block::{Header, Signature};
use pw_base::{List, Memory};
use std::alloc::Global;

/// How many processors a container has.
pub const CPUS_EACH: u32 = 8;

/// How many containers a machine that is generated has at most.
pub const MOST_CONTAINERS: u32 = 32;

/// The header of the block.
#[tactic(auto, unfolding(crate::specs::Tables::machine_header))]
pub(crate) fn block_header() -> Header
    ensures { result ≡ machine_header }
{
    Header {
        signature: Signature::Ssdt,
        revision: 2,
        oem_id: *b"POWER ",
        oem_table_id: *b"POWERTAB",
        oem_revision: 1,
        creator_id: *b"PWR ",
        creator_revision: 1,
    }
}

/// A register of the processor's own fixed hardware.
fn own_register(address: u64) -> Register
    ensures { result ≡ hardware_register address }
{
    Register {
        space: 127,
        width: 32,
        offset: 0,
        access: 3,
        address,
    }
}

/// A port of a byte.
fn byte_port(address: u64) -> Register
    ensures { result ≡ port_register address }
{
    Register {
        space: 1,
        width: 8,
        offset: 0,
        access: 1,
        address,
    }
}

/// An enabled idle state that loses no context and has no counters.
fn lpi_state(
    alloc: Global,
    min_residency: u32,
    wake_latency: u32,
    parent: u32,
    entry: EntryMethod,
    name: &[u8],
) -> Result<LpiState, Memory>
    ensures { IfOk result (λ s. s ≡ idle_state min_residency wake_latency parent entry name.now) }
{
    let null = Register {
        space: 0,
        width: 0,
        offset: 0,
        access: 0,
        address: 0,
    };
    let name = List::from_vec(Vec::from_slice(alloc, name)?);
    Ok(LpiState {
        min_residency,
        wake_latency,
        flags: 1,
        lost: 0,
        frequency: 0,
        parent,
        entry,
        residency: null,
        usage: null,
        name,
    })
}

/// The idle states of a container.
#[tactic(auto, unfolding(crate::specs::Tables::container_idle))]
pub(crate) fn container_lpi(alloc: Global) -> Result<Lpi, Memory>
    ensures { IfOk result (λ lpi. lpi ≡ container_idle) }
{
    let states = vec![in alloc;
        lpi_state(alloc, 1000, 100, 0, EntryMethod::Integer(0x10), b"K1")?,
        lpi_state(alloc, 5000, 500, 0, EntryMethod::Integer(0x20), b"K2")?,
    ]?;
    Ok(Lpi {
        level: 0,
        states: List::from_vec(states),
    })
}

/// An idle state of a processor, which this register enters.
fn cpu_lpi_state(
    alloc: Global,
    min_residency: u32,
    wake_latency: u32,
    parent: u32,
    address: u64,
    name: &[u8],
) -> Result<LpiState, Memory>
    ensures { IfOk result
        (λ s. s ≡ idle_state min_residency wake_latency parent (by_register (hardware_register address))
        name.now) }
{
    let entry = EntryMethod::Register(own_register(address));
    lpi_state(alloc, min_residency, wake_latency, parent, entry, name)
}

/// The idle states of a processor.
#[tactic(auto, unfolding(crate::specs::Tables::cpu_idle))]
pub(crate) fn cpu_lpi(alloc: Global) -> Result<Lpi, Memory>
    ensures { IfOk result (λ lpi. lpi ≡ cpu_idle) }
{
    let states = vec![in alloc;
        cpu_lpi_state(alloc, 100, 10, 0, 1, b"S1")?,
        cpu_lpi_state(alloc, 500, 50, 1, 2, b"S2")?,
        cpu_lpi_state(alloc, 2000, 200, 2, 3, b"S3")?,
    ]?;
    Ok(Lpi {
        level: 0,
        states: List::from_vec(states),
    })
}

/// A performance state whose status is its control value.
fn p_state(frequency: u32, power: u32, control: u32) -> PState
    ensures { result ≡ perf_state frequency power control }
{
    PState {
        frequency,
        power,
        latency: 10,
        bus_latency: 10,
        control,
        status: control,
    }
}

/// The performance states of a processor.
#[tactic(auto, unfolding(crate::specs::Tables::cpu_perf))]
pub(crate) fn p_states() -> [PState; 4]
    ensures { result ≡ cpu_perf }
{
    [
        p_state(2400, 15000, 0x10),
        p_state(2000, 12000, 0x11),
        p_state(1600, 9000, 0x12),
        p_state(1200, 6000, 0x13),
    ]
}

/// The registers that change and show the performance state.
#[tactic(auto, unfolding(crate::specs::Tables::cpu_control))]
pub(crate) fn control_pair() -> ControlPair
    ensures { result ≡ cpu_control }
{
    ControlPair {
        control: byte_port(0xB2),
        status: byte_port(0xB3),
    }
}

/// The domain that the processors of a container are.
#[tactic(auto, unfolding(crate::specs::Tables::cpu_domain))]
pub(crate) fn dependency(container: u32) -> Dependency
    ensures { result ≡ cpu_domain container }
{
    Dependency {
        domain: container,
        coord: Coord::SwAll,
        processors: CPUS_EACH,
    }
}
