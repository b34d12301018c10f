ghost use Rattle.std.specs.Prelude.{◌≡◌, ◌∷◌, ◌++◌, [], List as list, length, All, IfErr, IfOk, OnOk, OnErr};
ghost use Rattle.aml_block.specs.declared.block.Block.{Block as block};
ghost use Rattle.aml_block.specs.Written.{IsWritableBlock};
ghost use Rattle.acpi_space.specs.Namespace.{entries_in};
ghost use Rattle.acpi_build.specs.declared.note.Note.{Note as note};
ghost use Rattle.acpi_build.specs.Planning.{IsPlanFrom};
ghost use Rattle.acpi_build.specs.Tables.{AreCountable};
ghost use Rattle.pw_cppc.specs.SpacePlan.{IsPlanOver};
ghost use Rattle.pw_plan.specs.Limits.{in_32_bits};
ghost use Rattle.pw_embed.specs.Blocks.{Added, AreSpelled, IsPlanned, Refused, RefusedBy, Unplanned, UnplannedBy};
ghost use Rattle.pw_embed.specs.Cppc.{IsOpening, IsSteered};

use crate::cppc::Cppc;
use crate::faults::FaultNumbers;
use crate::paths::write_path;
use crate::status::Status;
use acpi_build::{BuildFault, blocks_are_countable, plan};
use acpi_space::{Space, SpaceFault};
use aml_block::{Block, BlockFault, parse};
use pw_base::{List, Memory};
use pw_cppc::cppc_plan;
use pw_plan::{Plan, in_32_bits};
use std::alloc::{AllocError, Global};
use std::marker::Model;

/// The blocks of a machine, its DSDT first. Contracts see the bytes of each.
#[derive(Drop)]
pub struct Blocks {
    sources: Vec<List<u8>>,
}

impl Model for Blocks {
    ghost use Rattle.std.specs.Prelude.{ℕ, List as list};
    ghost use Rattle.std.specs.Coded.{coded_list, coded_ℕ};

    ghost Value = { list (list ℕ) };

    ghost coded = { coded_list (coded_list coded_ℕ) };

    ghost view = { λ b. b.sources.items };
}

/// The bytes, in memory of their own.
fn source_of(alloc: Global, bytes: &[u8]) -> Result<List<u8>, Memory>
    ensures { IfOk result (λ source. source ≡ bytes.now) }
{
    Ok(List::from_vec(Vec::from_slice(alloc, bytes)?))
}

/// The blocks that the bytes spell. Each was parsed when it was added, so that memory alone can be wanting.
pub fn parse_all(alloc: Global, sources: &[List<u8>]) -> Result<Vec<Block>, BlockFault>
    ensures spelled { IfOk result (λ blocks. AreSpelled sources.now blocks.items) }
    ensures writable { IfOk result (λ blocks. All IsWritableBlock blocks.items) }
{
    let mut blocks = Vec::new(alloc);
    for source in sources {
        let block = parse(alloc, source.as_slice())?;
        blocks.push(block)?;
    }
    Ok(blocks)
}

/// The objects that blocks place.
#[tactic(auto, unfolding(crate::specs::Blocks::RefusedBy))]
pub fn placed<'a>(
    alloc: Global,
    blocks: &'a [Block],
    fault: &mut FaultNumbers,
    path: &mut [u8],
) -> Result<Space<'a>, Status>
    ensures placed { IfOk result (λ space. space ≡ entries_in blocks.now) }
    ensures same { OnOk result ((fault.new ≡ fault.old) × (path.new ≡ path.old)) }
    ensures refused { IfErr result (λ s. RefusedBy blocks.now fault.old path.old fault.new path.new s) }
{
    match Space::build(alloc, blocks) {
        Ok(space) => Ok(space),
        Err(SpaceFault::Memory) => Err(Status::NoMemory),
        Err(SpaceFault::Twice { path: twice }) => {
            let length = write_path(twice.segs.as_slice(), path);
            *fault = FaultNumbers::of_twice(length);
            Err(Status::Twice)
        }
    }
}

/// The plan of the machine that objects tell of, and how many notes there are.
#[tactic(auto, unfolding(crate::specs::Blocks::RefusedBy))]
pub fn planned(
    alloc: Global,
    space: &Space<'_>,
    fault: &mut FaultNumbers,
    path: &mut [u8],
) -> Result<(Plan, u32), Status>
    requires { AreCountable space.now }
    ensures made { IfOk result (λ r. (notes : list note) × IsPlanFrom space.now r.0 notes
        × (r.1 ≡ in_32_bits (length notes))) }
    ensures same { OnOk result ((fault.new ≡ fault.old) × (path.new ≡ path.old)) }
    ensures refused { (blocks : list block) → space.now ≡ entries_in blocks →
        IfErr result (λ s. RefusedBy blocks fault.old path.old fault.new path.new s) }
{
    match plan(alloc, space) {
        Ok((plan, notes)) => Ok((plan, in_32_bits(notes.len()))),
        Err(BuildFault::Memory) => Err(Status::NoMemory),
        Err(BuildFault::Limit { which, number }) => {
            *fault = FaultNumbers::of_limit(which, number);
            Err(Status::Limit)
        }
        Err(
            BuildFault::Object {
                path: at,
                place,
                why,
            },
        ) => {
            let length = write_path(at.segs.as_slice(), path);
            *fault = FaultNumbers::of_object(place, why, length);
            Err(Status::Object)
        }
    }
}

/// The coordinator by `_CPC` of a machine's processors, at its start. The machine is that of these objects.
fn steered_on(alloc: Global, space: &Space<'_>, machine: Plan) -> Result<Cppc, Memory>
    requires planned { (notes : list note) × IsPlanFrom space.now machine notes }
    ensures { IfOk result (λ c. IsPlanOver space.now c.plan × IsOpening c) }
{
    let plan = cppc_plan(alloc, space, &machine);
    drop(machine);
    let plan = plan?;
    Cppc::open(alloc, plan)
}

/// The coordinator by `_CPC` of the processors that objects tell of, at its start.
fn steered(alloc: Global, space: &Space<'_>) -> Result<Cppc, Status>
    requires { AreCountable space.now }
    ensures opened { IfOk result (λ c. IsPlanOver space.now c.plan × IsOpening c) }
    ensures refused { (blocks : list block) → space.now ≡ entries_in blocks →
        IfErr result (λ s. UnplannedBy blocks s) }
{
    let mut fault = FaultNumbers::NONE;
    let mut path = [0; 0];
    match planned(alloc, space, &mut fault, &mut path) {
        Ok((plan, _notes)) => match steered_on(alloc, space, plan) {
            Ok(cppc) => Ok(cppc),
            Err(_) => Err(Status::NoMemory),
        },
        Err(status) => Err(status),
    }
}

impl Blocks {
    /// No blocks.
    pub fn new(alloc: Global) -> Blocks
        ensures { result ≡ [] }
    {
        Blocks {
            sources: Vec::new(alloc),
        }
    }

    /// Puts bytes behind the others.
    fn keep(&mut self, alloc: Global, bytes: &[u8]) -> Result<(), Memory>
        ensures kept { OnOk result (self.new ≡ self.old ++ bytes.now ∷ []) }
        ensures same { OnErr result (self.new ≡ self.old) }
    {
        let source = source_of(alloc, bytes)?;
        self.sources.push(source)?;
        Ok(())
    }

    /// Puts the block that the bytes spell behind the others.
    #[tactic(auto, unfolding(crate::specs::Blocks::Added))]
    pub fn add(&mut self, alloc: Global, bytes: &[u8], fault: &mut FaultNumbers) -> Status
        ensures { Added self.old bytes.now fault.old self.new fault.new result }
    {
        match parse(alloc, bytes) {
            Ok(_block) => match self.keep(alloc, bytes) {
                Ok(()) => Status::Done,
                Err(_) => Status::NoMemory,
            },
            Err(BlockFault::Memory) => Status::NoMemory,
            Err(why) => {
                *fault = FaultNumbers::of_block(why);
                Status::Block
            }
        }
    }

    /// The plan of the blocks, and how many notes there are.
    #[tactic(auto, unfolding(crate::specs::Blocks::Refused))]
    pub fn plan(
        &self,
        alloc: Global,
        fault: &mut FaultNumbers,
        path: &mut [u8],
    ) -> Result<(Plan, u32), Status>
        ensures made { IfOk result (λ r. IsPlanned self.now r.0 r.1) }
        ensures same { OnOk result ((fault.new ≡ fault.old) × (path.new ≡ path.old)) }
        ensures refused { IfErr result (λ s. Refused self.now fault.old path.old fault.new path.new s) }
    {
        let Ok(blocks) = parse_all(alloc, self.sources.as_slice()) else {
            return Err(Status::NoMemory);
        };
        blocks_are_countable();
        match placed(alloc, blocks.as_slice(), fault, path) {
            Ok(space) => planned(alloc, &space, fault, path),
            Err(status) => Err(status),
        }
    }

    /// The coordinator by `_CPC` of the blocks' processors, at its start.
    pub fn cppc(&self, alloc: Global) -> Result<Cppc, Status>
        ensures opened { IfOk result (λ c. IsSteered self.now c) }
        ensures refused { IfErr result (λ s. Unplanned self.now s) }
    {
        let Ok(blocks) = parse_all(alloc, self.sources.as_slice()) else {
            return Err(Status::NoMemory);
        };
        blocks_are_countable();
        let mut fault = FaultNumbers::NONE;
        let mut path = [0; 0];
        match placed(alloc, blocks.as_slice(), &mut fault, &mut path) {
            Ok(space) => steered(alloc, &space),
            Err(status) => Err(status),
        }
    }
}
