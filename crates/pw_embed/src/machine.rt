ghost use Rattle.std.specs.Prelude.{◌≡◌, [], MatchOption};
ghost use Rattle.pw_embed.specs.declared.machine.Machine.TheVariants.{Blocks as blocks};
ghost use Rattle.pw_embed.specs.Machines.{AddsBlock, Asks, Counts as counted, Lists, Plans, Starts, Steers, TellsCpu, plan_in};

use crate::blocks::Blocks;
use crate::cppc::Cppc;
use crate::faults::FaultNumbers;
use crate::operations::OpNumbers;
use crate::planned::{Counts, CpuNumbers, Planned, count, tell_cpu};
use crate::replies::ReplyNumbers;
use crate::requests::RequestNumbers;
use crate::single::{Single, opened};
use crate::status::Status;
use core::mem::replace_with;
use pw_plan::Plan;
use std::alloc::Global;
use std::mem::replace;

/// A machine, step by step: its blocks, the plan that is made of them, and the coordinator of one caller.
#[derive(Drop)]
pub enum Machine {
    Blocks(Blocks),
    Planned(Planned),
    Started(Single),
}

impl Machine {
    /// A machine without blocks.
    pub fn new(alloc: Global) -> Machine
        ensures { result ≡ blocks [] }
    {
        Machine::Blocks(Blocks::new(alloc))
    }

    /// Puts the block that the bytes spell behind the others.
    #[tactic(auto, unfolding(crate::specs::Machines::AtBlocks))]
    pub fn add_block(&mut self, alloc: Global, bytes: &[u8], fault: &mut FaultNumbers) -> Status
        ensures { AddsBlock self.old bytes.now fault.old self.new fault.new result }
    {
        match self {
            Machine::Blocks(blocks) => blocks.add(alloc, bytes, fault),
            _ => Status::Kind,
        }
    }

    /// The machine with its plan.
    #[tactic(auto, unfolding(crate::specs::Machines::AtBlocks, crate::specs::Machines::Planning))]
    fn with_plan(
        self,
        alloc: Global,
        fault: &mut FaultNumbers,
        path: &mut [u8],
    ) -> (Machine, Status)
        ensures { Plans self fault.old path.old result.0 fault.new path.new result.1 }
    {
        match self {
            Machine::Blocks(blocks) => match blocks.plan(alloc, fault, path) {
                Ok((plan, notes)) => (
                    Machine::Planned(Planned {
                        blocks,
                        plan,
                        notes,
                    }),
                    Status::Done,
                ),
                Err(status) => (Machine::Blocks(blocks), status),
            },
            other => (other, Status::Kind),
        }
    }

    /// Makes the plan of the blocks.
    pub fn plan(&mut self, alloc: Global, fault: &mut FaultNumbers, path: &mut [u8]) -> Status
        ensures { Plans self.old fault.old path.old self.new fault.new path.new result }
    {
        let (next, status) = replace(self, Machine::new(alloc)).with_plan(alloc, fault, path);
        drop(replace(self, next));
        status
    }

    /// The plan, and how many notes there are, where there is one.
    fn planned(&self) -> Option<(&Plan, u32)>
        ensures { MatchOption result (plan_in self.now ≡ None) (λ r. plan_in self.now ≡ Some (r.0.now, r.1)) }
    {
        match self {
            Machine::Blocks(_) => None,
            Machine::Planned(planned) => Some((&planned.plan, planned.notes)),
            Machine::Started(single) => Some((&single.plan, single.notes)),
        }
    }

    /// Counts the parts of the plan.
    #[tactic(auto, unfolding(crate::specs::Machines::Counts))]
    pub fn count(&self, counts: &mut Counts) -> Status
        ensures { counted self.now counts.old counts.new result }
    {
        match self.planned() {
            None => Status::Kind,
            Some((plan, notes)) => {
                *counts = count(plan, notes);
                Status::Done
            }
        }
    }

    /// Tells of a processor of the plan.
    #[tactic(auto, unfolding(crate::specs::Machines::TellsCpu))]
    pub fn tell_cpu(
        &self,
        cpu: u32,
        told: &mut CpuNumbers,
        path: &mut [u8],
        length: &mut usize,
    ) -> Status
        ensures { TellsCpu self.now cpu (told.old, path.old, length.old) (
          told.new,
          path.new,
          length.new,
        ) result }
    {
        match self.planned() {
            None => Status::Kind,
            Some((plan, _)) => tell_cpu(plan, cpu, told, path, length),
        }
    }

    /// The machine with the coordinator of one caller.
    #[tactic(auto, unfolding(crate::specs::Machines::Starts))]
    fn with_coordinator(self, alloc: Global) -> (Machine, Status)
        ensures { Starts self result.0 result.1 }
    {
        match self {
            Machine::Planned(planned) => match opened(alloc, &planned.plan) {
                Ok((state, ops)) => {
                    let Planned {
                        blocks: _,
                        plan,
                        notes,
                    } = planned;
                    let single = Single {
                        plan,
                        notes,
                        state,
                        ops,
                    };
                    (Machine::Started(single), Status::Done)
                }
                Err(_) => (Machine::Planned(planned), Status::NoMemory),
            },
            other => (other, Status::Kind),
        }
    }

    /// Starts the coordinator of one caller on the plan. The blocks are let go.
    pub fn start(&mut self, alloc: Global) -> Status
        ensures { Starts self.old self.new result }
    {
        replace_with(self, alloc, Machine::with_coordinator)
    }

    /// Makes the request that the numbers ask for.
    #[tactic(auto, unfolding(crate::specs::Machines::Asks))]
    pub fn ask(&mut self, asked: &RequestNumbers, reply: &mut ReplyNumbers) -> Status
        ensures { Asks self.old asked.now reply.old self.new reply.new result }
    {
        match self {
            Machine::Started(single) => single.ask(asked, reply),
            _ => Status::Kind,
        }
    }

    /// Writes the operations of the last request that was made, or those at the start, and how many they are.
    #[tactic(auto, unfolding(crate::specs::Machines::Lists))]
    pub fn ops(&self, out: &mut [OpNumbers], count: &mut u32) -> Status
        ensures { Lists self.now out.old count.old out.new count.new result }
    {
        match self {
            Machine::Started(single) => single.ops(out, count),
            _ => Status::Kind,
        }
    }

    /// The coordinator by `_CPC` of the plan's processors, at its start.
    #[tactic(auto, unfolding(crate::specs::Machines::Steers))]
    pub fn cppc(&self, alloc: Global) -> Result<Cppc, Status>
        ensures { Steers self.now result }
    {
        match self {
            Machine::Planned(planned) => planned.blocks.cppc(alloc),
            _ => Err(Status::Kind),
        }
    }
}
