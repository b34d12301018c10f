//! The calls on the handle of a machine.
ghost use Rattle.std.specs.Prelude.{◌≡◌, []};
ghost use Rattle.pw_embed.specs.declared.machine.Machine.TheVariants.{Blocks as blocks};
ghost use Rattle.pw_embed.specs.Machines.{AddsBlock, Asks, Counts as counted, Lists, Plans, Starts, TellsCpu};
ghost use Rattle.pw_handles.specs.declared.kept.Kept.TheVariants.{Machine as machine};
ghost use Rattle.pw_handles.specs.Handled.{OnMachine, Opens};

use crate::handle::Handle;
use crate::kept::Kept;
use pw_embed::{
    Counts, CpuNumbers, FaultNumbers, Machine, OpNumbers, ReplyNumbers, RequestNumbers, Status,
};
use std::alloc::Global;

impl Handle {
    /// Opens it for a machine without blocks.
    #[tactic(auto, unfolding(crate::specs::Handled::OpenedBy))]
    pub fn open(&mut self, alloc: Global) -> Status
        ensures { Opens self.old self.new result (λ k. k ≡ machine (blocks [])) }
    {
        if self.is_open() {
            return Status::Open;
        }
        self.fill(alloc, Kept::Machine(Machine::new(alloc)))
    }

    /// Puts the block that the bytes spell behind the machine's others.
    #[tactic(auto, unfolding(crate::specs::Handled::Handled, crate::specs::Handled::AtMachine))]
    pub fn add_block(&mut self, alloc: Global, bytes: &[u8], fault: &mut FaultNumbers) -> Status
        ensures { OnMachine self.old self.new result (fault.new ≡ fault.old)
            (λ m n s. AddsBlock m bytes.now fault.old n fault.new s) }
    {
        if !self.is_open() {
            return Status::Closed;
        }
        match self.kept() {
            Kept::Machine(machine) => machine.add_block(alloc, bytes, fault),
            _ => Status::Kind,
        }
    }

    /// Makes the plan of the machine's blocks.
    #[tactic(auto, unfolding(crate::specs::Handled::Handled, crate::specs::Handled::AtMachine))]
    pub fn plan(&mut self, alloc: Global, fault: &mut FaultNumbers, path: &mut [u8]) -> Status
        ensures { OnMachine self.old self.new result ((fault.new ≡ fault.old) × (path.new ≡ path.old))
            (λ m n s. Plans m fault.old path.old n fault.new path.new s) }
    {
        if !self.is_open() {
            return Status::Closed;
        }
        match self.kept() {
            Kept::Machine(machine) => machine.plan(alloc, fault, path),
            _ => Status::Kind,
        }
    }

    /// Counts the parts of the machine's plan.
    #[tactic(auto, unfolding(crate::specs::Handled::Handled, crate::specs::Handled::AtMachine))]
    pub fn count(&mut self, counts: &mut Counts) -> Status
        ensures { OnMachine self.old self.new result (counts.new ≡ counts.old)
            (λ m n s. (n ≡ m) × counted m counts.old counts.new s) }
    {
        if !self.is_open() {
            return Status::Closed;
        }
        match self.kept() {
            Kept::Machine(machine) => machine.count(counts),
            _ => Status::Kind,
        }
    }

    /// Tells of a processor of the machine's plan.
    #[tactic(auto, unfolding(crate::specs::Handled::Handled, crate::specs::Handled::AtMachine))]
    pub fn tell_cpu(
        &mut self,
        cpu: u32,
        told: &mut CpuNumbers,
        path: &mut [u8],
        length: &mut usize,
    ) -> Status
        ensures { OnMachine self.old self.new result
            ((told.new ≡ told.old) × (path.new ≡ path.old) × (length.new ≡ length.old))
            (λ m n s. (n ≡ m)
            × TellsCpu m cpu (told.old, path.old, length.old) (told.new, path.new, length.new) s) }
    {
        if !self.is_open() {
            return Status::Closed;
        }
        match self.kept() {
            Kept::Machine(machine) => machine.tell_cpu(cpu, told, path, length),
            _ => Status::Kind,
        }
    }

    /// Starts the coordinator of one caller on the machine's plan.
    #[tactic(auto, unfolding(crate::specs::Handled::Handled, crate::specs::Handled::AtMachine))]
    pub fn start(&mut self, alloc: Global) -> Status
        ensures { OnMachine self.old self.new result (Unit {0}) Starts }
    {
        if !self.is_open() {
            return Status::Closed;
        }
        match self.kept() {
            Kept::Machine(machine) => machine.start(alloc),
            _ => Status::Kind,
        }
    }

    /// Makes the request that the numbers ask for.
    #[tactic(auto, unfolding(crate::specs::Handled::Handled, crate::specs::Handled::AtMachine))]
    pub fn ask(&mut self, asked: &RequestNumbers, reply: &mut ReplyNumbers) -> Status
        ensures { OnMachine self.old self.new result (reply.new ≡ reply.old)
            (λ m n s. Asks m asked.now reply.old n reply.new s) }
    {
        if !self.is_open() {
            return Status::Closed;
        }
        match self.kept() {
            Kept::Machine(machine) => machine.ask(asked, reply),
            _ => Status::Kind,
        }
    }

    /// Writes the operations of the last request that was made, or those at the start, and how many they are.
    #[tactic(auto, unfolding(crate::specs::Handled::Handled, crate::specs::Handled::AtMachine))]
    pub fn ops(&mut self, out: &mut [OpNumbers], count: &mut u32) -> Status
        ensures { OnMachine self.old self.new result ((out.new ≡ out.old) × (count.new ≡ count.old))
            (λ m n s. (n ≡ m) × Lists m out.old count.old out.new count.new s) }
    {
        if !self.is_open() {
            return Status::Closed;
        }
        match self.kept() {
            Kept::Machine(machine) => machine.ops(out, count),
            _ => Status::Kind,
        }
    }
}
