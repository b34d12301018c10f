//! What is left for each processor.
ghost use Rattle.std.specs.Prelude.{◌≡◌, ◌<◌, ◌==◌, ◌∷◌, [], ℕ, length, IfOk, IsTrue, MatchOption, OnOk, ◌↔◌, if◌then◌else◌};
ghost use Rattle.pw_audit.specs.inner.Queues.{Takes, left_of};

use pw_base::Memory;
use std::alloc::Global;
use std::marker::Model;

/// What is left for each processor, in reversed order, so that the next one is the last. Contracts see it in
/// order.
#[derive(Drop)]
pub(crate) struct Queues<T> {
    stacks: Vec<Vec<T>>,
}

impl<T> Model for Queues<T> {
    ghost use Rattle.std.specs.Prelude.{List, map, reverse, Vec};
    ghost use Rattle.std.specs.declared.alloc.Global.{Global as global};

    ghost Value = { List (List T) };

    ghost view = { λ a. map (λ (v : Vec T global). reverse v.items) a.stacks.items };
}

impl<T: Copy + Drop> Queues<T> {
    /// Nothing, for so many processors.
    pub(crate) fn none(alloc: Global, cpus: usize) -> Result<Queues<T>, Memory>
        ensures size { IfOk result (λ queues. length queues ≡ cpus) }
        ensures none { IfOk result (λ queues. (p : ℕ) → left_of queues p ≡ []) }
    {
        let mut stacks = Vec::new(alloc);
        for _cpu in 0..cpus {
            stacks.push(Vec::new(alloc))?;
        }
        Ok(Queues { stacks })
    }

    /// Puts an item before those of a processor, unless there is no such processor.
    pub(crate) fn put(&mut self, cpu: u32, item: T) -> Result<(), Memory>
        ensures size { OnOk result (length self.new ≡ length self.old) }
        ensures first { OnOk result ((p : ℕ) → p < length self.old →
            left_of self.new p ≡ (if cpu == p then item ∷ left_of self.old p else left_of self.old p)) }
    {
        let cpu = cpu as usize;
        if cpu < self.stacks.len() {
            self.stacks[cpu].push(item)?;
        }
        Ok(())
    }

    /// Takes the next item of a processor.
    pub(crate) fn take(&mut self, cpu: u32) -> Option<T>
        requires { cpu < length self.old }
        ensures { MatchOption result (left_of self.old cpu ≡ []) (λ x. Takes self.old cpu x self.new) }
    {
        self.stacks[cpu as usize].pop()
    }

    /// Whether nothing is left.
    pub(crate) fn is_empty(&self) -> bool
        ensures { IsTrue result ↔ ((p : ℕ) → left_of self.now p ≡ []) }
    {
        for stack in self.stacks.as_slice() {
            if !stack.is_empty() {
                return false;
            }
        }
        true
    }
}
