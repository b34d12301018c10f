ghost use Rattle.pw_plan.specs.Index.{IsIndexed};
ghost use Rattle.pw_plan.specs.Orderly.{IsOrderly};
ghost use Rattle.pw_plan.specs.Planning.{IsPlanOf};
ghost use Rattle.pw_plan.specs.Sound.{IsSound};

use crate::bounds::{opening_count, set_count};
use crate::domain::{Child, Domain, DomainKind, Group};
use crate::domains::all_domains;
use crate::fault::PlanFault;
use crate::groups::groups_of;
use crate::index::{CpuIndex, Membership, container_places, cpu_indices};
use crate::limits::limit_passed;
use crate::parts::{ContainerParts, CpuParts};
use crate::request::Request;
use crate::tree::all_children;
use pw_base::List;
use std::alloc::Global;

/// A machine as coordination sees it. `Plan::new` alone makes one: that its lists are those of its
/// parts is part of the type.
#[derive(Drop)]
pub struct Plan {
    pub containers: List<ContainerParts>,
    /// Of each container: its containers in their order, then its processors in theirs.
    pub children: List<List<Child>>,
    pub cpus: List<CpuParts>,
    /// Domains of performance, then of throttling, then of idle states; within a kind by their first
    /// member, then by number, then by index.
    pub domains: List<Domain>,
    /// By their first member.
    pub groups: List<Group>,
    /// Where each processor stands.
    pub cpu_index: List<CpuIndex>,
    /// The place of each container among the children of the one around it.
    pub container_index: List<Option<usize>>,
    pub ghost planned: { ∥ IsPlanOf containers cpus children domains groups ∥₁ },
    pub ghost sound: { IsSound containers cpus children domains groups },
    pub ghost orderly: { IsOrderly containers cpus children domains groups },
    pub ghost indexed: { IsIndexed containers cpus children domains groups cpu_index container_index },
}

impl Plan {
    ghost use Rattle.std.specs.Prelude.{◌≡◌, ◌↔◌, ◌<◌, length, option_copied, slice_get};
    ghost use Rattle.std.specs.Prelude.{IfOk, IfSome, IsTrue, MatchOption, ℕ, None, Some};
    ghost use Rattle.pw_plan.specs.Parts.{PartsFit};
    ghost use Rattle.pw_plan.specs.Tree.{all_children};
    ghost use Rattle.pw_plan.specs.Limits.{limit_passed};
    ghost use Rattle.pw_plan.specs.Domains.{AreDomains};
    ghost use Rattle.pw_plan.specs.Groups.{AreGroups, groups_of};
    ghost use Rattle.pw_plan.specs.Places.{container_at, children_at, cpu_at, domain_at};
    ghost use Rattle.pw_plan.specs.Places.{domain_of, group_at, group_of};
    ghost use Rattle.pw_plan.specs.Places.{parent_of, unfit_of, IsChildPlace, IsIn};
    ghost use Rattle.pw_plan.specs.Index.{idle_memberships, member_place, IsPlaceIn};
    ghost use Rattle.pw_plan.specs.Requests.{Has, domain_bound};
    ghost use Rattle.pw_plan.specs.Requests.{group_bound};
    ghost use Rattle.pw_plan.specs.Requests.{opening_bound, ops_bound};

    /// The plan of these parts.
    pub fn new(
        alloc: Global,
        containers: Vec<ContainerParts>,
        cpus: Vec<CpuParts>,
    ) -> Result<Plan, PlanFault>
        requires { PartsFit containers.items cpus.items }
        ensures containers { IfOk result (λ plan. plan.containers ≡ containers.items) }
        ensures cpus { IfOk result (λ plan. plan.cpus ≡ cpus.items) }
        ensures children { IfOk result (λ plan. plan.children ≡ all_children containers.items cpus.items) }
        ensures domains { IfOk result (λ plan. AreDomains cpus.items plan.domains) }
        ensures groups { IfOk result (λ plan. plan.groups ≡ groups_of plan.domains (length cpus.items)) }
        // What the list of the groups means.
        ensures joined { IfOk result (λ plan. AreGroups plan.domains plan.groups) }
        // A limit is named exactly where one is passed.
        ensures limit { (which number : ℕ) → (result ≡ Err (PlanFault.Limit which number))
            ↔ (limit_passed containers.items cpus.items ≡ Some (PlanFault.Limit which number)) }
    {
        if let Some(fault) = limit_passed(containers.as_slice(), cpus.as_slice()) {
            return Err(fault);
        }
        let children = all_children(alloc, containers.as_slice(), cpus.as_slice())?;
        let domains = all_domains(alloc, cpus.as_slice())?;
        let groups = groups_of(alloc, domains.as_slice(), cpus.len() as u32)?;
        let cpu_index = cpu_indices(
            alloc,
            children.as_slice(),
            cpus.as_slice(),
            domains.as_slice(),
            groups.as_slice(),
        )?;
        let container_index = container_places(alloc, children.as_slice(), containers.as_slice())?;
        let containers = List::from_vec(containers);
        let cpus = List::from_vec(cpus);
        Ok(Plan {
            containers,
            children,
            cpus,
            domains,
            groups,
            cpu_index,
            container_index,
        })
    }

    /// The processor of this number.
    pub fn cpu(&self, cpu: u32) -> &CpuParts
        requires { cpu < length self.now.cpus }
        ensures { result.now ≡ cpu_at self.now cpu }
    {
        &self.cpus.as_slice()[cpu as usize]
    }

    /// The container of this number.
    pub fn container(&self, node: u32) -> &ContainerParts
        requires { node < length self.now.containers }
        ensures { result.now ≡ container_at self.now node }
    {
        &self.containers.as_slice()[node as usize]
    }

    /// The children of a container.
    pub fn children_of(&self, node: u32) -> &[Child]
        requires { node < length self.now.containers }
        ensures { result.now ≡ children_at self.now node }
    {
        self.children.as_slice()[node as usize].as_slice()
    }

    /// The domain at this place.
    pub fn domain(&self, place: usize) -> &Domain
        requires { place < length self.now.domains }
        ensures { result.now ≡ domain_at self.now place }
    {
        &self.domains.as_slice()[place]
    }

    /// The group at this place.
    pub fn group(&self, place: usize) -> &Group
        requires { place < length self.now.groups }
        ensures { result.now ≡ group_at self.now place }
    {
        &self.groups.as_slice()[place]
    }

    /// Where the processor of this number stands, by the index.
    fn index_of(&self, cpu: u32) -> Option<&CpuIndex>
        ensures { option_copied result ≡ slice_get self.now.cpu_index cpu }
    {
        self.cpu_index.as_slice().get(cpu as usize)
    }

    /// Where the processor stands in the first domain of this kind that has it, if there is one.
    pub fn domain_of(&self, kind: DomainKind, cpu: u32) -> Option<Membership>
        ensures place { MatchOption result (domain_of self.now kind cpu ≡ length self.now.domains)
            (IsPlaceIn self.now.domains (domain_of self.now kind cpu)) }
        ensures member { IfSome result
            (λ membership. membership.member
            ≡ member_place (domain_at self.now membership.place).members cpu) }
    {
        let index = self.index_of(cpu)?;
        match kind {
            DomainKind::Perf => index.perf,
            DomainKind::Throttle => index.throttle,
            DomainKind::Idle => index.idle.as_slice().first().copied(),
        }
    }

    /// Where the processor stands in its idle domains, in their order.
    pub fn idle_domains_of(&self, cpu: u32) -> &[Membership]
        ensures { result.now ≡ idle_memberships self.now.domains cpu }
    {
        match self.index_of(cpu) {
            None => &[],
            Some(index) => index.idle.as_slice(),
        }
    }

    /// Where the processor stands in the first of its idle domains that is unfit, if one is.
    pub fn unfit_of(&self, cpu: u32) -> Option<Membership>
        ensures { MatchOption result (unfit_of self.now cpu ≡ length self.now.domains)
            (IsPlaceIn self.now.domains (unfit_of self.now cpu)) }
    {
        self.index_of(cpu)?.unfit
    }

    /// Where the processor stands in the group that has it, if one has.
    pub fn group_of(&self, cpu: u32) -> Option<Membership>
        ensures place { MatchOption result (group_of self.now cpu ≡ length self.now.groups)
            (IsPlaceIn self.now.groups (group_of self.now cpu)) }
        ensures member { IfSome result
            (λ membership. membership.member
            ≡ member_place (group_at self.now membership.place).members cpu) }
    {
        self.index_of(cpu)?.group
    }

    /// The place of a processor or a container among the children of the container around it, if
    /// there is one.
    pub fn place_of(&self, child: Child) -> Option<usize>
        requires { IsIn self.now child }
        ensures { MatchOption result (parent_of self.now child ≡ None) (IsChildPlace self.now child) }
    {
        match child {
            Child::Cpu(cpu) => self.index_of(cpu)?.child,
            Child::Container(node) => self.container_index.as_slice()[node as usize],
        }
    }

    /// Whether the processor of the request exists.
    pub fn has(&self, request: &Request) -> bool
        ensures { IsTrue result ↔ Has self.now request.now }
    {
        (request.cpu() as usize) < self.cpus.as_slice().len()
    }

    /// The bound on the operations of a request on the processor's domain of this kind.
    #[tactic(auto, unfolding(crate::specs::Groups::no_domain))]
    fn domain_bound(&self, kind: DomainKind, cpu: u32) -> u32
        ensures { result ≡ domain_bound self.now kind cpu }
    {
        match self.domain_of(kind, cpu) {
            None => 1,
            Some(membership) => {
                let domain = self.domain(membership.place);
                set_count(domain.coord, domain.members.as_slice().len() as u32)
            }
        }
    }

    /// The bound on the operations of an idle request.
    fn group_bound(&self, cpu: u32) -> u32
        ensures { result ≡ group_bound self.now cpu }
    {
        match self.group_of(cpu) {
            None => 1,
            Some(membership) => self.group(membership.place).members.as_slice().len() as u32,
        }
    }

    /// How many operations the request has at most, in any state.
    pub fn ops_bound(&self, request: &Request) -> u32
        ensures { result ≡ ops_bound self.now request.now }
    {
        match *request {
            Request::Idle { cpu, .. } => self.group_bound(cpu),
            Request::Wake { .. } => 0,
            Request::Perf { cpu, .. } => self.domain_bound(DomainKind::Perf, cpu),
            Request::Throttle { cpu, .. } => self.domain_bound(DomainKind::Throttle, cpu),
            Request::PerfLimit { cpu, .. } => self.domain_bound(DomainKind::Perf, cpu),
            Request::ThrottleLimit { cpu, .. } => self.domain_bound(DomainKind::Throttle, cpu),
        }
    }

    /// How many operations there are at the start.
    pub fn opening_bound(&self) -> u32
        ensures { result ≡ opening_bound self.now }
    {
        let mut bound = 0;
        for domain in self.domains.as_slice() {
            bound += opening_count(domain);
        }
        bound
    }
}
