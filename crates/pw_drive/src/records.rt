ghost use Rattle.std.specs.Prelude.{◌≡◌, ◌<◌, ℕ, length, IfOk};
ghost use Rattle.pw_model.specs.Calls.{opening_part};
ghost use Rattle.pw_model.specs.Records.{IsRecord, Record as place, scaled_count};
ghost use Rattle.pw_drive.specs.Keeping.{AreRecordsOf, OpensDomain, OpensGroup, OpensNode};
ghost use Rattle.pw_drive.specs.Keeping.{domain_in, group_in, node_in, part_in};

use pw_base::Memory;
use pw_domain::{DomainRec, GroupRec};
use pw_idle::NodeRec;
use pw_plan::Plan;
use pw_walker::scaled_count;
use std::alloc::Global;

/// The records of a plan, each at the number of what it is of: of its containers, of its domains of
/// performance and throttling, and of its groups.
#[derive(Drop)]
pub struct Records {
    pub nodes: Vec<NodeRec>,
    pub domains: Vec<DomainRec>,
    pub groups: Vec<GroupRec>,
}

/// The records of the containers.
fn open_nodes(alloc: Global, plan: &Plan) -> Result<Vec<NodeRec>, Memory>
    ensures count { IfOk result (λ nodes. length nodes.items ≡ length plan.now.containers) }
    ensures each { IfOk result (λ nodes. (n : ℕ) → n < length plan.now.containers
        → OpensNode plan.now n (node_in nodes.items n)) }
{
    let mut nodes = Vec::new(alloc);
    for node in 0..plan.containers.as_slice().len() {
        nodes.push(NodeRec::open(alloc, plan, node as u32)?)?;
    }
    Ok(nodes)
}

/// The records of the domains of performance and throttling.
fn open_domains(alloc: Global, plan: &Plan) -> Result<Vec<DomainRec>, Memory>
    ensures count { IfOk result (λ domains. length domains.items ≡ scaled_count plan.now) }
    ensures each { IfOk result (λ domains. (d : ℕ) → d < scaled_count plan.now
        → OpensDomain plan.now d (domain_in domains.items d)) }
{
    let mut domains = Vec::new(alloc);
    for domain in 0..scaled_count(plan) {
        domains.push(DomainRec::open(alloc, plan, domain as u32)?)?;
    }
    Ok(domains)
}

/// The records of the groups.
fn open_groups(alloc: Global, plan: &Plan) -> Result<Vec<GroupRec>, Memory>
    ensures count { IfOk result (λ groups. length groups.items ≡ length plan.now.groups) }
    ensures each { IfOk result (λ groups. (g : ℕ) → g < length plan.now.groups
        → OpensGroup plan.now g (group_in groups.items g)) }
{
    let mut groups = Vec::new(alloc);
    for group in 0..plan.groups.as_slice().len() {
        groups.push(GroupRec::open(alloc, plan, group as u32)?)?;
    }
    Ok(groups)
}

impl Records {
    /// The records at the start: everyone runs, and asks for the fastest state that the limit allows.
    pub fn open(alloc: Global, plan: &Plan) -> Result<Records, Memory>
        ensures of { IfOk result (λ records. AreRecordsOf plan.now records) }
        ensures parts { IfOk result (λ records. (r : place) → IsRecord plan.now r
            → part_in records r ≡ opening_part plan.now r) }
    {
        Ok(Records {
            nodes: open_nodes(alloc, plan)?,
            domains: open_domains(alloc, plan)?,
            groups: open_groups(alloc, plan)?,
        })
    }
}
