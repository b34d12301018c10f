ghost use Rattle.pw_cppc.specs.Sound.{IsPlanOf, IsSound, PathsDiffer};

use crate::bounds::{bounds_of, opened_by, set_count};
use crate::domains::{domains_of, places_of};
use crate::parts::CppcParts;
use crate::request::CppcRequest;
use acpi_values::Coord;
use aml_data::FullPath;
use pw_base::{List, Memory};
use std::alloc::Global;

/// Processors that come to one performance together, by `_PSD` (ACPI 6.5, 8.3 and 8.4.5.5).
#[derive(Drop)]
pub struct CppcDomain {
    /// As its first member shows it.
    pub coord: Coord,
    /// Their numbers, in order.
    pub members: List<u32>,
    /// Why they can't be coordinated, 1 to 6; 0 where they can.
    pub unfit: u8,
}

/// Processors that are steered by desired performance. `CppcPlan::new` alone makes one: that its lists
/// are those of its parts is part of the type.
#[derive(Drop)]
pub struct CppcPlan {
    /// By number, as in `cpus`.
    pub paths: List<FullPath>,
    pub cpus: List<CppcParts>,
    /// By their first member.
    pub domains: List<CppcDomain>,
    /// The place of each processor's domain, where it has one.
    pub places: List<Option<usize>>,
    pub ghost planned: { IsPlanOf paths cpus domains places },
    pub ghost sound: { IsSound cpus domains },
}

impl CppcPlan {
    ghost use Rattle.std.specs.Prelude.{◌≡◌, ◌↔◌, ◌<◌, ◌≤◌, length, slice_get, All, IfOk};
    ghost use Rattle.std.specs.Prelude.{IsTrue, MatchOption};
    ghost use Rattle.pw_cppc.specs.Domains.{domains_of};
    ghost use Rattle.pw_cppc.specs.Planning.{domain_at, domain_of, parts_at};
    ghost use Rattle.pw_cppc.specs.Requests.{Has, opening_bound, opening_count, ops_bound};

    /// The plan of these processors, whose paths these are, no two the same.
    pub fn new(
        alloc: Global,
        paths: Vec<FullPath>,
        cpus: Vec<CppcParts>,
    ) -> Result<CppcPlan, Memory>
        requires paths { length paths.items ≡ length cpus.items }
        requires differ { PathsDiffer paths.items }
        requires few { length cpus.items ≤ 256 }
        ensures paths { IfOk result (λ plan. plan.paths ≡ paths.items) }
        ensures cpus { IfOk result (λ plan. plan.cpus ≡ cpus.items) }
        ensures domains { IfOk result (λ plan. plan.domains ≡ domains_of cpus.items) }
    {
        let domains = domains_of(alloc, cpus.as_slice())?;
        let places = places_of(alloc, domains.as_slice(), cpus.len())?;
        let paths = List::from_vec(paths);
        let cpus = List::from_vec(cpus);
        Ok(CppcPlan {
            paths,
            cpus,
            domains,
            places,
        })
    }

    /// The processor of this number.
    pub fn parts(&self, cpu: u32) -> &CppcParts
        requires { cpu < length self.now.cpus }
        ensures { result.now ≡ parts_at self.now cpu }
    {
        &self.cpus.as_slice()[cpu as usize]
    }

    /// The domain at this place.
    pub fn domain(&self, place: usize) -> &CppcDomain
        requires { place < length self.now.domains }
        ensures { result.now ≡ domain_at self.now place }
    {
        &self.domains.as_slice()[place]
    }

    /// What `places` says of a processor, if it says anything.
    fn place_at(&self, cpu: u32) -> Option<Option<usize>>
        ensures { result ≡ slice_get self.now.places cpu }
    {
        self.places.as_slice().get(cpu as usize).copied()
    }

    /// The place of the domain that has the processor, if one has.
    #[tactic(auto, using(crate::proofs::Placed::place_none, crate::proofs::Placed::place_some))]
    pub fn domain_of(&self, cpu: u32) -> Option<usize>
        ensures { MatchOption result (domain_of self.now cpu ≡ length self.now.domains)
            (λ d. (domain_of self.now cpu ≡ d) × (d < length self.now.domains)) }
    {
        match self.place_at(cpu) {
            None => None,
            Some(place) => place,
        }
    }

    /// Whether the processor of the request exists.
    pub fn has(&self, request: &CppcRequest) -> bool
        ensures { IsTrue result ↔ Has self.now request.now }
    {
        (request.cpu() as usize) < self.cpus.as_slice().len()
    }

    /// How many operations the request has at most, in any state.
    #[tactic(auto, unfolding(crate::specs::Sound::no_domain))]
    pub fn ops_bound(&self, request: &CppcRequest) -> u32
        ensures { result ≡ ops_bound self.now request.now }
    {
        match self.domain_of(request.cpu()) {
            None => 2,
            Some(place) => {
                let domain = self.domain(place);
                1 + set_count(domain.coord, domain.members.as_slice().len() as u32)
            }
        }
    }

    /// How many operations there are at the start on a domain.
    fn opening_count(&self, domain: &CppcDomain) -> u32
        requires few { length domain.now.members ≤ 256 }
        requires members { All (λ p. p < length self.now.cpus) domain.now.members }
        ensures value { result ≡ opening_count self.now domain.now }
        ensures small { result ≤ 768 }
    {
        if domain.unfit != 0 {
            return 0;
        }
        let members = domain.members.as_slice();
        bounds_of(self.cpus.as_slice(), members) + opened_by(domain.coord, members)
    }

    /// How many operations there are at the start.
    pub fn opening_bound(&self) -> u32
        ensures { result ≡ opening_bound self.now }
    {
        let mut bound = 0;
        for domain in self.domains.as_slice() {
            bound += self.opening_count(domain);
        }
        bound
    }
}
