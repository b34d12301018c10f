//! What can be amiss with a machine's tables, and the text that `lint` prints of it: what is wrong by the
//! standard, and what is allowed and known to surprise; and what is found of scales and of domains.
#![tactic(auto)]

mod adding;
mod controls;
mod differing;
mod domains;
mod finding;
mod firsts;
mod members;
mod printing;
mod putting;
mod scales;
mod telling;
mod telling_domains;
mod telling_states;
mod words;

pub use adding::{add, add_when};
pub use controls::{find_shared, find_two_spaces};
pub use domains::{find_in_domains, path_at, same_coord};
pub use finding::{
    DomainId, Finding, FindingKind, OfControl, OfCpc, OfCst, OfDevice, OfDomain, OfEntry, OfIdle,
    OfLimit, OfMember, OfObject, OfParent, OfRate, OfScale, Repeat, Shared, Unread, Unused,
};
pub use firsts::first_repeat;
pub use printing::print_findings;
pub use scales::{Known, find_in_scale, first_declaring};
