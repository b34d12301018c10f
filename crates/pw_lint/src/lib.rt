//! What `lint` finds amiss with a machine's tables: of each object that means nothing, and of the notes,
//! containers, processors and domains of the plan of the others.
#![tactic(auto)]

mod cpc_domains;
mod devices;
mod laws;
mod linting;
mod notes;
mod passed;
mod processors;
mod reading;

pub use laws::{
    findings_are_of_objects, findings_beside_parents, findings_of_c_states, findings_of_devices,
    findings_of_domains, findings_of_idle_states, findings_of_rates, findings_of_refusals,
    nothing_is_found,
};
pub use linting::find_all;
