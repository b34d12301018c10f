//! Continuous performance control: what processors' `_CPC` and `_PSD` say, the domains that they
//! make, and what is asked of them (ACPI 6.5, 8.4.6.1 and 8.4.5.5).
#![tactic(auto)]

mod bounds;
mod changing;
mod domains;
mod entry;
mod following;
mod history;
mod laws;
mod numbers;
mod opening;
mod parts;
mod paths;
mod plan;
mod planning;
mod reading;
mod refusal;
mod reply;
mod request;
mod setting;
mod standings;
mod state;
mod state_laws;

pub use entry::CppcEntry;
pub use following::CppcStandings;
pub use history::{
    entries_state_requests, histories_join, histories_stay_numbers, histories_stop_at_faults,
    legal_histories_grow,
};
pub use laws::{control_registers_are_not_null, domains_have_reasons, domains_hold_those_together};
pub use numbers::CppcNumbers;
pub use opening::open_all;
pub use parts::{Control, CppcParts};
pub use paths::paths_differ;
pub use plan::{CppcDomain, CppcPlan};
pub use planning::cppc_plan;
pub use reading::cppc_parts;
pub use reply::CppcReply;
pub use request::{CppcRequest, MOST_OF_A_REQUEST};
pub use standings::{standing, stands};
pub use state::CppcState;
pub use state_laws::{
    accepted_requests_change_one_number, bounds_hold, controls_stand, domains_stand_within_maxima,
    members_stand_by_coordination, minima_stay_below_maxima, openings_set_controls,
    processors_open_at_their_highest, refusals_change_nothing, refusals_come_where_due,
    requests_set_controls,
};
