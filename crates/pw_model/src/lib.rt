//! What coordination of processor power means (ACPI 6.5, chapter 8): states, container states, C
//! states, where domains stand, answers, operations and histories, as definitions in `specs/`, and
//! the plain types that they speak of.
#![tactic(auto)]

mod acceptance;
mod acting;
mod entering;
mod entry;
mod history;
mod laws;
mod leaving;
mod record_laws;
mod refusing;
mod reply;
mod starting;
mod state;

pub use acceptance::{fixed_refusals_come_always, requests_are_accepted_where_they_may};
pub use acting::{domains_are_set_at_the_start, idle_requests_enter_first, new_standings_are_set};
pub use entering::{
    idle_domains_are_about_rows, others_enter_who_come_along, outermost_registers_are_entered,
};
pub use entry::HistoryEntry;
pub use history::{
    entries_state_requests, histories_join, histories_stay_states, histories_stop_at_faults,
    legal_histories_grow,
};
pub use laws::{
    bounds_hold, c_states_are_greatest, container_states_are_greatest, domains_stand_within_limits,
    hardware_members_stand_alone, refusals_change_nothing, registers_stand, wakes_operate_nothing,
};
pub use leaving::accepted_requests_change_one_entry;
pub use record_laws::{
    histories_leave_ways, records_open_and_serve, records_tell_requests, requests_are_local,
    requests_have_routes, requests_have_ways, states_fit_records,
};
pub use refusing::{
    asks_are_refused_in_order, idle_requests_are_refused_in_order, limits_are_refused_in_order,
};
pub use reply::Reply;
pub use starting::starts_are_those_of_the_tables;
pub use state::{Change, ScaleKind, State, Vote};
