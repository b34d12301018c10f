//! The record of a container (ACPI 6.5, 8.4.3.2): the votes of its children, and the state that follows
//! from them, kept by counts that one vote changes.
#![tactic(auto)]

mod laws;
mod node;

pub use laws::node_records_hand_up;
pub use node::NodeRec;
