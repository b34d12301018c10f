//! Machines and requests as lines of data, which the programs of worked examples read: the words of a
//! line, the containers and processors that lines give, requests, and what they are answered.
#![tactic(auto)]

mod machine;
mod parts;
mod request;
mod rows;
mod text;
mod words;

pub use machine::{ANSWER, NoPlan, plan_of};
pub use request::{put_request, request_in, request_of};
pub use text::{put_ops, put_outcome, put_reply};
pub use words::{number_at, u32_at, word_at};
