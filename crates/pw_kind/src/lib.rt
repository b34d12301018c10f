//! What kinds of coordination have in common: what a history of requests leaves, answers and operates,
//! and which histories can come about. Here nothing runs.
#![tactic(auto)]
