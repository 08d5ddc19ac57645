// Walks over a legal archive's tape: a version retrieved, a step back, a history.
#![tactic(auto)]

pub mod back;
pub mod history;
pub mod retrieve;
pub mod timed;
