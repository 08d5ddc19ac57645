// The station archive: the calls.
#![tactic(auto)]

pub mod add;
pub mod back;
pub mod by_value;
pub mod check_keys;
pub mod found;
pub mod history;
pub mod longest;
pub mod mark;
pub mod opened;
mod received;
pub mod retrieve;
mod steps;
