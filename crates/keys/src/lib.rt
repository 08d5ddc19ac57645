// Key lists, addresses and legal versions. The definitions and their laws are in specs/.
#![tactic(auto)]

pub mod address;
pub mod arrange;
pub mod contexts;
pub mod keyed;
pub mod label;
pub mod load;
pub mod measure;
pub mod notation;
pub mod order;
pub mod placed;
pub mod places;
pub mod refusal;
