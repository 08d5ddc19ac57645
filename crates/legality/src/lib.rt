// Is a text a legal archive? It is read, and judged in one walk.
#![tactic(auto)]

mod bounds;
mod few;
pub mod front;
pub mod hash;
pub mod legal;
pub mod open;
pub mod sizes;
pub mod times;
