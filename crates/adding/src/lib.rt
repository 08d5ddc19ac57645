// A version added to an archive: two pointers over the archive's siblings and the version's.
#![tactic(auto)]

pub mod add;
pub mod content;
pub mod sibling;
pub mod timed;
