// Named versions: a table of 32 marks, each a name of 1 to 16 bytes and the number of a version.
#![tactic(auto)]

pub mod by_value;
pub mod bytes;
pub mod change;
pub mod entries;
pub mod judge;
pub mod lent;

// An entry: 16 bytes, of which the first `len` are the name and the others zero, and the version; all zero where it is unused.
#[derive(Clone, Copy, PartialEq, Eq)]
pub struct Mark {
    pub name: [u8; 16],
    pub len: u8,
    pub version: u16,
}

impl Mark {
    // The entry that holds no mark: all zero.
    pub const UNUSED: Mark = Mark {
        name: [0; 16],
        len: 0,
        version: 0,
    };
}

// A lent table, by value. `size` is 32, or 0 where the one lent has not 32 entries.
#[derive(Clone, Copy)]
pub struct Table {
    pub held: [Mark; 32],
    pub size: usize,
}
