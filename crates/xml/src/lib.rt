// The XML subset: what a reader's functions answer. The definitions are in specs/.
#![tactic(auto)]

pub mod attributes;
pub mod class;
pub mod compare;
pub mod matching;
pub mod names;
pub mod panel;
pub mod reader;
pub mod scan;
pub mod spelling;
mod stretch;
pub mod tag;
pub mod tape;
pub mod text;
pub mod writer;

// A start tag: it opens an element, or is one without content, with a name so many bytes long; or it opens an archive's `T`, with so
// many bytes of times.
#[derive(Clone, Copy)]
pub enum Start {
    Opens(usize),
    Lone(usize),
    Timed(usize),
}

// Why a text was not read: the byte at this place is wrong, or the cells are too few.
#[derive(Clone, Copy)]
pub enum ReadError {
    Wrong(usize),
    Full,
}
