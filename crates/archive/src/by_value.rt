// The calls over a table of marks, for callers that have it by value: each puts it into a local and lends it.
ghost use Rattle.std.specs.Prelude.{◌≡◌};
ghost use Rattle.keys.specs.Meant.{number_in, length_in};
ghost use Rattle.archive.specs.MarkCalls.{SetEnds, FindEnds, BackEnds, NamedEnds};

use crate::{back, mark};
use keys::refusal::Refusal;
use marks::Table;

// A call's answer, and the table after it. Its size is 32, whatever that of the one given is.
#[derive(Clone, Copy)]
pub struct Marked {
    pub answer: Result<usize, Refusal>,
    pub table: Table,
}

// Sets a mark on version i of an archive.
pub fn set_mark<'a, 'b, 'c, 'd>(
    keys: &'a [u8],
    archive: &'b [u8],
    t: Table,
    name: &'c [u8],
    i: usize,
    work: &'d mut [u32],
) -> Marked
    ensures { SetEnds keys.now archive.now t.held name.now i work.old (number_in result.answer) (length_in result.answer) work.new result.table.held
        × (result.table.size ≡ 32) }
{
    let mut held = t.held;
    let answer = mark::set_mark(keys, archive, &mut held, name, i, work);
    let table = Table { held, size: 32 };
    Marked { answer, table }
}

// Finds the version of a mark.
pub fn find_mark<'a, 'b, 'c, 'd>(
    keys: &'a [u8],
    archive: &'b [u8],
    t: Table,
    name: &'c [u8],
    work: &'d mut [u32],
) -> Result<usize, Refusal>
    ensures { FindEnds keys.now archive.now t.held name.now work.old result work.new }
{
    let held = t.held;
    mark::find_mark(keys, archive, &held, name, work)
}

// Steps back to version i, and drops the marks of later ones.
pub fn step_back<'a, 'b, 'c, 'd>(
    keys: &'a [u8],
    archive: &'b [u8],
    t: Table,
    i: usize,
    out: &'c mut [u8],
    work: &'d mut [u32],
) -> Marked
    ensures { BackEnds keys.now archive.now t.held i out.old work.old (number_in result.answer) (length_in result.answer) out.new work.new result.table.held
        × (result.table.size ≡ 32) }
{
    let mut held = t.held;
    let answer = back::step_back(keys, archive, &mut held, i, out, work);
    let table = Table { held, size: 32 };
    Marked { answer, table }
}

// Steps back to the version of a mark, and drops the marks of later ones.
pub fn step_back_to_mark<'a, 'b, 'n, 'c, 'd>(
    keys: &'a [u8],
    archive: &'b [u8],
    t: Table,
    name: &'n [u8],
    out: &'c mut [u8],
    work: &'d mut [u32],
) -> Marked
    ensures { NamedEnds keys.now archive.now t.held name.now out.old work.old (number_in result.answer) (length_in result.answer) out.new work.new result.table.held
        × (result.table.size ≡ 32) }
{
    let mut held = t.held;
    let answer = back::step_back_to_mark(keys, archive, &mut held, name, out, work);
    let table = Table { held, size: 32 };
    Marked { answer, table }
}
