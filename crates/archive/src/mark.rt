// The calls that set and find a mark.
ghost use Rattle.keys.specs.Meant.{number_in, length_in};
ghost use Rattle.legality.specs.Opened.{Roomy};
ghost use Rattle.archive.specs.MarkCalls.{CountedIn, Counts, SetEnds, FindEnds};

use crate::opened::open_in;
use crate::steps::room;
use keys::refusal::Refusal;
use marks::Mark;
use marks::lent::{find, set};
use xml::tape::clear;

// Counts the versions of an archive, with room to work in.
pub fn count_in(keys: &[u8], archive: &[u8], work: &mut [u32]) -> Result<usize, Refusal>
    requires { Roomy archive.now work.old }
    ensures { CountedIn keys.now archive.now result }
{
    let opened = open_in(keys, archive, work)?;
    Ok(opened.versions)
}

// Counts the versions of an archive.
pub fn count<'a, 'b, 'd>(
    keys: &'a [u8],
    archive: &'b [u8],
    work: &'d mut [u32],
) -> Result<usize, Refusal>
    ensures { Counts keys.now archive.now work.old result work.new }
{
    room(work)?;
    let counted = count_in(keys, archive, work);
    clear(work);
    counted
}

// Sets a mark on version i of an archive.
pub fn set_mark<'a, 'b, 'm, 'n, 'd>(
    keys: &'a [u8],
    archive: &'b [u8],
    marks: &'m mut [Mark],
    name: &'n [u8],
    i: usize,
    work: &'d mut [u32],
) -> Result<usize, Refusal>
    ensures { SetEnds keys.now archive.now marks.old name.now i work.old (number_in result) (length_in result) work.new marks.new }
{
    let counted = count(keys, archive, work);
    set(marks, name, i, counted)?;
    Ok(0)
}

// Finds the version of a mark.
pub fn find_mark<'a, 'b, 'm, 'n, 'd>(
    keys: &'a [u8],
    archive: &'b [u8],
    marks: &'m [Mark],
    name: &'n [u8],
    work: &'d mut [u32],
) -> Result<usize, Refusal>
    ensures { FindEnds keys.now archive.now marks.now name.now work.old result work.new }
{
    let counted = count(keys, archive, work);
    find(marks, name, counted)
}
