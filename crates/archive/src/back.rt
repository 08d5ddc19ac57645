// The calls that step back: to a version, and to the version of a mark.
ghost use Rattle.std.specs.Prelude.{◌≤◌, ◌≡◌, ltb, length};
ghost use Rattle.xml.specs.Forest.{Forest};
ghost use Rattle.xml.specs.Tape.{Tape};
ghost use Rattle.keys.specs.Meant.{number_in, length_in};
ghost use Rattle.marks.specs.Judging.{lent_of};
ghost use Rattle.legality.specs.Opened.{Roomy};
ghost use Rattle.archive.specs.Giving.{Gives};
ghost use Rattle.archive.specs.Later.{Later};
ghost use Rattle.archive.specs.BackCall.{earlier_text, Steps, back_given, named_given, back_in, named_in};
ghost use Rattle.archive.specs.MarkCalls.{BackSteps, BackEnds, NamedSteps, NamedEnds};
ghost use Rattle.archive.specs.Asking.{Lies, Reaches, asked};

use crate::opened::open_in;
use crate::steps::room;
use keys::refusal::Refusal;
use marks::change::find_in;
use marks::judge::judge;
use marks::lent::{drop_later, gather};
use marks::{Mark, Table};
use walks::back::back;
use xml::tape::{Document, clear};

// A step back: the length of the result, how many versions the archive had, and which of them was stepped back to.
#[derive(Clone, Copy)]
pub struct Back {
    pub length: usize,
    pub versions: usize,
    pub to: usize,
}

// Whether the archive of the first i versions of the one on the tape has more than `size` bytes: it never has more than that one.
fn lacks_room(doc: &Document, hi: usize, i: usize, size: usize) -> bool
    requires { Reaches doc.now.src.now doc.now.tape.now hi i }
    ensures { (f : Forest) → Tape doc.now.src.now doc.now.tape.now 0 hi f → result ≡ ltb size (length (earlier_text i f)) }
{
    if doc.src.len() <= size {
        return false;
    }
    let mut none = [0u8; 0];
    let count = back(doc, hi, i, &mut none, 0);
    size < count
}

// Gives the archive of the first i of the n versions whose archive lies on the tape, if there are so many and it fits.
fn give_earlier(
    doc: &Document,
    hi: usize,
    n: usize,
    i: usize,
    out: &mut [u8],
) -> Result<usize, Refusal>
    requires { Lies doc.now.src.now doc.now.tape.now hi n }
    ensures { (f : Forest) → Tape doc.now.src.now doc.now.tape.now 0 hi f
        → Gives (asked n i (length out.old) (earlier_text i f)) (number_in result) (length_in result) out.old out.new }
{
    if i < 1 {
        return Err(Refusal::NoVersion);
    }
    if n < i {
        return Err(Refusal::NoVersion);
    }
    if lacks_room(doc, hi, i, out.len()) {
        return Err(Refusal::OutputTooShort);
    }
    let count = back(doc, hi, i, out, 0);
    Ok(count)
}

// Steps back to version i of the archive on the tape, if the table of marks is legal: 17, 11, 14.
fn give_back(
    doc: &Document,
    hi: usize,
    n: usize,
    t: Table,
    i: usize,
    out: &mut [u8],
) -> Result<Back, Refusal>
    requires { Lies doc.now.src.now doc.now.tape.now hi n × (t.size ≤ 32) }
    ensures { (f : Forest) → Tape doc.now.src.now doc.now.tape.now 0 hi f
        → Steps (back_given f (lent_of t) i (length out.old)) (lent_of t) result out.old out.new }
{
    judge(t, n)?;
    let length = give_earlier(doc, hi, n, i, out)?;
    Ok(Back {
        length,
        versions: n,
        to: i,
    })
}

// Steps back to the version of a mark: 17, 15, 14.
fn give_named(
    doc: &Document,
    hi: usize,
    n: usize,
    t: Table,
    name: &[u8],
    out: &mut [u8],
) -> Result<Back, Refusal>
    requires { Lies doc.now.src.now doc.now.tape.now hi n × (t.size ≤ 32) }
    ensures { (f : Forest) → Tape doc.now.src.now doc.now.tape.now 0 hi f
        → Steps (named_given f (lent_of t) name.now (length out.old)) (lent_of t) result out.old out.new }
{
    let to = find_in(t, name, n)?;
    let length = give_earlier(doc, hi, n, to, out)?;
    Ok(Back {
        length,
        versions: n,
        to,
    })
}

// Steps back to version i, with room to work in.
pub fn back_in(
    keys: &[u8],
    archive: &[u8],
    t: Table,
    i: usize,
    out: &mut [u8],
    work: &mut [u32],
) -> Result<Back, Refusal>
    requires { Roomy archive.now work.old × (t.size ≤ 32) }
    ensures { Steps (back_in keys.now archive.now (lent_of t) i (length out.old)) (lent_of t) result out.old out.new
        × Later (number_in result) }
{
    let opened = open_in(keys, archive, work)?;
    let doc = Document {
        src: archive,
        tape: work,
    };
    give_back(&doc, opened.nodes, opened.versions, t, i, out)
}

// Steps back to the version of a mark, with room to work in.
pub fn back_to_mark_in(
    keys: &[u8],
    archive: &[u8],
    t: Table,
    name: &[u8],
    out: &mut [u8],
    work: &mut [u32],
) -> Result<Back, Refusal>
    requires { Roomy archive.now work.old × (t.size ≤ 32) }
    ensures { Steps (named_in keys.now archive.now (lent_of t) name.now (length out.old)) (lent_of t) result out.old out.new
        × Later (number_in result) }
{
    let opened = open_in(keys, archive, work)?;
    let doc = Document {
        src: archive,
        tape: work,
    };
    give_named(&doc, opened.nodes, opened.versions, t, name, out)
}

// Steps back to version i, on a table by value that is left as it is.
pub fn back_on<'a, 'b, 'c, 'd>(
    keys: &'a [u8],
    archive: &'b [u8],
    t: Table,
    i: usize,
    out: &'c mut [u8],
    work: &'d mut [u32],
) -> Result<Back, Refusal>
    requires { t.size ≤ 32 }
    ensures { BackSteps keys.now archive.now (lent_of t) i out.old work.old result out.new work.new }
{
    room(work)?;
    let b = back_in(keys, archive, t, i, out, work);
    clear(work);
    b
}

// Steps back to the version of a mark, on a table by value that is left as it is.
pub fn back_to_mark_on<'a, 'b, 'n, 'c, 'd>(
    keys: &'a [u8],
    archive: &'b [u8],
    t: Table,
    name: &'n [u8],
    out: &'c mut [u8],
    work: &'d mut [u32],
) -> Result<Back, Refusal>
    requires { t.size ≤ 32 }
    ensures { NamedSteps keys.now archive.now (lent_of t) name.now out.old work.old result out.new work.new }
{
    room(work)?;
    let b = back_to_mark_in(keys, archive, t, name, out, work);
    clear(work);
    b
}

// Steps back to version i, and drops the marks of later ones.
pub fn step_back<'a, 'b, 'm, 'c, 'd>(
    keys: &'a [u8],
    archive: &'b [u8],
    marks: &'m mut [Mark],
    i: usize,
    out: &'c mut [u8],
    work: &'d mut [u32],
) -> Result<usize, Refusal>
    ensures { BackEnds keys.now archive.now marks.old i out.old work.old (number_in result) (length_in result) out.new work.new marks.new }
{
    let t = gather(marks);
    let b = back_on(keys, archive, t, i, out, work)?;
    drop_later::<Refusal>(marks, Ok(b.versions), b.to)?;
    Ok(b.length)
}

// Steps back to the version of a mark, and drops the marks of later ones.
pub fn step_back_to_mark<'a, 'b, 'm, 'n, 'c, 'd>(
    keys: &'a [u8],
    archive: &'b [u8],
    marks: &'m mut [Mark],
    name: &'n [u8],
    out: &'c mut [u8],
    work: &'d mut [u32],
) -> Result<usize, Refusal>
    ensures { NamedEnds keys.now archive.now marks.old name.now out.old work.old (number_in result) (length_in result) out.new work.new marks.new }
{
    let t = gather(marks);
    let b = back_to_mark_on(keys, archive, t, name, out, work)?;
    drop_later::<Refusal>(marks, Ok(b.versions), b.to)?;
    Ok(b.length)
}
