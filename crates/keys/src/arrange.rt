// A version's kept nodes in canonical order, on a second tape.
ghost use Rattle.std.specs.Prelude.{◌+◌, ◌≤◌, length};
ghost use Rattle.xml.specs.Tape.{next_at};
ghost use Rattle.keys.specs.Copied.{Linked, Copied};
ghost use Rattle.keys.specs.Building.{ContentFit, ElementFit, ContentArranged, ElementArranged};
ghost use Rattle.keys.specs.Arrange.{VersionFit, Answers};

use crate::order::order_in;
use crate::places::KeyTable;
use xml::tape::Document;

// Copies the nodes lo to hi to the nodes from m on of `out`, as they are, and answers the node after them.
fn copy(tape: &[u32], lo: usize, hi: usize, out: &mut [u32], m: usize) -> usize
    requires { Linked tape.now lo hi × (m + hi ≤ 512 + lo) × (1024 ≤ length out.old) }
    ensures { Copied tape.now lo hi out.old m result out.new }
{
    for i in lo..hi {
        let to = m + (i - lo);
        out[2 * to] = tape[2 * i];
        out[2 * to + 1] = (tape[2 * i + 1] as usize - lo + m) as u32;
    }
    m + (hi - lo)
}

// Builds the element p, in an element at the place, from node m of `out` on, and answers the node after it; none, where 9 applies to what it holds.
// Its second cell is written last.
#[cycle(arrange_content_arrange_element)]
fn arrange_element(
    keys: &KeyTable,
    place: usize,
    doc: &Document,
    p: usize,
    out: &mut [u32],
    m: usize,
) -> Option<usize>
    requires { ElementFit keys.now.text.now keys.now.table.now keys.now.paths place doc.now.src.now doc.now.tape.now p m × (1024 ≤ length out.old) × (next_at doc.now.tape.now p ≤ 65536) }
    ensures { ElementArranged keys.now.text.now keys.now.table.now keys.now.paths place doc.now.src.now doc.now.tape.now p out.old m result out.new }
{
    let v = doc.view(p);
    let own = keys.child(place, doc.part(v));
    out[2 * m] = doc.tape[2 * p];
    let end = arrange_content(keys, own, doc, p + 1, v.next, out, m + 1)?;
    out[2 * m + 1] = end as u32;
    Some(end)
}

// Builds the nodes lo to hi, in an element at the place, from node m of `out` on: in canonical order above the frontiers, as they are beneath.
// Answers the node after them; none, where two siblings among them or beneath have the same label.
#[cycle(arrange_content_arrange_element)]
fn arrange_content(
    keys: &KeyTable,
    place: usize,
    doc: &Document,
    lo: usize,
    hi: usize,
    out: &mut [u32],
    m: usize,
) -> Option<usize>
    requires { ContentFit keys.now.text.now keys.now.table.now keys.now.paths place doc.now.src.now doc.now.tape.now lo hi m × (1024 ≤ length out.old) × (hi ≤ 65536) }
    ensures { ContentArranged keys.now.text.now keys.now.table.now keys.now.paths place doc.now.src.now doc.now.tape.now lo hi out.old m result out.new }
{
    if !keys.is_above(place) {
        return Some(copy(doc.tape, lo, hi, out, m));
    }
    let mut order = [0u16; 512];
    let k = order_in(keys, place, doc, lo, hi, &mut order)?;
    let mut to = m;
    for j in 0..k {
        let p = order[j] as usize;
        to = arrange_element(keys, place, doc, p, out, to)?;
    }
    Some(to)
}

// Puts the version on the nodes 0 to count of `tape`, which has passed 6, 7 and 8, onto `out` in canonical order: so many nodes; none, where 9 applies.
pub fn arrange(keys: &KeyTable, doc: &Document, count: usize, out: &mut [u32]) -> Option<usize>
    requires { VersionFit keys.now.text.now keys.now.table.now keys.now.paths doc.now.src.now doc.now.tape.now count × (1024 ≤ length out.old) × (count ≤ 65536) }
    ensures { Answers keys.now.text.now keys.now.table.now keys.now.paths doc.now.src.now doc.now.tape.now count out.new result }
{
    arrange_content(keys, 128, doc, 0, count, out, 0)
}
