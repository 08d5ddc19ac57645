// Histories: the steps of an address are followed on the archive's tape, from the root down, to the text of the nearest `T`.
ghost use Rattle.std.specs.Prelude.{◌≡◌, [], ◌+◌, ◌*◌, ◌^◌, ◌<◌, ◌≤◌, length, get_or};
ghost use Rattle.xml.specs.Over.{Wrote};
ghost use Rattle.xml.specs.Tape.{head_at, end_in};
ghost use Rattle.versions.specs.HistoryTape.{element_at, near_at};
ghost use Rattle.walks.specs.HistoryParts.{StepSought, StepFound, HistoryAsked, OfHistory, AroundIs};

use keys::address::{Parsed, same_step};
use keys::places::KeyTable;
use xml::tape::{Document, view_at};
use xml::writer::put_word;

// The element that the sibling p is or, if it is a `T`, is around.
pub fn element_at(tape: &[u32], p: usize) -> usize
    requires { 2 * p + 1 < length tape.now }
    ensures { result ≡ element_at tape.now p }
{
    let v = view_at(tape, p);
    if v.kind == 2 {
        return p + 1;
    }
    p
}

// The first of the siblings lo to hi whose element has the label of step i. They are linked by `next`, so no range counts them.
fn find_step(
    keys: &KeyTable,
    s: &[u8],
    steps: Parsed,
    values: [[usize; 4]; 8],
    i: usize,
    doc: &Document,
    lo: usize,
    hi: usize,
) -> Option<usize>
    requires { StepSought keys.now.text.now keys.now.table.now keys.now.paths s.now (get_or steps.names i 0) (get_or steps.places i 0) (get_or values i []) doc.now.src.now doc.now.tape.now lo hi × (i < 8) }
    ensures { StepFound keys.now.text.now keys.now.table.now keys.now.paths s.now (get_or steps.names i 0) (get_or steps.places i 0) (get_or values i []) doc.now.src.now doc.now.tape.now lo hi result }
{
    let mut p = lo;
    while p < hi {
        let e = element_at(doc.tape, p);
        if same_step(keys, s, steps, values, i, doc, e) {
            return Some(p);
        }
        p = doc.view(p).next;
    }
    None
}

// The text of the nearest `T` around what the sibling p holds: its own, or that of the `T` before, `around`.
fn nearer<'a>(doc: &Document<'a>, p: usize, around: &'a [u8]) -> &'a [u8]
    requires { (2 * p + 1 < length doc.now.tape.now) × (end_in (head_at doc.now.tape.now p) ≤ length doc.now.src.now) }
    ensures { result.now ≡ near_at doc.now.src.now doc.now.tape.now p around.now }
{
    let v = doc.view(p);
    if v.kind == 2 {
        return &doc.src[v.start..v.end];
    }
    around
}

// The text of the nearest `T` around the element of the address, if the element is there.
fn nearest<'a>(
    keys: &KeyTable,
    s: &[u8],
    steps: Parsed,
    values: [[usize; 4]; 8],
    doc: &Document<'a>,
    count: usize,
) -> Option<&'a [u8]>
    requires { HistoryAsked keys.now.text.now keys.now.table.now keys.now.paths s.now steps values doc.now.src.now doc.now.tape.now count }
    ensures { OfHistory keys.now.text.now keys.now.table.now keys.now.paths s.now doc.now.src.now doc.now.tape.now count (λ w. AroundIs w result) }
{
    let top = doc.view(0);
    let mut around = &doc.src[top.start..top.end];
    let mut lo = 1;
    let mut hi = count;
    for i in 0..steps.count {
        let p = find_step(keys, s, steps, values, i, doc, lo, hi)?;
        around = nearer(doc, p, around);
        lo = element_at(doc.tape, p) + 1;
        hi = doc.view(p).next;
    }
    Some(around)
}

// Writes the history of an address: the text of the element's versions, or nothing.
pub fn history(
    keys: &KeyTable,
    s: &[u8],
    steps: Parsed,
    values: [[usize; 4]; 8],
    doc: &Document,
    count: usize,
    out: &mut [u8],
    at: usize,
) -> usize
    requires { HistoryAsked keys.now.text.now keys.now.table.now keys.now.paths s.now steps values doc.now.src.now doc.now.tape.now count × (at < 2 ^ 62) }
    ensures { OfHistory keys.now.text.now keys.now.table.now keys.now.paths s.now doc.now.src.now doc.now.tape.now count (λ w. Wrote out.old at w result out.new) }
{
    match nearest(keys, s, steps, values, doc, count) {
        Some(nearest) => put_word(nearest, out, at),
        None => at,
    }
}
