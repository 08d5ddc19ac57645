// Writing an archive after a step back to version i: each `T`'s set is cut at i. What is cut to nothing is dropped, what is cut to the
// set around it is bare, anything else is in a `T`.
ghost use Rattle.std.specs.Prelude.{◌≡◌, ◌++◌, ◌+◌, ◌*◌, ◌-◌, ◌%◌, ◌^◌, ◌<◌, ◌≤◌, get_or, length};
ghost use Rattle.std.proofs.Math.Seq.{slice};
ghost use Rattle.xml.specs.Bytes.{same};
ghost use Rattle.xml.specs.Forest.{Forest, write as written};
ghost use Rattle.xml.specs.Over.{Wrote};
ghost use Rattle.xml.specs.Tape.{head_at, next_at, Tape};
ghost use Rattle.xml.specs.TapeLaws.{bytes_at};
ghost use Rattle.timestamp.specs.Times.{always};
ghost use Rattle.versions.specs.Walk.{times_in, back_forest};
ghost use Rattle.versions.specs.Rendered.{Renders};
ghost use Rattle.versions.specs.Timely.{Timely};
ghost use Rattle.versions.specs.BackText.{back_text};
ghost use Rattle.walks.specs.Trimmed.{cut_text, Trimmed};

use crate::timed::put_changed;
use timestamp::change::{Change, cut_at};
use timestamp::write::put_tail;
use xml::tape::{Document, is_run};
use xml::writer::{least, put_close, put_open, put_text, put_word};

// The byte k of a text whose first `to` bytes begin at a, with the others in `tail`.
fn byte_in(src: &[u8], a: usize, to: usize, tail: &[u8], k: usize) -> u8
    requires { (a + to ≤ length src.now) × (k < to + length tail.now) }
    ensures { result ≡ get_or (slice a (a + to) src.now ++ tail.now) k 0 }
{
    if k < to { src[a + k] } else { tail[k - to] }
}

// Whether two cut texts, which begin at a and b, are the same.
fn same_cut(src: &[u8], a: usize, x: Change, b: usize, y: Change, i: usize) -> bool
    requires { (1 ≤ i) × (i ≤ 999) × Trimmed i src.now a x.to x.tail × Trimmed i src.now b y.to y.tail }
    ensures { result ≡ same (cut_text src.now a x.to x.tail i) (cut_text src.now b y.to y.tail i) }
{
    let mut xs = [0u8; 4];
    let mut ys = [0u8; 4];
    let size = x.to + put_tail(x.tail, i, &mut xs, 0);
    if size != y.to + put_tail(y.tail, i, &mut ys, 0) {
        return false;
    }
    for k in 0..size {
        if byte_in(src, a, x.to, &xs, k) != byte_in(src, b, y.to, &ys, k) {
            return false;
        }
    }
    true
}

// Writes the nodes lo to hi, which a node of the versions `around` holds: one run of text is written with no walk.
#[cycle(back_inside_back_node_write_back)]
fn back_inside(
    doc: &Document,
    lo: usize,
    hi: usize,
    i: usize,
    a: usize,
    around: Change,
    out: &mut [u8],
    at: usize,
) -> usize
    requires { Timely i doc.now.src.now doc.now.tape.now lo hi × (1 ≤ i) × Trimmed i doc.now.src.now a around.to around.tail × (at + 163840 * (hi - lo) < 2 ^ 60) }
    ensures { Renders (back_text i (times_in i (cut_text doc.now.src.now a around.to around.tail i))) doc.now.src.now doc.now.tape.now lo hi
        out.old at result out.new }
{
    if is_run(doc.tape, lo, hi) {
        let v = doc.view(lo);
        return put_text(&doc.src[v.start..v.end], out, at);
    }
    write_back(doc, lo, hi, i, a, around, out, at)
}

// Writes node p, which stands in an element of the versions `around`, from the start of `out`.
#[cycle(back_inside_back_node_write_back)]
fn back_node(doc: &Document, p: usize, i: usize, a: usize, around: Change, out: &mut [u8]) -> usize
    requires { (p < next_at doc.now.tape.now p) × Timely i doc.now.src.now doc.now.tape.now p (next_at doc.now.tape.now p) × (1 ≤ i) × Trimmed i doc.now.src.now a around.to around.tail × (163840 * (next_at doc.now.tape.now p - p) < 2 ^ 60) }
    ensures { Renders (back_text i (times_in i (cut_text doc.now.src.now a around.to around.tail i))) doc.now.src.now doc.now.tape.now p (next_at doc.now.tape.now p)
        out.old 0 result out.new }
{
    let v = doc.view(p);
    let start = v.start;
    let end = v.end;
    if v.kind == 0 {
        return put_text(&doc.src[start..end], out, 0);
    }
    if v.kind == 1 {
        let inside = put_open(true, &doc.src[start..end], out, 0);
        let close = back_inside(doc, p + 1, v.next, i, a, around, out, inside);
        return put_close(true, &doc.src[start..end], out, close);
    }
    let cut = cut_at(&doc.src[start..end], i);
    if cut.is_empty() {
        return 0;
    }
    if same_cut(doc.src, a, around, start, cut, i) {
        return back_inside(doc, p + 1, v.next, i, start, cut, out, 0);
    }
    let inside = put_changed(cut, doc.src, start, i, out, 0);
    let close = back_inside(doc, p + 1, v.next, i, start, cut, out, inside);
    put_close(false, &doc.src[start..end], out, close)
}

// Writes the nodes lo to hi, which stand in an element of the versions `around`. The writer of each node is lent the output's part from the
// current place. The siblings are linked by `next`, so no range counts them.
#[cycle(back_inside_back_node_write_back)]
pub fn write_back(
    doc: &Document,
    lo: usize,
    hi: usize,
    i: usize,
    a: usize,
    around: Change,
    out: &mut [u8],
    at: usize,
) -> usize
    requires { Timely i doc.now.src.now doc.now.tape.now lo hi × (1 ≤ i) × Trimmed i doc.now.src.now a around.to around.tail × (at + 163840 * (hi - lo) < 2 ^ 60) }
    ensures { Renders (back_text i (times_in i (cut_text doc.now.src.now a around.to around.tail i))) doc.now.src.now doc.now.tape.now lo hi
        out.old at result out.new }
{
    let mut p = lo;
    let mut to = at;
    while p < hi {
        let from = least(to, out.len());
        to += back_node(doc, p, i, a, around, &mut out[from..]);
        p = doc.view(p).next;
    }
    to
}

// Writes the whole archive, which the nodes 0 to hi are, after a step back to version i.
pub fn back(doc: &Document, hi: usize, i: usize, out: &mut [u8], at: usize) -> usize
    requires { (0 < hi) × (next_at doc.now.tape.now 0 ≡ hi) × (head_at doc.now.tape.now 0 % 4 ≡ 2) × Timely i doc.now.src.now doc.now.tape.now 0 hi × (1 ≤ i) × (times_in i (bytes_at doc.now.src.now doc.now.tape.now 0) ≡ always i) × (at + 163840 * hi < 2 ^ 60) }
    ensures { (f : Forest) → Tape doc.now.src.now doc.now.tape.now 0 hi f
        → Wrote out.old at (written (back_forest i f)) result out.new }
{
    let v = doc.view(0);
    let start = v.start;
    let end = v.end;
    let cut = cut_at(&doc.src[start..end], i);
    let inside = put_changed(cut, doc.src, start, i, out, at);
    let close = write_back(doc, 1, hi, i, start, cut, out, inside);
    put_word(b"</T>", out, close)
}
