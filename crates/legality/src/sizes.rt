// The sizes of every version in one walk: what a `T` holds itself, other `T`s apart, counts for each of its versions.
ghost use Rattle.std.specs.Prelude.{◌≡◌, ◌+◌, ◌%◌, ◌<◌, ◌≤◌, length};
ghost use Rattle.std.proofs.Math.Seq.{slice};
ghost use Rattle.xml.specs.Bytes.{all};
ghost use Rattle.xml.specs.Forest.{Forest};
ghost use Rattle.xml.specs.Tape.{head_at, next_at, Tape};
ghost use Rattle.timestamp.specs.Times.{up_from};
ghost use Rattle.timestamp.specs.Parse.{numbers_in};
ghost use Rattle.timestamp.specs.Reading.{start_at};
ghost use Rattle.versions.specs.Walk.{all_small};
ghost use Rattle.versions.specs.Sizes.{one as counted, when_in};
ghost use Rattle.versions.specs.Grown.{Cells, Grown, in_run};
ghost use Rattle.legality.specs.Measured.{Room, Measured};
ghost use Rattle.legality.specs.Raised.{Readable};
ghost use Rattle.versions.specs.Small.{LegalInside, is_small};

pub use crate::bounds::Size;
use crate::bounds::bound;
use xml::compare::{same_bytes, text_len};
use xml::tape::{Document, is_run};
use xml::text::plain_end;

// Adds x to the nodes and y to the bytes of the versions lo up to end.
fn raise_run(nodes: &mut [u32], bytes: &mut [u32], lo: usize, end: usize, x: u32, y: u32)
    requires { Cells nodes.old lo x × Cells bytes.old lo y × (1 ≤ lo) × (lo ≤ end) × (end ≤ 1000) }
    ensures { Grown nodes.old nodes.new (λ v. when_in (in_run lo end v) x)
        × Grown bytes.old bytes.new (λ v. when_in (in_run lo end v) y) }
{
    for v in lo..end {
        nodes[v] += x;
        bytes[v] += y;
    }
}

// Adds x and y to those of the versions lo to n; of n alone where lo is 0.
fn raise_span(nodes: &mut [u32], bytes: &mut [u32], lo: usize, n: usize, x: u32, y: u32)
    requires { Cells nodes.old (start_at lo n) x × Cells bytes.old (start_at lo n) y × (1 ≤ start_at lo n) × (start_at lo n ≤ n + 1) × (n + 1 ≤ 1000) }
    ensures { Grown nodes.old nodes.new (λ v. when_in (in_run (start_at lo n) (n + 1) v) x)
        × Grown bytes.old bytes.new (λ v. when_in (in_run (start_at lo n) (n + 1) v) y) }
{
    if lo == 0 {
        nodes[n] += x;
        bytes[n] += y;
        return;
    }
    raise_run(nodes, bytes, lo, n + 1, x, y);
}

// Adds x and y to those of the versions in the set with the text src[a..e], from run to run.
fn raise(src: &[u8], a: usize, e: usize, nodes: &mut [u32], bytes: &mut [u32], x: u32, y: u32)
    requires { Readable (slice a e src.now) × (a ≤ e) × (e ≤ length src.now) × Cells nodes.old 1 x × Cells bytes.old 1 y }
    ensures { Grown nodes.old nodes.new (λ v. when_in (numbers_in (slice a e src.now) v) x)
        × Grown bytes.old bytes.new (λ v. when_in (numbers_in (slice a e src.now) v) y) }
{
    let mut lo = 0;
    let mut n = 0;
    for at in a..e {
        let b = src[at];
        if b'0' <= b {
            n = n * 10 + ((b - 48) as usize);
            continue;
        }
        if b == b',' {
            raise_span(nodes, bytes, lo, n, x, y);
            lo = 0;
            n = 0;
            continue;
        }
        lo = n;
        n = 0;
    }
    raise_span(nodes, bytes, lo, n, x, y);
}

// An element with the name src[a..e] counts for one node, and one named T for none.
fn one(src: &[u8], a: usize, e: usize) -> u32
    requires { (a ≤ e) × (e ≤ length src.now) }
    ensures { result ≡ counted (slice a e src.now) }
{
    if same_bytes(&src[a..e], b"T") {
        return 0;
    }
    1
}

// The nodes lo to hi, which a node holds: one run of text that is written as it stands is measured with no walk.
#[cycle(add_inside_add_node_add_sizes)]
fn add_inside(
    doc: &Document,
    lo: usize,
    hi: usize,
    left: usize,
    timed: bool,
    nodes: &mut [u32],
    bytes: &mut [u32],
) -> Option<Size>
    requires { Room doc.now.src.now doc.now.tape.now lo hi nodes.old bytes.old }
    ensures { (f : Forest) → Tape doc.now.src.now doc.now.tape.now lo hi f
        → Measured left timed f result nodes.old nodes.new bytes.old bytes.new }
{
    if is_run(doc.tape, lo, hi) {
        let v = doc.view(lo);
        if plain_end(doc.src, v.start, v.end) == v.end {
            return Some(Size {
                nodes: 1,
                bytes: (v.end - v.start) as u32,
            });
        }
    }
    add_sizes(doc, lo, hi, left, timed, nodes, bytes)
}

// The element or `T` p, which stands straight in a `T` where `timed`: where it is a `T`, what it holds itself is added to the cells of its
// versions.
#[cycle(add_inside_add_node_add_sizes)]
fn add_node(
    doc: &Document,
    p: usize,
    left: usize,
    timed: bool,
    nodes: &mut [u32],
    bytes: &mut [u32],
) -> Option<Size>
    requires { (p < next_at doc.now.tape.now p) × (head_at doc.now.tape.now p % 4 ≡ 0 → ⊥) × Room doc.now.src.now doc.now.tape.now p (next_at doc.now.tape.now p) nodes.old bytes.old }
    ensures { (f : Forest) → Tape doc.now.src.now doc.now.tape.now p (next_at doc.now.tape.now p) f
        → Measured left timed f result nodes.old nodes.new bytes.old bytes.new }
{
    let v = doc.view(p);
    if v.kind == 1 {
        if left == 0 {
            return None;
        }
        let inside = add_inside(doc, p + 1, v.next, left - 1, false, nodes, bytes)?;
        let name = (v.end - v.start) as u32;
        return Some(Size {
            nodes: one(doc.src, v.start, v.end) + inside.nodes,
            bytes: 2 * name + 5 + inside.bytes,
        });
    }
    if timed {
        return None;
    }
    let own = add_inside(doc, p + 1, v.next, left, true, nodes, bytes)?;
    raise(doc.src, v.start, v.end, nodes, bytes, own.nodes, own.bytes);
    Some(Size { nodes: 0, bytes: 0 })
}

// What stands in no `T` of the nodes lo to hi, with elements at most `left` deep and no `T` straight in a `T`, so that calls are at most
// 2 * left + 2 deep; or none, where it stops at a deeper element or at such a `T`. The siblings are linked by `next`, so no range counts them.
#[cycle(add_inside_add_node_add_sizes)]
pub fn add_sizes(
    doc: &Document,
    lo: usize,
    hi: usize,
    left: usize,
    timed: bool,
    nodes: &mut [u32],
    bytes: &mut [u32],
) -> Option<Size>
    requires { Room doc.now.src.now doc.now.tape.now lo hi nodes.old bytes.old }
    ensures { (f : Forest) → Tape doc.now.src.now doc.now.tape.now lo hi f
        → Measured left timed f result nodes.old nodes.new bytes.old bytes.new }
{
    let mut p = lo;
    let mut n = 0u32;
    let mut b = 0u32;
    while p < hi {
        let v = doc.view(p);
        if v.kind == 0 {
            b += text_len(&doc.src[v.start..v.end]) as u32;
            n += 1;
            p = v.next;
            continue;
        }
        let node = add_node(doc, p, left, timed, nodes, bytes)?;
        n += node.nodes;
        b += node.bytes;
        p = v.next;
    }
    Some(Size { nodes: n, bytes: b })
}

// The cells 1 to n, with x and y more each, are within the limits of a version.
fn within_limits(nodes: &[u32], bytes: &[u32], x: u32, y: u32, n: usize) -> bool
    requires { Cells nodes.now 1 x × Cells bytes.now 1 y × (n ≤ 999) }
    ensures { result ≡ all (is_small nodes.now bytes.now x y) (up_from 1 n) }
{
    for i in 1..n + 1 {
        if 512 < x + nodes[i] {
            return false;
        }
        if 16384 < y + bytes[i] {
            return false;
        }
    }
    true
}

// Every version of an archive with the inside lo to hi is within the limits, by the sizes of each.
fn measure(doc: &Document, lo: usize, hi: usize, n: usize) -> bool
    requires { LegalInside doc.now.src.now doc.now.tape.now lo hi n }
    ensures { (f : Forest) → Tape doc.now.src.now doc.now.tape.now lo hi f → result ≡ all_small n f }
{
    let mut nodes = [0u32; 1000];
    let mut bytes = [0u32; 1000];
    match add_sizes(doc, lo, hi, 16, false, &mut nodes, &mut bytes) {
        Some(own) => within_limits(&nodes, &bytes, own.nodes, own.bytes, n),
        None => false,
    }
}

// Every version of an archive with the inside lo to hi is within the limits: mostly the bounds tell.
pub fn all_small(doc: &Document, lo: usize, hi: usize, n: usize) -> bool
    requires { LegalInside doc.now.src.now doc.now.tape.now lo hi n }
    ensures { (f : Forest) → Tape doc.now.src.now doc.now.tape.now lo hi f → result ≡ all_small n f }
{
    if let Some(most) = bound(doc, lo, hi, 16) {
        if most.nodes <= 512 {
            if most.bytes <= 16384 {
                return true;
            }
        }
    }
    measure(doc, lo, hi, n)
}
