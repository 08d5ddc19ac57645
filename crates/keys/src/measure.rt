// Refusal 6: a version that is too deep, has too many nodes, or is too long when written. One walk, which stops at the first limit that
// is passed: so it goes down seventeen levels at most.
ghost use Rattle.std.specs.Prelude.{◌≡◌, false, ◌&&◌, [], ◌*◌, ◌-◌, ◌^◌, ◌<◌, ◌≤◌, length};
ghost use Rattle.std.proofs.Math.Seq.{slice};
ghost use Rattle.xml.specs.Bytes.{Bytes, all, is_white};
ghost use Rattle.xml.specs.Forest.{Tidy};
ghost use Rattle.xml.specs.Read.{unescape};
ghost use Rattle.xml.specs.Tape.{next_at};
ghost use Rattle.keys.specs.KeyList.{above};
ghost use Rattle.keys.specs.Version.{drop_white, too_large};
ghost use Rattle.keys.specs.Placed.{OfPlace};
ghost use Rattle.keys.specs.Walks.{Walk, OfNodes, OfVersion};
ghost use Rattle.keys.specs.Measure.{Within, passed, plus, plus_tags, plus_text, measured};

use crate::places::KeyTable;
use xml::compare::{is_white, same_bytes, text_len};
use xml::tape::Document;

// What a walk has met so far: so many nodes and bytes, or more of something than a version may have.
#[derive(Clone, Copy)]
pub struct Sizes {
    pub over: bool,
    pub nodes: usize,
    pub bytes: usize,
}

// A limit is passed.
fn over() -> Sizes
    ensures { result ≡ passed }
{
    Sizes {
        over: true,
        nodes: 0,
        bytes: 0,
    }
}

// So many nodes and bytes more.
fn add(s: Sizes, nodes: usize, bytes: usize) -> Sizes
    requires { Within s × (nodes ≤ 1) × (bytes ≤ 2 ^ 32) }
    ensures { result ≡ plus s nodes bytes }
{
    if s.nodes + nodes > 512 {
        return over();
    }
    if s.bytes + bytes > 16384 {
        return over();
    }
    Sizes {
        over: false,
        nodes: s.nodes + nodes,
        bytes: s.bytes + bytes,
    }
}

// The two tags of an element with the name more.
fn add_tags(name: &[u8], s: Sizes) -> Sizes
    requires { (length name.now ≤ 32768) × Within s }
    ensures { result ≡ plus_tags s name.now }
{
    if same_bytes(name, b"T") {
        return add(s, 0, 2 * name.len() + 5);
    }
    add(s, 1, 2 * name.len() + 5)
}

// A run of text in an element at a place is dropped: it is white space above a frontier.
pub fn is_dropped(keys: &KeyTable, place: usize, run: &[u8]) -> bool
    requires { 2 * keys.now.paths ≤ length keys.now.table.now }
    ensures { (text : Bytes) → OfPlace text keys.now.table.now keys.now.paths place (λ K p. result ≡ (above K p && all is_white (unescape 0 run.now))) }
{
    if !keys.is_above(place) {
        return false;
    }
    is_white(run)
}

// A run of text more, in an element at a place.
fn add_text(keys: &KeyTable, place: usize, run: &[u8], s: Sizes) -> Sizes
    requires { (2 * keys.now.paths ≤ length keys.now.table.now) × (length run.now ≤ 32768) × Within s }
    ensures { OfPlace keys.now.text.now keys.now.table.now keys.now.paths place (λ K p. result ≡ plus_text K p s (unescape 0 run.now)) }
{
    if is_dropped(keys, place, run) {
        return s;
    }
    add(s, 1, text_len(run))
}

// The node p more, in an element at a place, where elements may stand `depth` deep.
#[cycle(measure_content_measure_node)]
fn measure_node(
    keys: &KeyTable,
    place: usize,
    doc: &Document,
    p: usize,
    depth: usize,
    s: Sizes,
) -> Sizes
    requires { (p < next_at doc.now.tape.now p) × Walk keys.now.text.now keys.now.table.now keys.now.paths place doc.now.src.now doc.now.tape.now p (next_at doc.now.tape.now p) × Within s }
    ensures { OfNodes keys.now.text.now keys.now.table.now keys.now.paths place doc.now.src.now doc.now.tape.now p (next_at doc.now.tape.now p)
        (λ K q f. result ≡ measured K q depth f s) }
{
    let v = doc.view(p);
    if v.kind == 0 {
        return add_text(keys, place, doc.part(v), s);
    }
    if depth == 0 {
        return over();
    }
    let name = doc.part(v);
    let t = add_tags(name, s);
    if t.over {
        return t;
    }
    let below = keys.child(place, name);
    let d = depth - 1;
    measure_content(keys, below, doc, p + 1, v.next, d, t)
}

// The nodes lo to hi more, in an element at a place, where elements may stand `depth` deep. They are linked by `next`, so no range counts them.
#[cycle(measure_content_measure_node)]
fn measure_content(
    keys: &KeyTable,
    place: usize,
    doc: &Document,
    lo: usize,
    hi: usize,
    depth: usize,
    from: Sizes,
) -> Sizes
    requires { Walk keys.now.text.now keys.now.table.now keys.now.paths place doc.now.src.now doc.now.tape.now lo hi × Within from × (from.over ≡ false) }
    ensures { OfNodes keys.now.text.now keys.now.table.now keys.now.paths place doc.now.src.now doc.now.tape.now lo hi (λ K q f. result ≡ measured K q depth f from) }
{
    let mut s = from;
    let mut p = lo;
    while p < hi {
        s = measure_node(keys, place, doc, p, depth, s);
        if s.over {
            return s;
        }
        p = doc.view(p).next;
    }
    s
}

// 6, of the version with these nodes.
pub fn too_large(keys: &KeyTable, doc: &Document, count: usize) -> bool
    requires { Walk keys.now.text.now keys.now.table.now keys.now.paths 128 doc.now.src.now doc.now.tape.now 0 count }
    ensures { OfVersion keys.now.text.now keys.now.table.now keys.now.paths doc.now.src.now doc.now.tape.now count
        (λ K f. Tidy false f → result ≡ too_large (drop_white K [] f)) }
{
    let none = Sizes {
        over: false,
        nodes: 0,
        bytes: 0,
    };
    measure_content(keys, 128, doc, 0, count, 16, none).over
}
