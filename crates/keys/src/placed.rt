// Refusal 7: a path not in the list above or at a frontier, refused text, or the name `T` anywhere. Asked once 6 does not apply.
ghost use Rattle.std.specs.Prelude.{◌≡◌, [], ◌*◌, ◌<◌, ◌≤◌, length};
ghost use Rattle.std.proofs.Math.Seq.{slice};
ghost use Rattle.xml.specs.Bytes.{Bytes};
ghost use Rattle.xml.specs.Tape.{next_at};
ghost use Rattle.keys.specs.Version.{◌▸◌, drop_white, misplaced};
ghost use Rattle.keys.specs.Table.{place_of};
ghost use Rattle.keys.specs.Placed.{OfPlace};
ghost use Rattle.keys.specs.Walks.{Walk, OfNodes, OfVersion};
ghost use Rattle.keys.specs.Strays.{astray, strange};

use crate::places::KeyTable;
use xml::compare::{is_white, same_bytes};
use xml::tape::Document;

// An element with the name, in one at a place, may not stand there; its own place is `below`.
fn is_strange(keys: &KeyTable, place: usize, below: usize, name: &[u8]) -> bool
    requires { (2 * keys.now.paths ≤ length keys.now.table.now) }
    ensures { OfPlace keys.now.text.now keys.now.table.now keys.now.paths place
        (λ K p. place_of K (p ▸ name.now) ≡ below → result ≡ strange K p name.now) }
{
    if same_bytes(name, b"T") {
        return true;
    }
    if !keys.is_above(place) {
        return false;
    }
    below == 129
}

// In the node p, in an element at a place, something is misplaced.
#[cycle(misplaced_content_misplaced_node)]
fn misplaced_node(keys: &KeyTable, place: usize, doc: &Document, p: usize) -> bool
    requires { (p < next_at doc.now.tape.now p) × Walk keys.now.text.now keys.now.table.now keys.now.paths place doc.now.src.now doc.now.tape.now p (next_at doc.now.tape.now p) }
    ensures { OfNodes keys.now.text.now keys.now.table.now keys.now.paths place doc.now.src.now doc.now.tape.now p (next_at doc.now.tape.now p)
        (λ K q f. result ≡ astray K q f) }
{
    let v = doc.view(p);
    if v.kind == 0 {
        if !keys.is_above(place) {
            return false;
        }
        return !is_white(doc.part(v));
    }
    if v.kind != 1 {
        return true;
    }
    let name = doc.part(v);
    let below = keys.child(place, name);
    if is_strange(keys, place, below, name) {
        return true;
    }
    misplaced_content(keys, below, doc, p + 1, v.next)
}

// In the nodes lo to hi, in an element at a place, something is misplaced. They are linked by `next`, so no range counts them.
#[cycle(misplaced_content_misplaced_node)]
fn misplaced_content(keys: &KeyTable, place: usize, doc: &Document, lo: usize, hi: usize) -> bool
    requires { Walk keys.now.text.now keys.now.table.now keys.now.paths place doc.now.src.now doc.now.tape.now lo hi }
    ensures { OfNodes keys.now.text.now keys.now.table.now keys.now.paths place doc.now.src.now doc.now.tape.now lo hi (λ K q f. result ≡ astray K q f) }
{
    let mut p = lo;
    while p < hi {
        if misplaced_node(keys, place, doc, p) {
            return true;
        }
        p = doc.view(p).next;
    }
    false
}

// 7, of the version with these nodes.
pub fn is_misplaced(keys: &KeyTable, doc: &Document, count: usize) -> bool
    requires { Walk keys.now.text.now keys.now.table.now keys.now.paths 128 doc.now.src.now doc.now.tape.now 0 count }
    ensures { OfVersion keys.now.text.now keys.now.table.now keys.now.paths doc.now.src.now doc.now.tape.now count
        (λ K f. result ≡ misplaced K [] (drop_white K [] f)) }
{
    misplaced_content(keys, 128, doc, 0, count)
}
