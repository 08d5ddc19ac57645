// Siblings of an archive above the frontiers: which are legal.
ghost use Rattle.std.specs.Prelude.{◌≡◌, ℕ, ◌+◌, ◌*◌, ◌<◌, ◌≤◌, length};
ghost use Rattle.std.proofs.Math.Seq.{slice};
ghost use Rattle.xml.specs.Forest.{Forest};
ghost use Rattle.xml.specs.Bytes.{Bytes};
ghost use Rattle.xml.specs.Tape.{next_at, Tape, Valid};
ghost use Rattle.keys.specs.KeyList.{key_names_at};
ghost use Rattle.keys.specs.Labelled.{has_keys, Labelled};
ghost use Rattle.keys.specs.Walks.{Walk, OfNodes};
ghost use Rattle.timestamp.specs.Set.{set_of};
ghost use Rattle.timestamp.specs.Listed.{Only, listed};
ghost use Rattle.versions.specs.Walk.{is_sole, siblings_legal};
ghost use Rattle.versions.specs.LegalTimes.{TimesRead, OwnRead};
ghost use Rattle.versions.specs.LegalSteps.{Ascends, ElementAsked, ElementSaid};

use crate::front::front_legal;
use crate::times::parse_at;
use keys::keyed::has_key;
use keys::label::compare_labels;
use keys::places::KeyTable;
use timestamp::Timestamp;
use walks::history::element_at;
use xml::compare::same_bytes;
use xml::tape::{Document, view_at};

// An element at a place, which holds the nodes lo to hi, has each key child just once, bare and with a value.
pub fn has_keys(keys: &KeyTable, place: usize, doc: &Document, lo: usize, hi: usize) -> bool
    requires { Walk keys.now.text.now keys.now.table.now keys.now.paths place doc.now.src.now doc.now.tape.now lo hi }
    ensures { OfNodes keys.now.text.now keys.now.table.now keys.now.paths place doc.now.src.now doc.now.tape.now lo hi
        (λ K p f. result ≡ has_keys (key_names_at K p) f) }
{
    let count = keys.key_count(place);
    for j in 0..count {
        let name = keys.key_name(place + 1 + j);
        if !has_key(doc, lo, hi, keys.part(name)) {
            return false;
        }
    }
    true
}

// The nodes lo to hi are one element and nothing else.
pub fn is_sole(tape: &[u32], lo: usize, hi: usize) -> bool
    requires { lo < hi → 2 * lo + 1 < length tape.now }
    ensures { (src : Bytes) (f : Forest) → Tape src tape.now lo hi f → result ≡ is_sole f }
{
    if hi <= lo {
        return false;
    }
    let v = view_at(tape, lo);
    if v.kind != 1 {
        return false;
    }
    v.next == hi
}

// The set with the text src[a..e], if it may be that of a `T` in an element of the versions `times`.
fn times_fit(src: &[u8], a: usize, e: usize, times: Timestamp) -> Option<Timestamp>
    requires { (a ≤ e) × (e ≤ length src.now) }
    ensures { (n : ℕ) → n ≤ 999 → Only n (set_of times.words)
        → TimesRead n (set_of times.words) (slice a e src.now) result }
{
    let mut own = Timestamp::empty();
    if !parse_at(&mut own, src, a, e) {
        return None;
    }
    if !own.is_part(times) {
        return None;
    }
    Some(own)
}

// The set of the sibling p, in an element of the versions `times`, if it has one: these if it is bare, or that of the `T`.
fn own_times(doc: &Document, p: usize, times: Timestamp) -> Option<Timestamp>
    requires { (p < next_at doc.now.tape.now p) × Valid doc.now.src.now doc.now.tape.now p (next_at doc.now.tape.now p) }
    ensures { (n hi : ℕ) (f : Forest) → n ≤ 999 → Only n (set_of times.words) → p < hi → Tape doc.now.src.now doc.now.tape.now p hi f
        → OwnRead n (set_of times.words) f result }
{
    let v = doc.view(p);
    if v.kind == 0 {
        return None;
    }
    if v.kind == 1 {
        return Some(times);
    }
    if !is_sole(doc.tape, p + 1, v.next) {
        return None;
    }
    times_fit(doc.src, v.start, v.end, times)
}

// The element e, in one at the place, comes after the element `last` by its label; no element is before it if `last` is hi.
fn ascends(keys: &KeyTable, place: usize, doc: &Document, hi: usize, last: usize, e: usize) -> bool
    requires { (last < hi → Labelled keys.now.text.now keys.now.table.now keys.now.paths place doc.now.src.now doc.now.tape.now last) × Labelled keys.now.text.now keys.now.table.now keys.now.paths place doc.now.src.now doc.now.tape.now e }
    ensures { Ascends keys.now.text.now keys.now.table.now keys.now.paths place doc.now.src.now doc.now.tape.now hi last e result }
{
    if hi <= last {
        return true;
    }
    compare_labels(keys, place, doc, last, doc, e).is_lt()
}

// The element e, in one at the place, is legal in the versions `times`.
#[cycle(element_legal_siblings_legal)]
fn element_legal(
    keys: &KeyTable,
    place: usize,
    doc: &Document,
    e: usize,
    n: usize,
    times: Timestamp,
) -> bool
    requires { ElementAsked keys.now.text.now keys.now.table.now keys.now.paths place doc.now.src.now doc.now.tape.now e n (set_of times.words) }
    ensures { ElementSaid keys.now.text.now keys.now.table.now keys.now.paths place doc.now.src.now doc.now.tape.now e n (set_of times.words) result }
{
    let v = doc.view(e);
    let own = keys.child(place, doc.part(v));
    if own == 129 {
        return false;
    }
    if same_bytes(&doc.src[v.start..v.end], b"T") {
        return false;
    }
    if !keys.is_above(own) {
        return front_legal(doc, e + 1, v.next, n, times);
    }
    if !has_keys(keys, own, doc, e + 1, v.next) {
        return false;
    }
    siblings_legal(keys, own, doc, e + 1, v.next, n, times)
}

// The siblings lo to hi, in an element at the place that stands in the versions `times`, are legal. They are linked by `next`, so no range
// counts them.
#[cycle(element_legal_siblings_legal)]
pub fn siblings_legal(
    keys: &KeyTable,
    place: usize,
    doc: &Document,
    lo: usize,
    hi: usize,
    n: usize,
    times: Timestamp,
) -> bool
    requires { Walk keys.now.text.now keys.now.table.now keys.now.paths place doc.now.src.now doc.now.tape.now lo hi × (n ≤ 999) × Only n (set_of times.words) }
    ensures { OfNodes keys.now.text.now keys.now.table.now keys.now.paths place doc.now.src.now doc.now.tape.now lo hi
        (λ K q f. result ≡ siblings_legal K n q (listed n (set_of times.words)) f) }
{
    let mut p = lo;
    let mut last = hi;
    while p < hi {
        let Some(own) = own_times(doc, p, times) else {
            return false;
        };
        let e = element_at(doc.tape, p);
        if !element_legal(keys, place, doc, e, n, own) {
            return false;
        }
        if !ascends(keys, place, doc, hi, last, e) {
            return false;
        }
        last = e;
        p = doc.view(p).next;
    }
    true
}
