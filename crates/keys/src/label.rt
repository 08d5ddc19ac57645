// Labels: an element's name and its key values, compared with those of another, which may be of another text.
ghost use Rattle.std.specs.Prelude.{◌≡◌, ◌+◌, ◌≤◌, length};
ghost use Rattle.std.specs.Ordering.{ordering_index};
ghost use Rattle.std.proofs.Math.Seq.{slice};
ghost use Rattle.xml.specs.Forest.{Forest};
ghost use Rattle.xml.specs.Tape.{Tape, Valid};
ghost use Rattle.keys.specs.Version.{called};
ghost use Rattle.keys.specs.Ranks.{rank, compare_bytes};
ghost use Rattle.keys.specs.FindKey.{KeyAt};
ghost use Rattle.keys.specs.Labelled.{KeyedAt, Labelled, Beside, KeysCompared, LabelsCompared, LabelsComparedAt};

use crate::places::KeyTable;
use std::cmp::Ordering;
use xml::compare::same_bytes;
use xml::tape::Document;

// Compares s with t as byte strings, a prefix first.
pub fn compare_bytes(s: &[u8], t: &[u8]) -> Ordering
    ensures { ordering_index result ≡ rank (compare_bytes s.now t.now) }
{
    s.cmp(t)
}

// The first of the nodes lo to hi that is an element with the name, or hi. They are linked by `next`, so no range counts them.
pub fn find_key(name: &[u8], doc: &Document, lo: usize, hi: usize) -> usize
    requires { Valid doc.now.src.now doc.now.tape.now lo hi }
    ensures { (f : Forest) → Tape doc.now.src.now doc.now.tape.now lo hi f
        → KeyAt doc.now.src.now doc.now.tape.now name.now hi result (called name.now f) }
{
    let mut p = lo;
    while p < hi {
        let v = doc.view(p);
        if v.kind == 1 {
            if same_bytes(name, doc.part(v)) {
                return p;
            }
        }
        p = v.next;
    }
    p
}

// Compares the key values of two elements at the place `own`: the nodes lo1 to hi1 of one tape, and lo2 to hi2 of another, are what they hold.
fn compare_keys<'a>(
    keys: &KeyTable,
    own: usize,
    first: &Document<'a>,
    lo1: usize,
    hi1: usize,
    second: &Document<'a>,
    lo2: usize,
    hi2: usize,
) -> Ordering
    requires { KeyedAt keys.now.text.now keys.now.table.now keys.now.paths own first.now.src.now first.now.tape.now lo1 hi1 × KeyedAt keys.now.text.now keys.now.table.now keys.now.paths own second.now.src.now second.now.tape.now lo2 hi2 }
    ensures { KeysCompared keys.now.text.now keys.now.table.now keys.now.paths own first.now.src.now first.now.tape.now lo1 hi1 second.now.src.now second.now.tape.now lo2 hi2 result }
{
    let count = keys.key_count(own);
    for i in 0..count {
        let key = keys.part(keys.key_name(own + 1 + i));
        let x = find_key(key, first, lo1, hi1);
        let y = find_key(key, second, lo2, hi2);
        let v = first.view(x + 1);
        let w = second.view(y + 1);
        let order = compare_bytes(first.part(v), second.part(w));
        if order.is_ne() {
            return order;
        }
    }
    Ordering::Equal
}

// Compares the labels of the elements p1 of one tape and p2 of another, both in an element at the place.
pub fn compare_labels<'a>(
    keys: &KeyTable,
    place: usize,
    first: &Document<'a>,
    p1: usize,
    second: &Document<'a>,
    p2: usize,
) -> Ordering
    requires { Labelled keys.now.text.now keys.now.table.now keys.now.paths place first.now.src.now first.now.tape.now p1 × Labelled keys.now.text.now keys.now.table.now keys.now.paths place second.now.src.now second.now.tape.now p2 }
    ensures { LabelsCompared keys.now.text.now keys.now.table.now keys.now.paths place first.now.src.now first.now.tape.now p1 second.now.src.now second.now.tape.now p2 result }
{
    let v = first.view(p1);
    let w = second.view(p2);
    let names = compare_bytes(first.part(v), second.part(w));
    if names.is_ne() {
        return names;
    }
    let own = keys.child(place, first.part(v));
    compare_keys(keys, own, first, p1 + 1, v.next, second, p2 + 1, w.next)
}

// The same where the place of the first element is known: it is at the place `own`, and the second is in an element of the same path.
pub fn compare_labels_at<'a>(
    keys: &KeyTable,
    own: usize,
    first: &Document<'a>,
    p1: usize,
    second: &Document<'a>,
    p2: usize,
) -> Ordering
    requires { Beside keys.now.text.now keys.now.table.now keys.now.paths own first.now.src.now first.now.tape.now p1 second.now.src.now second.now.tape.now p2 }
    ensures { LabelsComparedAt keys.now.text.now keys.now.table.now keys.now.paths own first.now.src.now first.now.tape.now p1 second.now.src.now second.now.tape.now p2 result }
{
    let v = first.view(p1);
    let w = second.view(p2);
    let names = compare_bytes(first.part(v), second.part(w));
    if names.is_ne() {
        return names;
    }
    compare_keys(keys, own, first, p1 + 1, v.next, second, p2 + 1, w.next)
}
