// Refusal 8: a key child that is missing, repeated or illegal. Asked once 6 does not apply.
ghost use Rattle.std.specs.Prelude.{◌≡◌, [], ◌<◌, ◌≤◌, length};
ghost use Rattle.std.proofs.Math.Seq.{slice};
ghost use Rattle.xml.specs.Bytes.{is_value};
ghost use Rattle.xml.specs.Forest.{Forest};
ghost use Rattle.xml.specs.Tape.{next_at, Tape, Valid};
ghost use Rattle.keys.specs.Version.{drop_white, unkeyed, called, is_key_value, is_one_value};
ghost use Rattle.keys.specs.Walks.{Walk, OfNodes, OfVersion};
ghost use Rattle.keys.specs.Strays.{keyless, lacking};

use crate::label::find_key;
use crate::places::KeyTable;
use xml::class::is_name_byte;
use xml::tape::Document;

// A run of text is a key value: 1 to 32 letters, digits, `.`, `-`, `_`.
pub fn is_value(run: &[u8]) -> bool
    ensures { result ≡ is_value run.now }
{
    if run.len() < 1 {
        return false;
    }
    if run.len() > 32 {
        return false;
    }
    run.iter().all(|b| is_name_byte(*b))
}

// The nodes lo to hi are one run of text, which is a key value.
pub fn is_key_value(doc: &Document, lo: usize, hi: usize) -> bool
    requires { Valid doc.now.src.now doc.now.tape.now lo hi }
    ensures { (f : Forest) → Tape doc.now.src.now doc.now.tape.now lo hi f → result ≡ is_key_value f }
{
    if lo == hi {
        return false;
    }
    let v = doc.view(lo);
    if v.kind != 0 {
        return false;
    }
    if v.next != hi {
        return false;
    }
    is_value(doc.part(v))
}

// Of the siblings lo to hi, just one element has the name, and it holds a key value.
pub fn has_key(doc: &Document, lo: usize, hi: usize, name: &[u8]) -> bool
    requires { Valid doc.now.src.now doc.now.tape.now lo hi }
    ensures { (f : Forest) → Tape doc.now.src.now doc.now.tape.now lo hi f → result ≡ is_one_value (called name.now f) }
{
    let p = find_key(name, doc, lo, hi);
    if p == hi {
        return false;
    }
    let v = doc.view(p);
    if find_key(name, doc, v.next, hi) != hi {
        return false;
    }
    is_key_value(doc, p + 1, v.next)
}

// An element at a place, which holds the nodes lo to hi, has not each key child just once with a value.
fn lacks_key(keys: &KeyTable, place: usize, doc: &Document, lo: usize, hi: usize) -> bool
    requires { Walk keys.now.text.now keys.now.table.now keys.now.paths place doc.now.src.now doc.now.tape.now lo hi }
    ensures { OfNodes keys.now.text.now keys.now.table.now keys.now.paths place doc.now.src.now doc.now.tape.now lo hi (λ K p f. result ≡ lacking K p f) }
{
    let count = keys.key_count(place);
    for j in 0..count {
        let name = keys.part(keys.key_name(place + 1 + j));
        if !has_key(doc, lo, hi, name) {
            return true;
        }
    }
    false
}

// In the node p, in an element at a place, a key child is missing, repeated or illegal.
#[cycle(unkeyed_content_unkeyed_node)]
fn unkeyed_node(keys: &KeyTable, place: usize, doc: &Document, p: usize) -> bool
    requires { (p < next_at doc.now.tape.now p) × Walk keys.now.text.now keys.now.table.now keys.now.paths place doc.now.src.now doc.now.tape.now p (next_at doc.now.tape.now p) }
    ensures { OfNodes keys.now.text.now keys.now.table.now keys.now.paths place doc.now.src.now doc.now.tape.now p (next_at doc.now.tape.now p)
        (λ K q f. result ≡ keyless K q f) }
{
    let v = doc.view(p);
    if v.kind != 1 {
        return false;
    }
    let below = keys.child(place, doc.part(v));
    if lacks_key(keys, below, doc, p + 1, v.next) {
        return true;
    }
    if !keys.is_above(below) {
        return false;
    }
    unkeyed_content(keys, below, doc, p + 1, v.next)
}

// In the nodes lo to hi, in an element at a place, a key child is missing, repeated or illegal. They are linked by `next`, so no range counts them.
#[cycle(unkeyed_content_unkeyed_node)]
fn unkeyed_content(keys: &KeyTable, place: usize, doc: &Document, lo: usize, hi: usize) -> bool
    requires { Walk keys.now.text.now keys.now.table.now keys.now.paths place doc.now.src.now doc.now.tape.now lo hi }
    ensures { OfNodes keys.now.text.now keys.now.table.now keys.now.paths place doc.now.src.now doc.now.tape.now lo hi (λ K q f. result ≡ keyless K q f) }
{
    let mut p = lo;
    while p < hi {
        if unkeyed_node(keys, place, doc, p) {
            return true;
        }
        p = doc.view(p).next;
    }
    false
}

// 8, of the version with these nodes.
pub fn is_unkeyed(keys: &KeyTable, doc: &Document, count: usize) -> bool
    requires { Walk keys.now.text.now keys.now.table.now keys.now.paths 128 doc.now.src.now doc.now.tape.now 0 count }
    ensures { OfVersion keys.now.text.now keys.now.table.now keys.now.paths doc.now.src.now doc.now.tape.now count
        (λ K f. result ≡ unkeyed K [] (drop_white K [] f)) }
{
    unkeyed_content(keys, 128, doc, 0, count)
}
