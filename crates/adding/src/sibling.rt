// A sibling of the archive where a version is added: an element, bare or in a `T` of its own.
ghost use Rattle.std.specs.Prelude.{◌≡◌, List, ℕ, ◌+◌, ◌*◌, ◌-◌, ◌^◌, ◌<◌, ◌≤◌, length};
ghost use Rattle.std.specs.Ordering.{ordering_index};
ghost use Rattle.std.proofs.Math.Option.{Option};
ghost use Rattle.std.proofs.Math.Seq.{slice};
ghost use Rattle.xml.specs.Bytes.{Bytes};
ghost use Rattle.xml.specs.Over.{Wrote};
ghost use Rattle.xml.specs.Forest.{Forest, write};
ghost use Rattle.xml.specs.Tape.{head_at, end_in, next_at, Tape, Valid};
ghost use Rattle.keys.specs.KeyList.{Path, KeyList};
ghost use Rattle.keys.specs.Version.{◌▸◌, label};
ghost use Rattle.keys.specs.Table.{place_of, Table};
ghost use Rattle.keys.specs.Placed.{OfPlace};
ghost use Rattle.keys.specs.Labelled.{Labelled};
ghost use Rattle.timestamp.specs.Times.{Times};
ghost use Rattle.timestamp.specs.Place.{IsSetTo};
ghost use Rattle.versions.specs.Walk.{first_label, add_new};
ghost use Rattle.versions.specs.AddParts.{Says, set_in, old_part, opened, closed, order_of, SetOf, VersionIn, At};
ghost use Rattle.versions.specs.AddWalk.{SomeNext};
ghost use Rattle.versions.specs.HistoryTape.{element_at};

use crate::timed::{put_grown, put_within};
use keys::label::compare_labels_at;
use keys::places::{KeyTable, Part};
use std::cmp::Ordering;
use walks::history::element_at;
use walks::timed::put_newest;
use xml::tape::{Document, view_at};
use xml::writer::{least, put_word, write_at};

// The text of its set, in an element that stands in the versions `around`.
pub fn set_of(archive: &Document, p: usize, around: Part) -> Part
    requires { (2 * p + 1 < length archive.now.tape.now) × (end_in (head_at archive.now.tape.now p) ≤ length archive.now.src.now) }
    ensures { (n : ℕ) (t : Times) (o : Option Bytes) (m : Bytes) (k : Forest) → n ≤ 999 → At archive.now.src.now archive.now.tape.now p o m k
        → SetOf n o → Says n archive.now.src.now around.start around.end t → Says n archive.now.src.now result.start result.end (set_in n t o) }
{
    let v = archive.view(p);
    if v.kind == 2 {
        return Part {
            start: v.start,
            end: v.end,
        };
    }
    around
}

// Writes the opening tag of its `T`, if it has one, with the set of this text and n + 1.
pub fn open_set(
    archive: &Document,
    p: usize,
    set: Part,
    n: usize,
    out: &mut [u8],
    at: usize,
) -> usize
    requires { (2 * p + 1 < length archive.now.tape.now) × (set.start ≤ set.end) × (set.end ≤ length archive.now.src.now) × (set.end - set.start ≤ 3000) × IsSetTo n (slice set.start set.end archive.now.src.now) × (n ≤ 998) × (at < 2 ^ 59) }
    ensures { ((o : Option Bytes) (m : Bytes) (k : Forest) (t : Times) → At archive.now.src.now archive.now.tape.now p o m k → Says n archive.now.src.now set.start set.end t
        → Wrote out.old at (opened t o) result out.new) × (result ≤ at + 3008) }
{
    let v = archive.view(p);
    if v.kind == 2 {
        return put_grown(archive.src, set.start, set.end, n, out, at);
    }
    at
}

// And its closing tag.
pub fn close_set(tape: &[u32], p: usize, out: &mut [u8], at: usize) -> usize
    requires { (2 * p + 1 < length tape.now) × (at < 2 ^ 59) }
    ensures { ((src : List ℕ) (o : Option Bytes) (m : Bytes) (k : Forest) → At src tape.now p o m k
        → Wrote out.old at (closed o) result out.new) × (result ≤ at + 4) }
{
    let v = view_at(tape, p);
    if v.kind == 2 {
        return put_word(b"</T>", out, at);
    }
    at
}

// Writes it from the start of `out` where the version lacks it: it is in a `T` now.
pub fn write_old(archive: &Document, p: usize, around: Part, out: &mut [u8]) -> usize
    requires { (p < next_at archive.now.tape.now p) × Valid archive.now.src.now archive.now.tape.now p (next_at archive.now.tape.now p) × (next_at archive.now.tape.now p ≤ 2 ^ 32) × (around.start ≤ around.end) × (around.end ≤ length archive.now.src.now) × (around.end - around.start ≤ 3000) }
    ensures { ((n : ℕ) (t : Times) (o : Option Bytes) (m : Bytes) (k : Forest) → n ≤ 999 → At archive.now.src.now archive.now.tape.now p o m k
        → Says n archive.now.src.now around.start around.end t → Wrote out.old 0 (write (old_part t o m k)) result out.new)
        × (result ≤ 3012 + 163840 * (next_at archive.now.tape.now p - p)) }
{
    let v = archive.view(p);
    if v.kind == 2 {
        return write_at(archive, p, v.next, out, 0);
    }
    put_within(archive, around.start, around.end, p, v.next, out, 0)
}

// Writes the elements vlo to vhi of the version as what version n + 1 alone has, each into the output's part from the current place. They are
// linked by `next`, so no range counts them.
pub fn write_new(
    version: &Document,
    vlo: usize,
    vhi: usize,
    n: usize,
    out: &mut [u8],
    at: usize,
) -> usize
    requires { (n ≤ 998) × Valid version.now.src.now version.now.tape.now vlo vhi × (vhi ≤ 2 ^ 32) × (at + 262144 * (vhi - vlo) < 2 ^ 59) }
    ensures { ((K : KeyList) (w : Path) (v : Forest) → Tape version.now.src.now version.now.tape.now vlo vhi v → VersionIn K w v
        → Wrote out.old at (write (add_new K n w v)) result out.new) × (result ≤ at + 262144 * (vhi - vlo)) }
{
    let mut q = vlo;
    let mut to = at;
    while q < vhi {
        let w = version.view(q);
        let from = least(to, out.len());
        to += put_newest(n, version, q, w.next, &mut out[from..], 0);
        q = w.next;
    }
    to
}

// The place of its element, in an element at a place.
pub fn own_place(keys: &KeyTable, place: usize, archive: &Document, p: usize) -> usize
    requires { Labelled keys.now.text.now keys.now.table.now keys.now.paths place archive.now.src.now archive.now.tape.now (element_at archive.now.tape.now p) × (2 * p + 1 < length archive.now.tape.now) }
    ensures { OfPlace keys.now.text.now keys.now.table.now keys.now.paths place (λ K w. (o : Option Bytes) (m : Bytes) (k : Forest)
        → At archive.now.src.now archive.now.tape.now p o m k → result ≡ place_of K (w ▸ m)) }
{
    let e = element_at(archive.tape, p);
    let v = archive.view(e);
    keys.child(place, archive.part(v))
}

// How the label of the sibling at p, whose element is at the place `own`, compares with that of the version's next element, q:
// before, also where none is left.
pub fn order_of(
    keys: &KeyTable,
    own: usize,
    archive: &Document,
    p: usize,
    version: &Document,
    q: usize,
    vhi: usize,
) -> Ordering
    requires { SomeNext keys.now.text.now keys.now.table.now keys.now.paths own archive.now.src.now archive.now.tape.now p version.now.src.now version.now.tape.now q vhi }
    ensures { (K : KeyList) (w : Path) → Table keys.now.text.now keys.now.table.now keys.now.paths K → (o : Option Bytes) (m : Bytes) (k v : Forest) → place_of K (w ▸ m) ≡ own
        → At archive.now.src.now archive.now.tape.now p o m k → Tape version.now.src.now version.now.tape.now q vhi v → VersionIn K w v
        → ordering_index result ≡ order_of (label K w m k) (first_label K w v) }
{
    if vhi <= q {
        return Ordering::Less;
    }
    let e = element_at(archive.tape, p);
    compare_labels_at(keys, own, archive, e, version, q)
}
