// Adding a version to an archive, both on tapes: the archive's siblings and the version's are walked together by their labels.
ghost use Rattle.std.specs.Prelude.{◌≡◌, ℕ, ◌+◌, ◌*◌, ◌-◌, ◌^◌, ◌<◌, ◌≤◌};
ghost use Rattle.std.proofs.Math.Option.{Option};
ghost use Rattle.xml.specs.Bytes.{Bytes};
ghost use Rattle.xml.specs.Forest.{Forest};
ghost use Rattle.xml.specs.Tape.{next_at};
ghost use Rattle.keys.specs.KeyList.{Path, KeyList};
ghost use Rattle.keys.specs.Version.{◌▸◌};
ghost use Rattle.timestamp.specs.Times.{Times};
ghost use Rattle.versions.specs.Walk.{add_forest};
ghost use Rattle.versions.specs.AddParts.{sibling, set_in, both_part, inside};
ghost use Rattle.adding.specs.Growth.{Grew};
ghost use Rattle.versions.specs.AddWalk.{Held, SomeHeld, Both, SomeBoth};
ghost use Rattle.adding.specs.AddWhole.{Adding, SomeAdding};

use crate::content::{Added, write_contents};
use crate::sibling::{close_set, open_set, order_of, own_place, set_of, write_new, write_old};
use keys::places::{KeyTable, Part};
use std::cmp::Ordering;
use timestamp::Timestamp;
use walks::history::element_at;
use walks::timed::{put_newest, put_times};
use xml::tape::Document;
use xml::writer::{least, put_close, put_open, put_word};

// The sibling p, whose element is at the place `own`, and which the version has as its element q, from the start of `out`.
#[cycle(write_added_write_both)]
fn write_both(
    keys: &KeyTable,
    own: usize,
    archive: &Document,
    p: usize,
    version: &Document,
    q: usize,
    n: usize,
    around: Part,
    out: &mut [u8],
) -> Added
    requires { SomeBoth keys.now.text.now keys.now.table.now keys.now.paths own archive.now.src.now archive.now.tape.now p version.now.src.now version.now.tape.now q n around.start around.end × (n ≤ 998)
        × (next_at archive.now.tape.now p ≤ 2 ^ 32) × (next_at version.now.tape.now q ≤ 2 ^ 32) × (262144 * (next_at archive.now.tape.now p - p + (next_at version.now.tape.now q - q)) < 2 ^ 58) }
    ensures { (K : KeyList) (w : Path) (t : Times) (o : Option Bytes) (m : Bytes) (k g : Forest)
        → Both keys.now.text.now keys.now.table.now keys.now.paths own archive.now.src.now archive.now.tape.now p version.now.src.now version.now.tape.now q n around.start around.end K w t o m k g
        → Grew out.old 0 (both_part n o m (inside K n (w ▸ m) (set_in n t o) k g)) (sibling o m k) (next_at version.now.tape.now q - q)
        (262144 * (next_at archive.now.tape.now p - p + (next_at version.now.tape.now q - q))) result out.new }
{
    let e = element_at(archive.tape, p);
    let set = set_of(archive, p, around);
    let v = archive.view(e);
    let w = version.view(q);
    let tag = open_set(archive, p, set, n, out, 0);
    let inside = put_open(true, &archive.src[v.start..v.end], out, tag);
    let x = write_added(
        keys,
        own,
        archive,
        e + 1,
        v.next,
        version,
        q + 1,
        w.next,
        n,
        set,
        out,
        inside,
    );
    let close = put_close(true, &archive.src[v.start..v.end], out, x.at);
    let last = close_set(archive.tape, p, out, close);
    Added {
        at: last,
        fresh: x.fresh,
    }
}

// What an element at the place comes to hold: lo to hi is what it held in the versions `around`, vlo to vhi what it holds in version n + 1.
// The writer of each sibling is lent the output's part from the current place. Both walks go by `next`, so no range counts them.
#[cycle(write_added_write_both)]
pub fn write_added(
    keys: &KeyTable,
    place: usize,
    archive: &Document,
    lo: usize,
    hi: usize,
    version: &Document,
    vlo: usize,
    vhi: usize,
    n: usize,
    around: Part,
    out: &mut [u8],
    at: usize,
) -> Added
    requires { SomeHeld keys.now.text.now keys.now.table.now keys.now.paths place archive.now.src.now archive.now.tape.now lo hi version.now.src.now version.now.tape.now vlo vhi n around.start around.end × (n ≤ 998)
        × (hi ≤ 2 ^ 32) × (vhi ≤ 2 ^ 32) × (at + (262144 * (hi - lo + (vhi - vlo)) + 32768) < 2 ^ 58) }
    ensures { (K : KeyList) (w : Path) (t : Times) (f v : Forest)
        → Held keys.now.text.now keys.now.table.now keys.now.paths place archive.now.src.now archive.now.tape.now lo hi version.now.src.now version.now.tape.now vlo vhi n around.start around.end K w t f v
        → Grew out.old at (inside K n w t f v) f (vhi - vlo) (262144 * (hi - lo + (vhi - vlo)) + 32768) result out.new }
{
    if !keys.is_above(place) {
        return write_contents(archive, lo, hi, version, vlo, vhi, n, around, out, at);
    }
    let mut p = lo;
    let mut q = vlo;
    let mut to = at;
    let mut fresh = 0;
    while p < hi {
        let own = own_place(keys, place, archive, p);
        let from = least(to, out.len());
        match order_of(keys, own, archive, p, version, q, vhi) {
            Ordering::Greater => {
                let w = version.view(q);
                to += put_newest(n, version, q, w.next, &mut out[from..], 0);
                fresh += w.next - q;
                q = w.next;
            }
            Ordering::Less => {
                to += write_old(archive, p, around, &mut out[from..]);
                let v = archive.view(p);
                p = v.next;
            }
            Ordering::Equal => {
                let x = write_both(
                    keys,
                    own,
                    archive,
                    p,
                    version,
                    q,
                    n,
                    around,
                    &mut out[from..],
                );
                let v = archive.view(p);
                let w = version.view(q);
                to += x.at;
                fresh += x.fresh;
                p = v.next;
                q = w.next;
            }
        }
    }
    let last = write_new(version, q, vhi, n, out, to);
    Added {
        at: last,
        fresh: fresh + (vhi - q),
    }
}

// Writes the archive with one version more: the nodes below hi are the archive of n versions, and those below vhi of the other tape the
// version in its order.
pub fn add(
    keys: &KeyTable,
    archive: &Document,
    hi: usize,
    version: &Document,
    vhi: usize,
    n: usize,
    out: &mut [u8],
    at: usize,
) -> Added
    requires { SomeAdding keys.now.text.now keys.now.table.now keys.now.paths archive.now.src.now archive.now.tape.now hi version.now.src.now version.now.tape.now vhi n × (n ≤ 998) × (hi ≤ 2 ^ 32) × (vhi ≤ 2 ^ 32)
        × (at + (262144 * (hi + vhi) + 65536) < 2 ^ 58) }
    ensures { (K : KeyList) (f v : Forest)
        → Adding keys.now.text.now keys.now.table.now keys.now.paths archive.now.src.now archive.now.tape.now hi version.now.src.now version.now.tape.now vhi n K f v
        → Grew out.old at (add_forest K n v f) f vhi (262144 * (hi + vhi) + 65536) result out.new }
{
    let inside = put_times(Timestamp::up_to(n + 1), out, at);
    let v = archive.view(0);
    let around = Part {
        start: v.start,
        end: v.end,
    };
    let x = write_added(
        keys, 128, archive, 1, hi, version, 0, vhi, n, around, out, inside,
    );
    let last = put_word(b"</T>", out, x.at);
    Added {
        at: last,
        fresh: x.fresh,
    }
}
