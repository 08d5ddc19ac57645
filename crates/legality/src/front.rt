// What a frontier holds: one content, or two or more that share its versions.
ghost use Rattle.std.specs.Prelude.{◌≡◌, not, ◌&&◌, ◌%◌, ◌≤◌, length};
ghost use Rattle.std.proofs.Math.Seq.{slice};
ghost use Rattle.xml.specs.Forest.{Forest, end, same_forest};
ghost use Rattle.xml.specs.Tape.{Tape, Valid};
ghost use Rattle.keys.specs.Legal.{untimed};
ghost use Rattle.timestamp.specs.Times.{Times};
ghost use Rattle.timestamp.specs.Set.{set_of, empty_set, adding};
ghost use Rattle.timestamp.specs.Listed.{listed, Only};
ghost use Rattle.versions.specs.Walk.{front_legal};
ghost use Rattle.versions.specs.Untimed.{timed_node};
ghost use Rattle.versions.specs.Branches.{repeats, judged};
ghost use Rattle.versions.specs.Hashes.{HashOf, Notes};
ghost use Rattle.legality.specs.Seen.{is_seen, Seen};

use crate::few::{are_few, few_legal};
use crate::hash::hash;
use crate::times::take_at;
use timestamp::Timestamp;
use xml::compare::{same_bytes, same_nodes};
use xml::tape::Document;

// A node of this kind, named by src[a..e], is a `T` or an element with that name.
pub fn is_timed(src: &[u8], kind: u32, a: usize, e: usize) -> bool
    requires { (a ≤ e) × (e ≤ length src.now) }
    ensures { result ≡ timed_node kind (slice a e src.now) }
{
    if kind == 2 {
        return true;
    }
    if kind == 1 {
        return same_bytes(&src[a..e], b"T");
    }
    false
}

// No node lo to hi is one.
pub fn is_untimed(doc: &Document, lo: usize, hi: usize) -> bool
    requires { Valid doc.now.src.now doc.now.tape.now lo hi }
    ensures { (f : Forest) → Tape doc.now.src.now doc.now.tape.now lo hi f → result ≡ untimed f }
{
    for i in lo..hi {
        let v = doc.view(i);
        if is_timed(doc.src, v.kind, v.start, v.end) {
            return false;
        }
    }
    true
}

// The nodes a to e, with the hash h, are the nodes lo to hi, with the hash x.
fn same_content(doc: &Document, a: usize, e: usize, h: u16, lo: usize, hi: usize, x: u16) -> bool
    requires { Valid doc.now.src.now doc.now.tape.now a e × Valid doc.now.src.now doc.now.tape.now lo hi × HashOf doc.now.src.now doc.now.tape.now a e h × HashOf doc.now.src.now doc.now.tape.now lo hi x }
    ensures { (k g : Forest) → Tape doc.now.src.now doc.now.tape.now a e k → Tape doc.now.src.now doc.now.tape.now lo hi g
        → result ≡ same_forest k g }
{
    if x != h {
        return false;
    }
    same_nodes(doc, a, e, doc, lo, hi)
}

// The nodes a to e, with the hash h, are what one of the nodes lo to hi holds; the hashes of what those hold are the first of `hashes`.
// The nodes are linked by `next`, so no range counts them.
fn is_repeated(
    doc: &Document,
    lo: usize,
    hi: usize,
    a: usize,
    e: usize,
    hashes: &[u16],
    h: u16,
) -> bool
    requires { Valid doc.now.src.now doc.now.tape.now lo hi × Valid doc.now.src.now doc.now.tape.now a e × HashOf doc.now.src.now doc.now.tape.now a e h
        × Notes doc.now.src.now doc.now.tape.now lo hi hashes.now 0 }
    ensures { (d k : Forest) → Tape doc.now.src.now doc.now.tape.now lo hi d → Tape doc.now.src.now doc.now.tape.now a e k
        → result ≡ repeats k d }
{
    let mut p = lo;
    let mut j = 0usize;
    while p < hi {
        let v = doc.view(p);
        let x = hashes[j];
        if same_content(doc, a, e, h, p + 1, v.next, x) {
            return true;
        }
        p = v.next;
        j += 1;
    }
    false
}

// The bit of the hash h is set in the table `seen`, which has one for each remainder of a hash by 16,384.
fn is_seen(seen: &[u64; 256], h: u16) -> bool
    ensures { result ≡ is_seen seen.now h }
{
    let v = (h % 16384) as usize;
    (seen[v / 64] >> (v % 64)) % 2 == 1
}

// Sets the bit of the hash h in the table.
fn set_seen(seen: &mut [u64; 256], h: u16)
    requires { length seen.old ≡ 256 }
    ensures { (set_of seen.new ≡ adding (h % 16384) (set_of seen.old)) × (length seen.new ≡ 256) }
{
    let v = (h % 16384) as usize;
    let k = v / 64;
    seen[k] = (1u64 << (v % 64)) | seen[k];
}

// The nodes a to e, with the hash h, have no `T`, and none of the nodes lo to hi holds the same; the hashes of what those hold are set in `seen`.
fn content_legal(
    doc: &Document,
    lo: usize,
    hi: usize,
    a: usize,
    e: usize,
    hashes: &[u16],
    seen: &[u64; 256],
    h: u16,
) -> bool
    requires { Valid doc.now.src.now doc.now.tape.now lo hi × Valid doc.now.src.now doc.now.tape.now a e × HashOf doc.now.src.now doc.now.tape.now a e h
        × Notes doc.now.src.now doc.now.tape.now lo hi hashes.now 0 × Seen doc.now.src.now doc.now.tape.now lo hi seen.now }
    ensures { (d k : Forest) → Tape doc.now.src.now doc.now.tape.now lo hi d → Tape doc.now.src.now doc.now.tape.now a e k
        → result ≡ (untimed k && not (repeats k d)) }
{
    if !is_untimed(doc, a, e) {
        return false;
    }
    if !is_seen(seen, h) {
        return true;
    }
    !is_repeated(doc, lo, hi, a, e, hashes, h)
}

// The nodes lo to hi are two or more contents, each in a `T`, that share the versions `times`: each takes its own from those that are left.
fn branches_legal(doc: &Document, lo: usize, hi: usize, n: usize, times: Timestamp) -> bool
    requires { Valid doc.now.src.now doc.now.tape.now lo hi }
    ensures { (f : Forest) → Tape doc.now.src.now doc.now.tape.now lo hi f → Only n (set_of times.words)
        → result ≡ judged n (set_of times.words) empty_set 0 0 end f }
{
    let mut left = times;
    let mut p = lo;
    let mut count = 0usize;
    let mut first = 0usize;
    let mut hashes = [0u16; 1000];
    let mut seen = [0u64; 256];
    while p < hi {
        let v = doc.view(p);
        if v.kind != 2 {
            return false;
        }
        let Some(start) = take_at(&mut left, doc.src, v.start, v.end) else {
            return false;
        };
        if start <= first {
            return false;
        }
        let h = hash(doc, p + 1, v.next) as u16;
        if !content_legal(doc, lo, p, p + 1, v.next, &hashes, &seen, h) {
            return false;
        }
        hashes[count] = h;
        set_seen(&mut seen, h);
        first = start;
        count += 1;
        p = v.next;
    }
    if count < 2 {
        return false;
    }
    left.is_empty()
}

// What a frontier that stands in the versions `times` holds.
pub fn front_legal(doc: &Document, lo: usize, hi: usize, n: usize, times: Timestamp) -> bool
    requires { Valid doc.now.src.now doc.now.tape.now lo hi × (n ≤ 999) }
    ensures { (f : Forest) (t : Times) → Tape doc.now.src.now doc.now.tape.now lo hi f → Only n (set_of times.words)
        → listed n (set_of times.words) ≡ t → result ≡ front_legal n t f }
{
    if hi <= lo {
        return true;
    }
    let v = doc.view(lo);
    if v.kind == 2 {
        if are_few(doc, lo, hi) {
            return few_legal(doc, lo, hi, n, times);
        }
        return branches_legal(doc, lo, hi, n, times);
    }
    is_untimed(doc, lo, hi)
}
