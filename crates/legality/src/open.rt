// An archive's text opened: read onto the work cells, and judged. The outer `T` is judged first, then what it holds.
ghost use Rattle.std.specs.Prelude.{◌≡◌, ◌≤◌, length};
ghost use Rattle.std.proofs.Math.Seq.{slice};
ghost use Rattle.xml.specs.Forest.{Forest, nodes};
ghost use Rattle.xml.specs.Tape.{Tape, Valid};
ghost use Rattle.keys.specs.KeyList.{KeyList};
ghost use Rattle.keys.specs.Table.{Table};
ghost use Rattle.keys.specs.Loading.{Tabled};
ghost use Rattle.versions.specs.Untimed.{timed_node};
ghost use Rattle.versions.specs.NodeCount.{weight as counted};
ghost use Rattle.versions.specs.OuterTimes.{outer_last};
ghost use Rattle.versions.specs.LegalWhole.{outer_of, inside_legal};
ghost use Rattle.legality.specs.Opened.{Numbered, ReadOn, Judged, Opens, Roomy};

use crate::front::is_timed;
use crate::legal::siblings_legal;
use crate::sizes::all_small;
use crate::times::times_at;
use keys::places::KeyTable;
use keys::refusal::Refusal;
use timestamp::Timestamp;
use xml::reader::read;
use xml::spelling::spelled;
use xml::tape::Document;

// How many nodes a legal archive has, and versions.
#[derive(Clone, Copy)]
pub struct Opened {
    pub nodes: usize,
    pub versions: usize,
}

// A node of this kind, named by src[a..e], counts for one, unless it is a `T` or an element with that name.
fn weight(src: &[u8], kind: u32, a: usize, e: usize) -> usize
    requires { (a ≤ e) × (e ≤ length src.now) }
    ensures { result ≡ counted (timed_node kind (slice a e src.now)) }
{
    if is_timed(src, kind, a, e) {
        return 0;
    }
    1
}

// How many of the nodes lo to hi count.
pub fn count_nodes(doc: &Document, lo: usize, hi: usize) -> usize
    requires { Valid doc.now.src.now doc.now.tape.now lo hi }
    ensures { (f : Forest) → Tape doc.now.src.now doc.now.tape.now lo hi f → result ≡ nodes f }
{
    let mut n = 0;
    for i in lo..hi {
        let v = doc.view(i);
        n += weight(doc.src, v.kind, v.start, v.end);
    }
    n
}

// The n of the versions 1 to n whose text is src[a..e], or 0 if there are none.
fn outer_last(src: &[u8], a: usize, e: usize) -> usize
    requires { (a ≤ e) × (e ≤ length src.now) }
    ensures { result ≡ outer_last (slice a e src.now) }
{
    let Some(set) = times_at(src, a, e) else {
        return 0;
    };
    let Some(gap) = set.complement().next(1) else {
        return 0;
    };
    let n = gap - 1;
    if !set.same(Timestamp::up_to(n)) {
        return 0;
    }
    n
}

// The n of the outer `T` that the nodes 0 to hi are, if they are one.
fn outer_of(doc: &Document, hi: usize) -> Option<usize>
    requires { Valid doc.now.src.now doc.now.tape.now 0 hi }
    ensures { (f : Forest) → Tape doc.now.src.now doc.now.tape.now 0 hi f → Numbered (outer_of f) result }
{
    if hi == 0 {
        return None;
    }
    let v = doc.view(0);
    if v.kind != 2 {
        return None;
    }
    if v.next != hi {
        return None;
    }
    let n = outer_last(doc.src, v.start, v.end);
    if n == 0 {
        return None;
    }
    Some(n)
}

// The nodes 1 to hi are the inside of a legal archive of n versions.
fn inside_legal(keys: &KeyTable, doc: &Document, hi: usize, n: usize) -> bool
    requires { Tabled keys.now.text.now keys.now.table.now keys.now.paths × Valid doc.now.src.now doc.now.tape.now 1 hi × (hi ≤ 16384) × (1 ≤ n) × (n ≤ 999) }
    ensures { (K : KeyList) → Table keys.now.text.now keys.now.table.now keys.now.paths K → (k : Forest)
        → Tape doc.now.src.now doc.now.tape.now 1 hi k → result ≡ inside_legal K n k }
{
    if 1024 < count_nodes(doc, 1, hi) {
        return false;
    }
    let all = Timestamp::up_to(n);
    if !siblings_legal(keys, 128, doc, 1, hi, n, all) {
        return false;
    }
    all_small(doc, 1, hi, n)
}

// The last version of the legal archive that the nodes 0 to hi are, if they are one.
fn legal_whole(keys: &KeyTable, doc: &Document, hi: usize) -> Option<usize>
    requires { Tabled keys.now.text.now keys.now.table.now keys.now.paths × Valid doc.now.src.now doc.now.tape.now 0 hi × (hi ≤ 16384) }
    ensures { Judged keys.now.text.now keys.now.table.now keys.now.paths doc.now.src.now doc.now.tape.now hi result }
{
    let n = outer_of(doc, hi)?;
    if !inside_legal(keys, doc, hi, n) {
        return None;
    }
    Some(n)
}

// Judges an archive's text that was read onto the tape.
fn judge(keys: &KeyTable, doc: &Document, hi: usize) -> Result<Opened, Refusal>
    requires { Tabled keys.now.text.now keys.now.table.now keys.now.paths × ReadOn doc.now.src.now doc.now.tape.now hi }
    ensures { Opens keys.now.text.now keys.now.table.now keys.now.paths doc.now.src.now doc.now.tape.now result }
{
    if !spelled(doc, hi) {
        return Err(Refusal::ArchiveIllegal);
    }
    match legal_whole(keys, doc, hi) {
        Some(n) => Ok(Opened {
            nodes: hi,
            versions: n,
        }),
        None => Err(Refusal::ArchiveIllegal),
    }
}

// Reads an archive's text onto the work cells, and judges it.
pub fn open(keys: &KeyTable, src: &[u8], work: &mut [u32]) -> Result<Opened, Refusal>
    requires { Tabled keys.now.text.now keys.now.table.now keys.now.paths × (length src.now ≤ 32768) × Roomy src.now work.old }
    ensures { Opens keys.now.text.now keys.now.table.now keys.now.paths src.now work.new result }
{
    match read(src, true, work) {
        Ok(hi) => judge(keys, &Document { src, tape: work }, hi),
        Err(_) => Err(Refusal::ArchiveIllegal),
    }
}
