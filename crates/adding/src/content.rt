// Adding a version's content to what a frontier of the archive holds.
ghost use Rattle.std.specs.Prelude.{◌≡◌, true, ◌&&◌, ℕ, ◌+◌, ◌*◌, ◌-◌, ◌%◌, ◌^◌, ◌<◌, ◌≤◌, eqb, ltb, length};
ghost use Rattle.xml.specs.Forest.{Forest};
ghost use Rattle.xml.specs.Tape.{head_at, Tape, Valid};
ghost use Rattle.keys.specs.Legal.{untimed};
ghost use Rattle.timestamp.specs.Times.{Times};
ghost use Rattle.versions.specs.Walk.{add_branch, add_bare, add_content};
ghost use Rattle.versions.specs.AddParts.{Says, BranchesIn, FrontIn};
ghost use Rattle.versions.specs.AddFront.{SomeBranches, SomeFront};
ghost use Rattle.adding.specs.Growth.{Grew};

use crate::timed::{put_more, put_within};
use keys::places::Part;
use walks::timed::put_newest;
use xml::compare::same_nodes;
use xml::tape::{Document, view_at};
use xml::writer::write_at;

// The place after what was written, and how many nodes the version brought that the archive lacked.
#[derive(Clone, Copy)]
pub struct Added {
    pub at: usize,
    pub fresh: usize,
}

// Contents in their `T`s, lo to hi: the one that is the version's gains n + 1, or the version's comes last. They are linked by `next`, so no
// range counts them.
fn write_branches(
    archive: &Document,
    lo: usize,
    hi: usize,
    version: &Document,
    vlo: usize,
    vhi: usize,
    n: usize,
    out: &mut [u8],
    at: usize,
) -> Added
    requires { SomeBranches n archive.now.src.now archive.now.tape.now lo hi × Valid version.now.src.now version.now.tape.now vlo vhi × (n ≤ 998) × (hi ≤ 2 ^ 32) × (vhi ≤ 2 ^ 32) × (at < 2 ^ 58) }
    ensures { (f v : Forest) → Tape archive.now.src.now archive.now.tape.now lo hi f → Tape version.now.src.now version.now.tape.now vlo vhi v
        → BranchesIn n f → untimed v ≡ true
        → Grew out.old at (add_branch n v f) f (vhi - vlo) (262144 * (hi - lo + (vhi - vlo)) + 32768) result out.new }
{
    let mut p = lo;
    let mut to = at;
    while p < hi {
        let v = archive.view(p);
        // Each is lent again, since same_nodes asks for one lifetime.
        if same_nodes(&*version, vlo, vhi, &*archive, p + 1, v.next) {
            let rest = put_more(archive, v.start, v.end, p + 1, v.next, n, out, to);
            let last = write_at(archive, v.next, hi, out, rest);
            return Added { at: last, fresh: 0 };
        }
        to = write_at(archive, p, v.next, out, to);
        p = v.next;
    }
    let last = put_newest(n, version, vlo, vhi, out, to);
    Added {
        at: last,
        fresh: vhi - vlo,
    }
}

// One content, lo to hi, which stood in the versions `around`: it stays, or is in a `T` beside the version's.
fn write_bare(
    archive: &Document,
    lo: usize,
    hi: usize,
    version: &Document,
    vlo: usize,
    vhi: usize,
    n: usize,
    around: Part,
    out: &mut [u8],
    at: usize,
) -> Added
    requires { Valid archive.now.src.now archive.now.tape.now lo hi × (around.start ≤ around.end) × (around.end ≤ length archive.now.src.now) × (around.end - around.start ≤ 3000) × Valid version.now.src.now version.now.tape.now vlo vhi × (n ≤ 998) × (hi ≤ 2 ^ 32) × (vhi ≤ 2 ^ 32) × (at < 2 ^ 58) }
    ensures { (t : Times) (f v : Forest) → Tape archive.now.src.now archive.now.tape.now lo hi f → Tape version.now.src.now version.now.tape.now vlo vhi v
        → untimed v ≡ true → Says n archive.now.src.now around.start around.end t
        → Grew out.old at (add_bare n t v f) f (vhi - vlo) (262144 * (hi - lo + (vhi - vlo)) + 32768) result out.new }
{
    if same_nodes(version, vlo, vhi, archive, lo, hi) {
        let last = write_at(archive, lo, hi, out, at);
        return Added { at: last, fresh: 0 };
    }
    let to = put_within(archive, around.start, around.end, lo, hi, out, at);
    let last = put_newest(n, version, vlo, vhi, out, to);
    Added {
        at: last,
        fresh: vhi - vlo,
    }
}

// The nodes lo to hi begin with a `T`.
fn is_branched(tape: &[u32], lo: usize, hi: usize) -> bool
    requires { lo < hi → 2 * lo + 1 < length tape.now }
    ensures { result ≡ (ltb lo hi && eqb (head_at tape.now lo % 4) 2) }
{
    if hi <= lo {
        return false;
    }
    view_at(tape, lo).kind == 2
}

// What a frontier comes to hold: lo to hi is what it held in the versions `around`, vlo to vhi what it holds in version n + 1.
pub fn write_contents(
    archive: &Document,
    lo: usize,
    hi: usize,
    version: &Document,
    vlo: usize,
    vhi: usize,
    n: usize,
    around: Part,
    out: &mut [u8],
    at: usize,
) -> Added
    requires { SomeFront n archive.now.src.now archive.now.tape.now lo hi × (around.start ≤ around.end) × (around.end ≤ length archive.now.src.now) × (around.end - around.start ≤ 3000) × Valid version.now.src.now version.now.tape.now vlo vhi × (n ≤ 998) × (hi ≤ 2 ^ 32) × (vhi ≤ 2 ^ 32) × (at < 2 ^ 58) }
    ensures { (t : Times) (f v : Forest) → Tape archive.now.src.now archive.now.tape.now lo hi f → Tape version.now.src.now version.now.tape.now vlo vhi v
        → FrontIn n f → untimed v ≡ true → Says n archive.now.src.now around.start around.end t
        → Grew out.old at (add_content n t v f) f (vhi - vlo) (262144 * (hi - lo + (vhi - vlo)) + 32768) result out.new }
{
    if is_branched(archive.tape, lo, hi) {
        return write_branches(archive, lo, hi, version, vlo, vhi, n, out, at);
    }
    write_bare(archive, lo, hi, version, vlo, vhi, n, around, out, at)
}
