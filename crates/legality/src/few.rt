// A frontier with a few contents: they are compared two by two, with no hashes.
ghost use Rattle.std.specs.Prelude.{◌≡◌, not, ◌&&◌, leb};
ghost use Rattle.xml.specs.Forest.{Forest, end};
ghost use Rattle.xml.specs.Tape.{Tape, Valid};
ghost use Rattle.keys.specs.Legal.{untimed};
ghost use Rattle.timestamp.specs.Set.{set_of, empty_set};
ghost use Rattle.timestamp.specs.Listed.{Only};
ghost use Rattle.versions.specs.Branches.{repeats, judged};
ghost use Rattle.legality.specs.Few.{siblings};

use crate::front::is_untimed;
use crate::times::take_at;
use timestamp::Timestamp;
use xml::compare::same_nodes;
use xml::tape::Document;

// The nodes lo to hi are at most four siblings. They are linked by `next`, so no range counts them.
pub(crate) fn are_few(doc: &Document, lo: usize, hi: usize) -> bool
    requires { Valid doc.now.src.now doc.now.tape.now lo hi }
    ensures { (f : Forest) → Tape doc.now.src.now doc.now.tape.now lo hi f → result ≡ leb (siblings f) 4 }
{
    let mut p = lo;
    let mut k: usize = 0;
    while p < hi {
        if k == 4 {
            return false;
        }
        p = doc.view(p).next;
        k += 1;
    }
    true
}

// The nodes a to e have no `T`, and none of the nodes lo to hi holds the same.
fn is_new(doc: &Document, lo: usize, hi: usize, a: usize, e: usize) -> bool
    requires { Valid doc.now.src.now doc.now.tape.now lo hi × Valid doc.now.src.now doc.now.tape.now a e }
    ensures { (d k : Forest) → Tape doc.now.src.now doc.now.tape.now lo hi d → Tape doc.now.src.now doc.now.tape.now a e k
        → result ≡ (untimed k && not (repeats k d)) }
{
    if !is_untimed(doc, a, e) {
        return false;
    }
    let mut p = lo;
    while p < hi {
        let v = doc.view(p);
        if same_nodes(doc, a, e, doc, p + 1, v.next) {
            return false;
        }
        p = v.next;
    }
    true
}

// The nodes lo to hi are two or more contents, each in a `T`, that share the versions `times`: each takes its own from those that are left.
pub(crate) fn few_legal(doc: &Document, lo: usize, hi: usize, n: usize, times: Timestamp) -> bool
    requires { Valid doc.now.src.now doc.now.tape.now lo hi }
    ensures { (f : Forest) → Tape doc.now.src.now doc.now.tape.now lo hi f → Only n (set_of times.words)
        → result ≡ judged n (set_of times.words) empty_set 0 0 end f }
{
    let mut left = times;
    let mut p = lo;
    let mut count: usize = 0;
    let mut first: usize = 0;
    while p < hi {
        let v = doc.view(p);
        if v.kind != 2 {
            return false;
        }
        let Some(start) = take_at(&mut left, doc.src, v.start, v.end) else {
            return false;
        };
        if start <= first {
            return false;
        }
        if !is_new(doc, lo, p, p + 1, v.next) {
            return false;
        }
        first = start;
        count += 1;
        p = v.next;
    }
    if count < 2 {
        return false;
    }
    left.is_empty()
}
