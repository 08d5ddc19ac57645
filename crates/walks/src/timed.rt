// Writing an archive's `T`s.
ghost use Rattle.std.specs.Prelude.{false, ◌++◌, ◌+◌, ◌*◌, ◌-◌, ◌^◌, ◌<◌, ◌≤◌, length};
ghost use Rattle.std.proofs.Math.Seq.{slice};
ghost use Rattle.xml.specs.Over.{Wrote};
ghost use Rattle.xml.specs.Forest.{Forest, end, stamp, write};
ghost use Rattle.xml.specs.Tape.{Tape, Valid};
ghost use Rattle.xml.specs.TapeLaws.{opening};
ghost use Rattle.timestamp.specs.Set.{set_of};
ghost use Rattle.timestamp.specs.Listed.{text_of};
ghost use Rattle.timestamp.specs.Change.{tail_text};
ghost use Rattle.versions.specs.Walk.{newest};

use timestamp::Timestamp;
use timestamp::change::Change;
use timestamp::write::put_tail;
use xml::tape::Document;
use xml::writer::{put_word, write_at};

// Writes the opening tag of a `T` with this set.
pub fn put_times(set: Timestamp, out: &mut [u8], at: usize) -> usize
    requires { at < 2 ^ 60 }
    ensures { Wrote out.old at (opening false (text_of (set_of set.words))) result out.new × (result ≤ at + 3008) }
{
    let times = put_word(b"<T t=\"", out, at);
    let last = set.put_text(out, times);
    put_word(b"\">", out, last)
}

// Writes the opening tag of a `T` with a set's changed text: the first bytes of the text that begins at a, and the tail for m.
pub fn put_changed(
    change: Change,
    src: &[u8],
    a: usize,
    m: usize,
    out: &mut [u8],
    at: usize,
) -> usize
    requires { (a + change.to ≤ length src.now) × (change.to + length (tail_text change.tail m) ≤ 3000) × (1 ≤ m) × (m ≤ 999) × (at < 2 ^ 60) }
    ensures { Wrote out.old at (opening false (slice a (a + change.to) src.now ++ tail_text change.tail m)) result out.new }
{
    let times = put_word(b"<T t=\"", out, at);
    let tail = put_word(&src[a..a + change.to], out, times);
    let last = put_tail(change.tail, m, out, tail);
    put_word(b"\">", out, last)
}

// Writes the nodes lo to hi in a `T` with this set.
pub fn put_timed(
    set: Timestamp,
    doc: &Document,
    lo: usize,
    hi: usize,
    out: &mut [u8],
    at: usize,
) -> usize
    requires { Valid doc.now.src.now doc.now.tape.now lo hi × (hi ≤ 2 ^ 32) × (at < 2 ^ 59) }
    ensures { ((f : Forest) → Tape doc.now.src.now doc.now.tape.now lo hi f
        → Wrote out.old at (write (stamp (text_of (set_of set.words)) f end)) result out.new) × (result ≤ at + 3012 + 163840 * (hi - lo)) }
{
    let inside = put_times(set, out, at);
    let close = write_at(doc, lo, hi, out, inside);
    put_word(b"</T>", out, close)
}

// Writes the nodes lo to hi as what version n + 1 alone has.
pub fn put_newest(
    n: usize,
    doc: &Document,
    lo: usize,
    hi: usize,
    out: &mut [u8],
    at: usize,
) -> usize
    requires { (n ≤ 998) × Valid doc.now.src.now doc.now.tape.now lo hi × (hi ≤ 2 ^ 32) × (at < 2 ^ 59) }
    ensures { ((f : Forest) → Tape doc.now.src.now doc.now.tape.now lo hi f
        → Wrote out.old at (write (newest n f end)) result out.new) × (result ≤ at + 3012 + 163840 * (hi - lo)) }
{
    let set = Timestamp::empty().with(n + 1);
    put_timed(set, doc, lo, hi, out, at)
}
