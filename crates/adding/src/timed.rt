// A `T` of the archive where a version is added: its text is copied, with one version more or as it stands.
ghost use Rattle.std.specs.Prelude.{◌≡◌, Bool, false, ℕ, ◌+◌, ◌*◌, ◌-◌, ◌^◌, ◌<◌, ◌≤◌, length};
ghost use Rattle.std.proofs.Math.Seq.{slice};
ghost use Rattle.xml.specs.Over.{Wrote};
ghost use Rattle.xml.specs.Forest.{Forest, end, stamp, write};
ghost use Rattle.xml.specs.Tape.{Tape, Valid};
ghost use Rattle.xml.specs.TapeLaws.{opening};
ghost use Rattle.timestamp.specs.Set.{adding};
ghost use Rattle.timestamp.specs.Listed.{text_of};
ghost use Rattle.timestamp.specs.Parse.{accepted, parsed};
ghost use Rattle.timestamp.specs.Place.{IsSetTo};

use timestamp::change::grown;
use walks::timed::put_changed;
use xml::tape::Document;
use xml::writer::{put_open, put_word, write_at};

// Writes the opening tag of a `T` with the set of the text src[a..e], of n versions, and n + 1.
pub fn put_grown(src: &[u8], a: usize, e: usize, n: usize, out: &mut [u8], at: usize) -> usize
    requires { (a ≤ e) × (e ≤ length src.now) × (e - a ≤ 3000) × IsSetTo n (slice a e src.now) × (n ≤ 998) × (at < 2 ^ 59) }
    ensures { ((s : ℕ → Bool) → parsed (slice a e src.now) ≡ accepted s
        → Wrote out.old at (opening false (text_of (adding (n + 1) s))) result out.new) × (result ≤ at + 3008) }
{
    let change = grown(&src[a..e], n);
    put_changed(change, src, a, n + 1, out, at)
}

// Writes the nodes lo to hi in such a `T`.
pub fn put_more(
    archive: &Document,
    a: usize,
    e: usize,
    lo: usize,
    hi: usize,
    n: usize,
    out: &mut [u8],
    at: usize,
) -> usize
    requires { (a ≤ e) × (e ≤ length archive.now.src.now) × (e - a ≤ 3000) × IsSetTo n (slice a e archive.now.src.now) × (n ≤ 998) × Valid archive.now.src.now archive.now.tape.now lo hi × (hi ≤ 2 ^ 32) × (at < 2 ^ 59) }
    ensures { ((s : ℕ → Bool) (f : Forest) → parsed (slice a e archive.now.src.now) ≡ accepted s → Tape archive.now.src.now archive.now.tape.now lo hi f
        → Wrote out.old at (write (stamp (text_of (adding (n + 1) s)) f end)) result out.new) × (result ≤ at + 3012 + 163840 * (hi - lo)) }
{
    let inside = put_grown(archive.src, a, e, n, out, at);
    let close = write_at(archive, lo, hi, out, inside);
    put_word(b"</T>", out, close)
}

// Writes the nodes lo to hi in a `T` with the text archive.src[a..e].
pub fn put_within(
    archive: &Document,
    a: usize,
    e: usize,
    lo: usize,
    hi: usize,
    out: &mut [u8],
    at: usize,
) -> usize
    requires { (a ≤ e) × (e ≤ length archive.now.src.now) × (e - a ≤ 3000) × Valid archive.now.src.now archive.now.tape.now lo hi × (hi ≤ 2 ^ 32) × (at < 2 ^ 59) }
    ensures { ((f : Forest) → Tape archive.now.src.now archive.now.tape.now lo hi f
        → Wrote out.old at (write (stamp (slice a e archive.now.src.now) f end)) result out.new) × (result ≤ at + 3012 + 163840 * (hi - lo)) }
{
    let inside = put_open(false, &archive.src[a..e], out, at);
    let close = write_at(archive, lo, hi, out, inside);
    put_word(b"</T>", out, close)
}
