// Writing a tape's nodes. A writer is handed the output and the place to write at, which may lie past the output's end: it writes what
// fits, and answers the place after all of it. So an empty output measures.
ghost use Rattle.std.specs.Prelude.{◌≡◌, [], ◌∷◌, ℕ, ◌+◌, ◌-◌, ◌%◌, ◌^◌, ◌<◌, ◌≤◌, min, length};
ghost use Rattle.xml.specs.Over.{over, over_at, Wrote};
ghost use Rattle.xml.specs.Forest.{Forest, escape, write as written};
ghost use Rattle.xml.specs.Signs.{spelt};
ghost use Rattle.xml.specs.Tape.{head_at, next_at, Tape, Valid, Writes};
ghost use Rattle.xml.specs.TapeLaws.{opening, closing};
ghost use Rattle.xml.specs.WriteLaws.{Fit};

use crate::tape::{Document, is_run};
use crate::text::{plain_end, sign_at};

// The lesser of two numbers.
pub fn least(a: usize, b: usize) -> usize
    ensures { result ≡ min a b }
{
    if a < b {
        return a;
    }
    b
}

// Writes one byte.
pub fn put(b: u8, out: &mut [u8], at: usize) -> usize
    requires { at < 2 ^ 63 }
    ensures { Wrote out.old at (b ∷ []) result out.new }
{
    if at < out.len() {
        out[at] = b;
    }
    at + 1
}

// Copies `word` into `out` from a place on, where all of it fits. Byte by byte, which the compiler makes a call of memcpy: `copy_from_slice`
// would ask C's library for memmove.
fn copy(word: &[u8], out: &mut [u8], from: usize)
    requires { from + length word.now ≤ length out.old }
    ensures { out.new ≡ over_at out.old from word.now }
{
    for i in 0..word.len() {
        out[from + i] = word[i];
    }
}

// Writes the bytes of `word` as they stand: most often all of them fit, and the compiler knows how many they are.
pub fn put_word(word: &[u8], out: &mut [u8], at: usize) -> usize
    requires { (length word.now ≤ 32768) × (at < 2 ^ 62) }
    ensures { Wrote out.old at word.now result out.new }
{
    if at + word.len() <= out.len() {
        copy(word, out, at);
    } else if at < out.len() {
        copy(&word[..out.len() - at], out, at);
    }
    at + word.len()
}

// Writes a byte of text.
pub fn put_escaped(b: u8, out: &mut [u8], at: usize) -> usize
    requires { at < 2 ^ 62 }
    ensures { Wrote out.old at (escape (b ∷ [])) result out.new }
{
    if b == b'&' {
        return put_word(b"&amp;", out, at);
    }
    if b == b'<' {
        return put_word(b"&lt;", out, at);
    }
    if b == b'>' {
        return put_word(b"&gt;", out, at);
    }
    put(b, out, at)
}

// Writes a run of text from its raw bytes: those that are written as they stand are copied together.
pub fn put_text(part: &[u8], out: &mut [u8], at: usize) -> usize
    requires { (length part.now ≤ 32768) × (at < 2 ^ 61) }
    ensures { Wrote out.old at (spelt part.now) result out.new }
{
    let mut i = plain_end(part, 0, part.len());
    let mut to = put_word(&part[..i], out, at);
    while i < part.len() {
        let s = sign_at(part, i, part.len());
        to = put_escaped(s.byte, out, to);
        i = plain_end(part, s.next, part.len());
        to = put_word(&part[s.next..i], out, to);
    }
    to
}

// Writes the opening tag of an element, or of an archive's `T`, with its name or its times.
pub fn put_open(element: bool, name: &[u8], out: &mut [u8], at: usize) -> usize
    requires { (length name.now ≤ 32768) × (at < 2 ^ 61) }
    ensures { Wrote out.old at (opening element name.now) result out.new }
{
    if element {
        let inner = put_word(b"<", out, at);
        let last = put_word(name, out, inner);
        return put_word(b">", out, last);
    }
    let times = put_word(b"<T t=\"", out, at);
    let last = put_word(name, out, times);
    put_word(b"\">", out, last)
}

// Writes its closing tag.
pub fn put_close(element: bool, name: &[u8], out: &mut [u8], at: usize) -> usize
    requires { (length name.now ≤ 32768) × (at < 2 ^ 61) }
    ensures { Wrote out.old at (closing element name.now) result out.new }
{
    if element {
        let inner = put_word(b"</", out, at);
        let last = put_word(name, out, inner);
        return put_word(b">", out, last);
    }
    put_word(b"</T>", out, at)
}

// Writes the element p of the tape, or an archive's `T`, with what it holds, from the start of `out`. One run of text alone is written
// without a call for the content.
#[cycle(write_content_write_element)]
fn write_element(doc: &Document, p: usize, out: &mut [u8]) -> usize
    requires { (p < next_at doc.now.tape.now p) × (head_at doc.now.tape.now p % 4 ≡ 0 → ⊥)
        × Fit doc.now.src.now doc.now.tape.now p (next_at doc.now.tape.now p) 0 }
    ensures { Writes doc.now.src.now doc.now.tape.now p (next_at doc.now.tape.now p) out.old 0 result out.new }
{
    let v = doc.view(p);
    let name = doc.part(v);
    let inside = put_open(v.kind == 1, name, out, 0);
    if is_run(doc.tape, p + 1, v.next) {
        let w = doc.view(p + 1);
        let after = put_text(doc.part(w), out, inside);
        return put_close(v.kind == 1, name, out, after);
    }
    let close = write_content(doc, p + 1, v.next, out, inside);
    put_close(v.kind == 1, name, out, close)
}

// Writes the nodes lo to hi of the tape. The writer of each element, or `T`, is lent the output's part from the current place.
#[cycle(write_content_write_element)]
fn write_content(doc: &Document, lo: usize, hi: usize, out: &mut [u8], at: usize) -> usize
    requires { Fit doc.now.src.now doc.now.tape.now lo hi at }
    ensures { Writes doc.now.src.now doc.now.tape.now lo hi out.old at result out.new }
{
    let mut p = lo;
    let mut to = at;
    while p < hi {
        let v = doc.view(p);
        if v.kind == 0 {
            to = put_text(doc.part(v), out, to);
        } else {
            let from = least(to, out.len());
            to += write_element(doc, p, &mut out[from..]);
        }
        p = v.next;
    }
    to
}

// Writes the nodes lo to hi of the tape from the place `at`.
pub fn write_at(doc: &Document, lo: usize, hi: usize, out: &mut [u8], at: usize) -> usize
    requires { Valid doc.now.src.now doc.now.tape.now lo hi × (hi ≤ 2 ^ 32) × (at < 2 ^ 60) }
    ensures { Writes doc.now.src.now doc.now.tape.now lo hi out.old at result out.new }
{
    write_content(doc, lo, hi, out, at)
}

// Writes the nodes lo to hi of the tape from the start of `out`, as far as they fit, and answers how long they are.
pub fn write(doc: &Document, lo: usize, hi: usize, out: &mut [u8]) -> usize
    requires { Valid doc.now.src.now doc.now.tape.now lo hi × (hi ≤ 2 ^ 32) }
    ensures { (f : Forest) → Tape doc.now.src.now doc.now.tape.now lo hi f
        → (result ≡ length (written f)) × (out.new ≡ over out.old (written f)) }
{
    write_content(doc, lo, hi, out, 0)
}
