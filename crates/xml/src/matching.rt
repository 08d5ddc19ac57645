// Comparing a text with what its tape is written as: the writer's walk over the nodes, which compares where the writer writes.
// Each function is handed the place where something is to stand, and answers the place after it; or, where it does not stand there, a place
// past the end of the text, where nothing stands.
ghost use Rattle.std.specs.Prelude.{◌≡◌, [], ◌∷◌, ◌+◌, ◌%◌, ◌^◌, ◌<◌, ◌≤◌, length};
ghost use Rattle.std.proofs.Math.Seq.{slice};
ghost use Rattle.xml.specs.Bytes.{same};
ghost use Rattle.xml.specs.Forest.{Forest, escape, write as written};
ghost use Rattle.xml.specs.Matching.{match_at, Matches};
ghost use Rattle.xml.specs.Signs.{spelt};
ghost use Rattle.xml.specs.Tape.{head_at, next_at, Tape, Valid};
ghost use Rattle.xml.specs.TapeLaws.{opening, closing};

use crate::scan::same;
use crate::tape::Document;
use crate::text::{plain_end, sign_at};

// The whole of `word`.
fn match_word(src: &[u8], at: usize, word: &[u8]) -> usize
    requires { (at ≤ length src.now + 1) × (length src.now ≤ 32768) }
    ensures { result ≡ match_at src.now at word.now }
{
    if src.len() < at {
        return at;
    }
    if same(src, at, word) != word.len() {
        return src.len() + 1;
    }
    at + word.len()
}

// The bytes src[a..e]: at their own place nothing is compared.
fn match_part(src: &[u8], at: usize, a: usize, e: usize) -> usize
    requires { (at ≤ length src.now + 1) × (length src.now ≤ 32768) × (a ≤ e) × (e ≤ length src.now) }
    ensures { result ≡ match_at src.now at (slice a e src.now) }
{
    if a == at {
        return e;
    }
    match_word(src, at, &src[a..e])
}

// A byte of text.
fn match_escaped(src: &[u8], at: usize, b: u8) -> usize
    requires { (at ≤ length src.now + 1) × (length src.now ≤ 32768) }
    ensures { result ≡ match_at src.now at (escape (b ∷ [])) }
{
    if b == b'&' {
        return match_word(src, at, b"&amp;");
    }
    if b == b'<' {
        return match_word(src, at, b"&lt;");
    }
    if b == b'>' {
        return match_word(src, at, b"&gt;");
    }
    match_word(src, at, &[b])
}

// The run of text whose raw bytes are src[a..e]: bytes that are written as they stand are compared together.
fn match_text(src: &[u8], at: usize, a: usize, e: usize) -> usize
    requires { (at ≤ length src.now + 1) × (length src.now ≤ 32768) × (a ≤ e) × (e ≤ length src.now) }
    ensures { result ≡ match_at src.now at (spelt (slice a e src.now)) }
{
    let mut i = plain_end(src, a, e);
    let mut to = match_part(src, at, a, i);
    while i < e {
        let s = sign_at(src, i, e);
        to = match_escaped(src, to, s.byte);
        i = plain_end(src, s.next, e);
        to = match_part(src, to, s.next, i);
    }
    to
}

// What stands in the start tag of an element, whose name is src[a..e].
fn match_tag(src: &[u8], at: usize, a: usize, e: usize) -> usize
    requires { (at ≤ length src.now + 1) × (length src.now ≤ 32768) × (a ≤ e) × (e ≤ length src.now) }
    ensures { result ≡ match_at src.now at (slice a e src.now) }
{
    match_part(src, at, a, e)
}

// The opening tag of an element, or of an archive's `T`, whose name or times are src[a..e].
fn match_open(element: bool, src: &[u8], a: usize, e: usize, at: usize) -> usize
    requires { (at ≤ length src.now + 1) × (length src.now ≤ 32768) × (a ≤ e) × (e ≤ length src.now) }
    ensures { result ≡ match_at src.now at (opening element (slice a e src.now)) }
{
    if element {
        let name = match_word(src, at, b"<");
        let last = match_tag(src, name, a, e);
        return match_word(src, last, b">");
    }
    let times = match_word(src, at, b"<T t=\"");
    let last = match_part(src, times, a, e);
    match_word(src, last, b"\">")
}

// Its closing tag.
fn match_close(element: bool, src: &[u8], a: usize, e: usize, at: usize) -> usize
    requires { (at ≤ length src.now + 1) × (length src.now ≤ 32768) × (a ≤ e) × (e ≤ length src.now) }
    ensures { result ≡ match_at src.now at (closing element (slice a e src.now)) }
{
    if element {
        let name = match_word(src, at, b"</");
        let last = match_part(src, name, a, e);
        return match_word(src, last, b">");
    }
    match_word(src, at, b"</T>")
}

// The element p of the tape, or an archive's `T`, with what it holds.
#[cycle(match_content_match_element)]
fn match_element(doc: &Document, p: usize, at: usize) -> usize
    requires { (at ≤ length doc.now.src.now + 1) × (length doc.now.src.now ≤ 32768) × (p < next_at doc.now.tape.now p) × (head_at doc.now.tape.now p % 4 ≡ 0 → ⊥)
        × Valid doc.now.src.now doc.now.tape.now p (next_at doc.now.tape.now p) }
    ensures { Matches doc.now.src.now doc.now.tape.now p (next_at doc.now.tape.now p) at result }
{
    let v = doc.view(p);
    let inside = match_open(v.kind == 1, doc.src, v.start, v.end, at);
    let close = match_content(doc, p + 1, v.next, inside);
    match_close(v.kind == 1, doc.src, v.start, v.end, close)
}

// The nodes lo to hi of the tape, up to the first that does not stand there.
#[cycle(match_content_match_element)]
fn match_content(doc: &Document, lo: usize, hi: usize, at: usize) -> usize
    requires { (at ≤ length doc.now.src.now + 1) × (length doc.now.src.now ≤ 32768) × Valid doc.now.src.now doc.now.tape.now lo hi }
    ensures { Matches doc.now.src.now doc.now.tape.now lo hi at result }
{
    let mut p = lo;
    let mut to = at;
    while p < hi {
        if doc.src.len() < to {
            return to;
        }
        let v = doc.view(p);
        if v.kind == 0 {
            to = match_text(doc.src, to, v.start, v.end);
        } else {
            to = match_element(doc, p, to);
        }
        p = v.next;
    }
    to
}

// Whether a text is exactly what the nodes of its tape are written as.
pub fn matches(doc: &Document, hi: usize) -> bool
    requires { Valid doc.now.src.now doc.now.tape.now 0 hi × (hi ≤ 2 ^ 32) × (length doc.now.src.now ≤ 32768) }
    ensures { (f : Forest) → Tape doc.now.src.now doc.now.tape.now 0 hi f → result ≡ same doc.now.src.now (written f) }
{
    match_content(doc, 0, hi, 0) == doc.src.len()
}
