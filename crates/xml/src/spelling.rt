// Whether a text is spelled as it is written: no white space around the root, no `<a/>`, no bare `>` in text, no `&quot;` or `&apos;`, no CR.
// Counts tell it, and a count has no branches: the compiler makes vector instructions of a block's loop.
ghost use Rattle.std.specs.Prelude.{◌≡◌, Bool, ◌||◌, ◌+◌, ◌*◌, ◌≤◌, length, drop};
ghost use Rattle.xml.specs.Bytes.{same};
ghost use Rattle.xml.specs.Forest.{Forest, write as written};
ghost use Rattle.xml.specs.Read.{read, whole};
ghost use Rattle.xml.specs.Tape.{Tape, Valid};
ghost use Rattle.xml.specs.Neat.{count, is_other, others, tags_below};

use crate::class::is_white_byte;
use crate::scan::byte_at;
use crate::tape::Document;

// How many of the nodes below hi are no runs of text.
fn count_tags(tape: &[u32], hi: usize) -> usize
    requires { 2 * hi ≤ length tape.now }
    ensures { (result ≡ tags_below tape.now hi) × (result ≤ hi) }
{
    let mut n = 0;
    for i in 0..hi {
        n += if tape[2 * i] % 4 == 0 { 0 } else { 1 };
    }
    n
}

// How many of the 128 bytes from a place on are b.
fn count_block(src: &[u8], b: u8, at: usize) -> u8
    requires { at + 128 ≤ length src.now }
    ensures { count b (drop at src.now) ≡ result + count b (drop (at + 128) src.now) }
{
    let mut n = 0;
    for i in 0..128 {
        n += if src[at + i] == b { 1 } else { 0 };
    }
    n
}

// How many of the bytes from a place on are b.
fn count_rest(src: &[u8], b: u8, at: usize) -> usize
    ensures { result ≡ count b (drop at src.now) }
{
    let mut n = 0;
    for i in at..src.len() {
        n += if src[i] == b { 1 } else { 0 };
    }
    n
}

// How many bytes of the text are b.
fn count_of(src: &[u8], b: u8) -> usize
    ensures { result ≡ count b src.now }
{
    let mut n = 0;
    let mut i = 0;
    while 128 <= src.len() - i {
        n += count_block(src, b, i) as usize;
        i += 128;
    }
    n + count_rest(src, b, i)
}

// What is never written: `&` with `q` or `ap` after it, which is `&quot;` or `&apos;`, and CR.
fn is_other(a: u8, b: u8, c: u8) -> bool
    ensures { result ≡ is_other a b c }
{
    ((a == b'&') & ((b == b'q') | ((b == b'a') & (c == b'p')))) | (a == b'\r')
}

// Whether one of the 64 bytes from a place on is such a one.
fn has_other_block(src: &[u8], at: usize) -> bool
    requires { at + 66 ≤ length src.now }
    ensures { others (drop at src.now) ≡ (result || others (drop (at + 64) src.now)) }
{
    let mut odd = false;
    for i in 0..64 {
        odd = odd | is_other(src[at + i], src[at + i + 1], src[at + i + 2]);
    }
    odd
}

// Whether one of the bytes from a place on is such a one.
fn has_other_rest(src: &[u8], at: usize) -> bool
    requires { length src.now ≤ 32768 }
    ensures { result ≡ others (drop at src.now) }
{
    for i in at..src.len() {
        if is_other(src[i], byte_at(src, i + 1), byte_at(src, i + 2)) {
            return true;
        }
    }
    false
}

// Whether a byte of the text is such a one.
fn has_other(src: &[u8]) -> bool
    requires { length src.now ≤ 32768 }
    ensures { result ≡ others src.now }
{
    let mut i = 0;
    while 66 <= src.len() - i {
        if has_other_block(src, i) {
            return true;
        }
        i += 64;
    }
    has_other_rest(src, i)
}

// Whether a text that was read onto the tape is spelled exactly as its forest is written.
pub fn spelled(doc: &Document, hi: usize) -> bool
    requires { Valid doc.now.src.now doc.now.tape.now 0 hi × (length doc.now.src.now ≤ 32768) }
    ensures { (a : Bool) (f : Forest) → read a doc.now.src.now ≡ whole f → Tape doc.now.src.now doc.now.tape.now 0 hi f
        → result ≡ same doc.now.src.now (written f) }
{
    let src = doc.src;
    if src.len() == 0 {
        return false;
    }
    if is_white_byte(src[0]) {
        return false;
    }
    if is_white_byte(src[src.len() - 1]) {
        return false;
    }
    let tags = count_tags(doc.tape, hi);
    if count_of(src, b'<') != 2 * tags {
        return false;
    }
    if count_of(src, b'>') != 2 * tags {
        return false;
    }
    !has_other(src)
}
