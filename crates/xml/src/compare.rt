// Comparing: the bytes of two parts, what two runs of text mean, and two parts of tapes as forests; and tests of one run.
ghost use Rattle.std.specs.Prelude.{◌≡◌, Bool, true, false, ℕ, ◌+◌, ◌-◌, ◌<◌, ◌≤◌, length};
ghost use Rattle.std.proofs.Math.Seq.{slice};
ghost use Rattle.xml.specs.Alike.{is_unlike, Alike, Onward};
ghost use Rattle.xml.specs.Bytes.{all, same, is_white};
ghost use Rattle.xml.specs.Read.{unescape};
ghost use Rattle.xml.specs.Forest.{Forest, same_forest};
ghost use Rattle.xml.specs.Signs.{spelt};
ghost use Rattle.xml.specs.SameTapes.{Parts, meaning};
ghost use Rattle.xml.specs.Tape.{Tape, Valid};

use crate::class::is_white_byte;
use crate::tape::Document;
use crate::text::{plain_end, sign_at};
use crate::writer::{least, put_text};

// Two parts are the same bytes: names, mostly, which are short, so that this loop is faster than `==`.
pub fn same_bytes(a: &[u8], b: &[u8]) -> bool
    ensures { result ≡ same a.now b.now }
{
    if a.len() != b.len() {
        return false;
    }
    for i in 0..a.len() {
        if a[i] != b[i] {
            return false;
        }
    }
    true
}

// A byte of one text that is not the other's, or begins an entity or a line end; told without a branch.
fn is_unlike(x: u8, y: u8) -> bool
    ensures { result ≡ is_unlike x y }
{
    (x != y) | (x == b'&') | (x == b'\r')
}

// Whether one of sixteen bytes is unlike; without a branch, so that they are compared at once.
fn has_unlike(src1: &[u8], i: usize, src2: &[u8], j: usize) -> bool
    requires { (i + 16 ≤ length src1.now) × (j + 16 ≤ length src2.now) }
    ensures { result ≡ false → Alike src1.now i src2.now j 16 }
{
    let mut hit = false;
    for k in 0..16 {
        hit = hit | is_unlike(src1[i + k], src2[j + k]);
    }
    hit
}

// A number of bytes, at most `count`, that are alike from src1[i] and src2[j] on: blocks of sixteen.
fn alike_blocks(src1: &[u8], i: usize, src2: &[u8], j: usize, count: usize) -> usize
    requires { (i + count ≤ length src1.now) × (j + count ≤ length src2.now) }
    ensures { (result ≤ count) × Alike src1.now i src2.now j result }
{
    let mut n = 0;
    while 16 <= count - n {
        if has_unlike(src1, i + n, src2, j + n) {
            return n;
        }
        n += 16;
    }
    n
}

// The same, byte by byte.
fn alike_bytes(src1: &[u8], i: usize, src2: &[u8], j: usize, count: usize) -> usize
    requires { (i + count ≤ length src1.now) × (j + count ≤ length src2.now) }
    ensures { (result ≤ count) × Alike src1.now i src2.now j result }
{
    let mut n = 0;
    while n < count {
        if is_unlike(src1[i + n], src2[j + n]) {
            return n;
        }
        n += 1;
    }
    n
}

// Two parts, which are mostly long and the same, are the same bytes: whole blocks first.
pub fn same_long(a: &[u8], b: &[u8]) -> bool
    ensures { result ≡ same a.now b.now }
{
    if a.len() != b.len() {
        return false;
    }
    let n = alike_blocks(a, 0, b, 0, a.len());
    same_bytes(&a[n..], &b[n..])
}

// How many bytes at the start of the runs src1[i..e1] and src2[j..e2] are alike, and so mean the same: whole blocks first, then byte by byte.
fn alike_len(src1: &[u8], i: usize, e1: usize, src2: &[u8], j: usize, e2: usize) -> usize
    requires { Parts src1.now i e1 src2.now j e2 }
    ensures { Onward src1.now i e1 src2.now j e2 result }
{
    let count = least(e1 - i, e2 - j);
    let n = alike_blocks(src1, i, src2, j, count);
    n + alike_bytes(src1, i + n, src2, j + n, count - n)
}

// Two runs end in bytes that differ, end no entity and are no CR, and so mean different things.
fn ends_differ(run1: &[u8], run2: &[u8]) -> bool
    ensures { result ≡ true → same (unescape 0 run1.now) (unescape 0 run2.now) ≡ false }
{
    if run1.len() == 0 {
        return false;
    }
    if run2.len() == 0 {
        return false;
    }
    let b = run1[run1.len() - 1];
    let c = run2[run2.len() - 1];
    if b == c {
        return false;
    }
    if b == b';' {
        return false;
    }
    if b == b'\r' {
        return false;
    }
    if c == b';' {
        return false;
    }
    c != b'\r'
}

// The runs of text with these raw bytes mean the same: bytes that are alike are passed together.
pub fn same_run(run1: &[u8], run2: &[u8]) -> bool
    ensures { result ≡ same (unescape 0 run1.now) (unescape 0 run2.now) }
{
    if ends_differ(run1, run2) {
        return false;
    }
    let mut i = 0;
    let mut j = 0;
    while i < run1.len() {
        if run2.len() <= j {
            return false;
        }
        let s = sign_at(run1, i, run1.len());
        let t = sign_at(run2, j, run2.len());
        if s.byte != t.byte {
            return false;
        }
        let more = alike_len(run1, s.next, run1.len(), run2, t.next, run2.len());
        i = s.next + more;
        j = t.next + more;
    }
    run2.len() <= j
}

// The parts that name two nodes, both runs of text or both names or times, mean the same.
fn same_meaning(run: bool, a: &[u8], b: &[u8]) -> bool
    ensures { result ≡ same (meaning run a.now) (meaning run b.now) }
{
    if run {
        return same_run(a, b);
    }
    same_bytes(a, b)
}

// The nodes lo1 to hi1 of one tape and lo2 to hi2 of another are the same forest: node by node of the same kind, as far from their next,
// with the same meaning.
pub fn same_nodes<'a>(
    doc1: &Document<'a>,
    lo1: usize,
    hi1: usize,
    doc2: &Document<'a>,
    lo2: usize,
    hi2: usize,
) -> bool
    requires { Valid doc1.now.src.now doc1.now.tape.now lo1 hi1 × Valid doc2.now.src.now doc2.now.tape.now lo2 hi2 }
    ensures { (f g : Forest) → Tape doc1.now.src.now doc1.now.tape.now lo1 hi1 f → Tape doc2.now.src.now doc2.now.tape.now lo2 hi2 g
        → result ≡ same_forest f g }
{
    if hi1 - lo1 != hi2 - lo2 {
        return false;
    }
    let mut i = lo1;
    let mut j = lo2;
    while i < hi1 {
        let v = doc1.view(i);
        let w = doc2.view(j);
        if v.kind != w.kind {
            return false;
        }
        if v.next - i != w.next - j {
            return false;
        }
        if !same_meaning(v.kind == 0, doc1.part(v), doc2.part(w)) {
            return false;
        }
        i += 1;
        j += 1;
    }
    true
}

// A run is all white space: an entity never is.
pub fn is_white(run: &[u8]) -> bool
    ensures { result ≡ all is_white (unescape 0 run.now) }
{
    let mut i = 0;
    while i < run.len() {
        if !is_white_byte(run[i]) {
            return false;
        }
        i += 1;
    }
    true
}

// The length of a run as it is written: without a marked byte, as it stands.
pub fn text_len(run: &[u8]) -> usize
    requires { length run.now ≤ 32768 }
    ensures { result ≡ length (spelt run.now) }
{
    if plain_end(run, 0, run.len()) == run.len() {
        return run.len();
    }
    let mut none = [0u8; 0];
    put_text(run, &mut none, 0)
}
