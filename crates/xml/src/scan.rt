// The scanner: how far a token of a text goes. It reads the text alone.
ghost use Rattle.std.specs.Prelude.{◌≡◌, true, false, not, ℕ, ◌+◌, ◌<◌, ◌≤◌, max, length, drop, get_or};
ghost use Rattle.std.proofs.Math.Seq.{slice};
ghost use Rattle.xml.specs.ByteTests.{is_plain};
ghost use Rattle.xml.specs.Bytes.{is_times};
ghost use Rattle.xml.specs.Read.{common, name_rest, name_len, times_len, entity_at, text_byte, scan as scanned};
ghost use Rattle.xml.specs.Stretch.{Passed, brackets_after};
ghost use Rattle.xml.specs.Tokens.{begins_times, TimesRead, StartRead, EndRead, EndNamed};

use crate::Start;
use crate::class::{
    ByteClass, class, is_digit, is_markup, is_name_byte, is_name_start, is_printed, is_small,
    is_white_byte,
};
use crate::stretch::{Sort, has_other, pass_blocks, pass_bytes};
use crate::writer::least;

// The byte at a place; the end of the text counts as a byte 0.
pub fn byte_at(src: &[u8], i: usize) -> u8
    ensures { result ≡ get_or src.now i 0 }
{
    if i < src.len() { src[i] } else { 0 }
}

// How many bytes of a name stand at a place, after its first; small letters, the most of them, are told first.
fn name_rest(src: &[u8], at: usize) -> usize
    requires { at ≤ length src.now }
    ensures { result ≡ name_rest 31 (drop at src.now) }
{
    let count = least(31, src.len() - at);
    let mut n = 0;
    while n < count {
        let b = src[at + n];
        if !is_small(b) {
            if !is_name_byte(b) {
                return n;
            }
        }
        n += 1;
    }
    n
}

// How many bytes of a name stand at a place.
pub fn name_len(src: &[u8], at: usize) -> usize
    requires { at ≤ length src.now }
    ensures { result ≡ name_len (drop at src.now) }
{
    if at == src.len() {
        return 0;
    }
    if !is_name_start(src[at]) {
        return 0;
    }
    1 + name_rest(src, at + 1)
}

// A byte that is none of a timestamp, whose bytes are digits, `-` and `,`; told without a branch.
fn is_foreign(b: u8) -> bool
    ensures { result ≡ not (is_times b) }
{
    !(is_digit(b) | (b == b'-') | (b == b','))
}

// The bytes of a timestamp.
struct Times;

impl Sort for Times {
    ghost test = { is_times };

    ghost answer = { true };

    fn is_other(b: u8) -> bool {
        is_foreign(b)
    }

    fn goes_on(b: u8) -> bool {
        !is_foreign(b)
    }
}

// How many bytes of times stand at a place: sixteen are told one by one, then blocks, then one by one.
fn times_len(src: &[u8], at: usize) -> usize
    requires { at ≤ length src.now }
    ensures { result ≡ times_len (drop at src.now) }
{
    if src.len() - at <= 16 {
        return pass_bytes::<Times>(src, at, src.len()) - at;
    }
    let j = pass_bytes::<Times>(src, at, at + 16);
    if j < at + 16 {
        return j - at;
    }
    let k = pass_blocks::<Times>(src, j, src.len());
    pass_bytes::<Times>(src, k, src.len()) - at
}

// How many bytes at a place agree with a word.
pub fn same(src: &[u8], at: usize, word: &[u8]) -> usize
    requires { at ≤ length src.now }
    ensures { result ≡ common word.now (drop at src.now) }
{
    let mut n = 0;
    while n < word.len() && at + n < src.len() {
        if src[at + n] != word[n] {
            return n;
        }
        n += 1;
    }
    n
}

// The entity whose `&` stands before a place: the length of its rest, and the byte that it means; or none, and so many bytes are right.
pub fn entity_at(src: &[u8], at: usize) -> Result<(usize, u8), usize>
    requires { at ≤ length src.now }
    ensures { result ≡ entity_at (drop at src.now) }
{
    let lt = same(src, at, b"lt;");
    if lt == 3 {
        return Ok((3, b'<'));
    }
    let gt = same(src, at, b"gt;");
    if gt == 3 {
        return Ok((3, b'>'));
    }
    let amp = same(src, at, b"amp;");
    if amp == 4 {
        return Ok((4, b'&'));
    }
    let quot = same(src, at, b"quot;");
    if quot == 5 {
        return Ok((5, b'"'));
    }
    let apos = same(src, at, b"apos;");
    if apos == 5 {
        return Ok((5, b'\''));
    }
    Err(lt.max(gt.max(amp.max(quot.max(apos)))))
}

// A byte that is not plain: `<`, `&`, `]`, `>`, or one that is neither white space nor printed; told without a branch.
fn is_special(b: u8) -> bool
    ensures { result ≡ not (is_plain b) }
{
    is_markup(b) | (b == b']') | (b == b'>') | !(is_white_byte(b) | is_printed(b))
}

// A byte after which a text goes on, whatever stands before it: white space, or 20 to 7E hexadecimal and none of `<`, `&`, `]`, `>`.
// Digits are told first, then markup, which ends most runs.
fn is_plain(b: u8) -> bool
    ensures { result ≡ is_plain b }
{
    if is_digit(b) {
        return true;
    }
    if is_markup(b) {
        return false;
    }
    !is_special(b)
}

// The bytes after which a text goes on.
struct Plain;

impl Sort for Plain {
    ghost test = { is_plain };

    ghost answer = { true };

    fn is_other(b: u8) -> bool {
        is_special(b)
    }

    fn goes_on(b: u8) -> bool {
        is_plain(b)
    }
}

// A place up to which the text has plain bytes alone, from a place on: eight one by one, then blocks, then one by one.
fn plain_run(src: &[u8], at: usize) -> usize
    requires { at ≤ length src.now }
    ensures { Passed is_plain true src.now at (length src.now) result }
{
    if src.len() - at <= 16 {
        return pass_bytes::<Plain>(src, at, src.len());
    }
    let j = pass_bytes::<Plain>(src, at, at + 8);
    if j < at + 8 {
        return j;
    }
    if has_other::<Plain>(src, j, 8) {
        return pass_bytes::<Plain>(src, j, src.len());
    }
    let k = pass_blocks::<Plain>(src, j + 8, src.len());
    pass_bytes::<Plain>(src, k, src.len())
}

// What a byte of a text means, after q times `]`: the run is over; or it goes on after so many bytes more, with so many `]` before it; or
// the byte so many bytes on is wrong. Its class is asked of the bytes that mean nothing here.
fn text_byte(src: &[u8], at: usize, q: usize) -> Result<Option<(usize, usize)>, usize>
    requires { (at < length src.now) × (q ≤ at) }
    ensures { result ≡ text_byte q (get_or src.now at 0) (drop (at + 1) src.now) }
{
    let b = src[at];
    if b == b'<' {
        return Ok(None);
    }
    if b == b'&' {
        match entity_at(src, at + 1) {
            Ok((k, _)) => return Ok(Some((k, 0))),
            Err(k) => return Err(1 + k),
        }
    }
    if b == b']' {
        return Ok(Some((0, q + 1)));
    }
    if b == b'>' {
        if 2 <= q {
            return Err(0);
        }
        return Ok(Some((0, 0)));
    }
    if class(b) == ByteClass::Illegal {
        return Err(0);
    }
    Ok(Some((0, 0)))
}

// How many times `]` stand before a place, where there were q before the plain bytes that lead to it.
fn brackets(q: usize, from: usize, to: usize) -> usize
    ensures { result ≡ brackets_after q from to }
{
    if from < to { 0 } else { q }
}

// How far a run of text goes: its length; or the offset of the wrong byte in it.
pub(crate) fn text_run(src: &[u8], at: usize) -> Result<usize, usize>
    requires { at ≤ length src.now }
    ensures { result ≡ scanned 0 0 0 (drop at src.now) }
{
    let mut j = plain_run(src, at);
    let mut q = 0;
    while j < src.len() {
        match text_byte(src, j, q) {
            Ok(None) => return Ok(j - at),
            Err(k) => return Err(j - at + k),
            Ok(Some((k, r))) => {
                let from = j + 1 + k;
                j = plain_run(src, from);
                q = brackets(r, from, j);
            }
        }
    }
    Ok(j - at)
}

// An archive's start tag after its `<T`: how many bytes of times it has; or how far from the `<` the wrong byte stands.
fn times_tag(src: &[u8], at: usize) -> Result<usize, usize>
    requires { at ≤ length src.now }
    ensures { TimesRead (drop at src.now) result }
{
    let m = same(src, at, b" t=\"");
    if m != 4 {
        return Err(2 + m);
    }
    let n = times_len(src, at + 4);
    let e = same(src, at + 4 + n, b"\">");
    if e != 2 {
        return Err(6 + n + e);
    }
    Ok(n)
}

// Whether a tag with times begins after a `<`: in an archive, with `T` and a space.
fn begins_times(src: &[u8], archive: bool, at: usize) -> bool
    requires { at ≤ length src.now }
    ensures { result ≡ begins_times archive (get_or src.now at 0) (get_or src.now (at + 1) 0) }
{
    archive && byte_at(src, at) == b'T' && byte_at(src, at + 1) == b' '
}

// A start tag after its `<`; or how far from the `<` the wrong byte stands.
pub(crate) fn start_tag(src: &[u8], archive: bool, at: usize) -> Result<Start, usize>
    requires { at ≤ length src.now }
    ensures { StartRead archive (drop at src.now) result }
{
    if begins_times(src, archive, at) {
        return Ok(Start::Timed(times_tag(src, at + 1)?));
    }
    let n = name_len(src, at);
    if n == 0 {
        return Err(1);
    }
    let b = byte_at(src, at + n);
    if b == b'>' {
        return Ok(Start::Opens(n));
    }
    if b != b'/' {
        return Err(1 + n);
    }
    if byte_at(src, at + n + 1) != b'>' {
        return Err(2 + n);
    }
    Ok(Start::Lone(n))
}

// An end tag after its `</`: a name, and `>`; the length of the name, or the offset of the wrong byte.
fn end_name(src: &[u8], at: usize, name: &[u8]) -> Result<usize, usize>
    requires { at ≤ length src.now }
    ensures { EndNamed name.now (drop at src.now) result }
{
    let m = same(src, at, name);
    if m == name.len() && byte_at(src, at + m) == b'>' {
        return Ok(m);
    }
    Err(m)
}

// An end tag after its `</`, of what is open: of this kind, named by the bytes start to end.
pub(crate) fn end_tag(
    src: &[u8],
    at: usize,
    start: usize,
    end: usize,
    kind: u32,
) -> Result<usize, usize>
    requires { (at ≤ length src.now) × (start ≤ end) × (end ≤ length src.now) }
    ensures { EndRead kind (slice start end src.now) (drop at src.now) result }
{
    if kind == 2 {
        return end_name(src, at, b"T");
    }
    end_name(src, at, &src[start..end])
}
