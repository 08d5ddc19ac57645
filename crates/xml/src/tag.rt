// Start tags by their raw bytes, a name and attributes as they stand: measured, written as what they mean, and compared.
ghost use Rattle.std.specs.Prelude.{◌≡◌, [], ◌∷◌, ◌+◌, ◌-◌, ◌^◌, ◌<◌, ◌≤◌, length, drop};
ghost use Rattle.std.proofs.Math.Seq.{slice};
ghost use Rattle.xml.specs.Bytes.{bytes, same, same_by};
ghost use Rattle.xml.specs.Over.{Wrote};
ghost use Rattle.xml.specs.Read.{means, tag_of};
ghost use Rattle.xml.specs.SameTapes.{Parts};
ghost use Rattle.xml.specs.TagParts.{IsTag, part_at, attr_in, quoted, nearer_of, alike};
ghost use Rattle.xml.specs.TagPlaces.{PartIn};
ghost use Rattle.xml.specs.NextPart.{NextPart};
ghost use Rattle.xml.specs.Tags.{escape_value, attr_text, sort, name_of, until, parts, count_but, tag_nodes, named_t};

use crate::compare::{same_bytes, same_run};
use crate::names::precedes;
use crate::scan::byte_at;
use crate::text::sign_at;
use crate::writer::{put, put_word};

// An attribute of a tag, whose space stands at a place i: its name ends before the `=`, and its value before the quote at `end`.
#[derive(Clone, Copy)]
pub struct Part {
    pub equals: usize,
    pub end: usize,
}

// How many bytes from a place on stand before the first c.
fn until_byte(s: &[u8], at: usize, c: u8) -> usize
    requires { (length s.now ≤ 32768) × (at ≤ 131072) }
    ensures { (result ≡ until c (drop at s.now)) × (result ≤ 32768) }
{
    let mut n = 0;
    while at + n < s.len() {
        if s[at + n] == c {
            return n;
        }
        n += 1;
    }
    n
}

// The attribute whose space stands at a place.
pub fn part_at(s: &[u8], i: usize) -> Part
    requires { (length s.now ≤ 32768) × (i < length s.now) }
    ensures { result ≡ part_at s.now i }
{
    let equals = i + 1 + until_byte(s, i + 1, b'=');
    let quote = byte_at(s, equals + 1);
    Part {
        equals: equals,
        end: equals + 2 + until_byte(s, equals + 2, quote),
    }
}

// Whether a tag is a name alone: else it ends with a quote.
pub fn is_bare(s: &[u8]) -> bool
    requires { IsTag s.now }
    ensures { result ≡ same s.now (name_of s.now) }
{
    let b = s[s.len() - 1];
    if b == b'"' {
        return false;
    }
    b != b'\''
}

// Where the name of a tag ends.
pub fn name_end(s: &[u8]) -> usize
    requires { IsTag s.now × (length s.now ≤ 32768) }
    ensures { result ≡ length (name_of s.now) }
{
    if is_bare(s) {
        return s.len();
    }
    until_byte(s, 0, b' ')
}

// How many attributes a tag has.
pub fn attr_count(s: &[u8]) -> usize
    requires { IsTag s.now × (length s.now ≤ 32768) }
    ensures { result ≡ length (parts 0 s.now) }
{
    let mut n = 0;
    let mut i = name_end(s);
    while i < s.len() {
        let p = part_at(s, i);
        n += 1;
        i = p.end + 1;
    }
    n
}

// Whether a name is one byte, b.
fn is_byte(name: &[u8], b: u8) -> bool
    ensures { result ≡ same name.now (b ∷ []) }
{
    same_bytes(name, &[b])
}

// How many attributes of a tag are not named `t`.
fn count_but(s: &[u8]) -> usize
    requires { IsTag s.now × (length s.now ≤ 32768) }
    ensures { result ≡ count_but (bytes "t") (parts 0 s.now) }
{
    let mut n = 0;
    let mut i = name_end(s);
    while i < s.len() {
        let p = part_at(s, i);
        if !is_byte(&s[i + 1..p.equals], b't') {
            n += 1;
        }
        i = p.end + 1;
    }
    n
}

// How many nodes the tag of an element is: the element and its attributes, but for a `T` and its `t`.
pub fn tag_nodes(s: &[u8]) -> usize
    requires { IsTag s.now × (length s.now ≤ 32768) }
    ensures { result ≡ tag_nodes s.now }
{
    if is_byte(&s[..name_end(s)], b'T') {
        return count_but(s);
    }
    1 + attr_count(s)
}

// Whether a tag or an attribute in it is named `T`.
pub fn named_t(s: &[u8]) -> bool
    requires { IsTag s.now × (length s.now ≤ 32768) }
    ensures { result ≡ named_t s.now }
{
    let mut i = name_end(s);
    if is_byte(&s[..i], b'T') {
        return true;
    }
    while i < s.len() {
        let p = part_at(s, i);
        if is_byte(&s[i + 1..p.equals], b'T') {
            return true;
        }
        i = p.end + 1;
    }
    false
}

// Writes a byte of a value.
fn put_quoted(b: u8, out: &mut [u8], at: usize) -> usize
    requires { at < 2 ^ 62 }
    ensures { Wrote out.old at (escape_value (b ∷ [])) result out.new }
{
    if b == b'&' {
        return put_word(b"&amp;", out, at);
    }
    if b == b'<' {
        return put_word(b"&lt;", out, at);
    }
    if b == b'"' {
        return put_word(b"&quot;", out, at);
    }
    put(b, out, at)
}

// Writes what the raw bytes of a value mean.
pub fn put_value(value: &[u8], out: &mut [u8], at: usize) -> usize
    requires { (length value.now ≤ 32768) × (at < 2 ^ 61 + 2 ^ 60) }
    ensures { Wrote out.old at (quoted value.now) result out.new }
{
    let mut i = 0;
    let mut to = at;
    while i < value.len() {
        let g = sign_at(value, i, value.len());
        to = put_quoted(g.byte, out, to);
        i = g.next;
    }
    to
}

// How long a value is, written.
fn value_len(value: &[u8]) -> usize
    requires { length value.now ≤ 32768 }
    ensures { result ≡ length (quoted value.now) }
{
    let mut none = [0u8; 0];
    put_value(value, &mut none, 0)
}

// How long a tag is, written: its attributes in any order.
pub fn tag_len(s: &[u8]) -> usize
    requires { IsTag s.now × (length s.now ≤ 32768) }
    ensures { result ≡ length (tag_of s.now) }
{
    let mut i = name_end(s);
    let mut n = i;
    while i < s.len() {
        let p = part_at(s, i);
        n += p.equals - i + 3 + value_len(&s[p.equals + 2..p.end]);
        i = p.end + 1;
    }
    n
}

// Of two places, `best` or that of an attribute whose `=` stands at `equals`, the one whose name comes next after s[a..e].
fn nearer(s: &[u8], a: usize, e: usize, best: usize, i: usize, equals: usize) -> usize
    requires { (length s.now ≤ 32768) × (best ≤ length s.now) × Parts s.now a e s.now (i + 1) equals }
    ensures { result ≡ nearer_of s.now (slice a e s.now) best i (slice (i + 1) equals s.now) }
{
    if !precedes(&s[a..e], &s[i + 1..equals]) {
        return best;
    }
    if best == s.len() {
        return i;
    }
    let end = best + 1 + until_byte(s, best + 1, b'=');
    if precedes(&s[i + 1..equals], &s[best + 1..end]) {
        return i;
    }
    best
}

// The place of the attribute with the least name after s[a..e], or the end of the tag.
fn next_part(s: &[u8], a: usize, e: usize) -> usize
    requires { IsTag s.now × (length s.now ≤ 32768) × (a ≤ e) × (e ≤ length s.now) }
    ensures { NextPart s.now (slice a e s.now) result }
{
    let mut best = s.len();
    let mut i = name_end(s);
    while i < s.len() {
        let p = part_at(s, i);
        best = nearer(s, a, e, best, i, p.equals);
        i = p.end + 1;
    }
    best
}

// Writes the attribute at a place: its space, name and `=` as they stand, and its value in `"`.
fn put_attr(s: &[u8], i: usize, p: Part, out: &mut [u8], at: usize) -> usize
    requires { PartIn s.now i p × (length s.now ≤ 32768) × (at < 2 ^ 61 + 2 ^ 59) }
    ensures { Wrote out.old at (attr_text (means (attr_in s.now i p) ∷ [])) result out.new }
{
    let quote = put_word(&s[i..p.equals + 1], out, at);
    let value = put(b'"', out, quote);
    let end = put_value(&s[p.equals + 2..p.end], out, value);
    put(b'"', out, end)
}

// Writes the tag that raw bytes mean: the name, and the attributes by ascending names.
pub fn put_tag(s: &[u8], out: &mut [u8], at: usize) -> usize
    requires { IsTag s.now × (length s.now ≤ 32768) × (at < 2 ^ 61 + 2 ^ 58) }
    ensures { Wrote out.old at (tag_of s.now) result out.new }
{
    if is_bare(s) {
        return put_word(s, out, at);
    }
    let mut to = put_word(&s[..name_end(s)], out, at);
    let mut i = next_part(s, 0, 0);
    while i < s.len() {
        let p = part_at(s, i);
        to = put_attr(s, i, p, out, to);
        i = next_part(s, i + 1, p.equals);
    }
    to
}

// Whether the attributes at places of two tags mean the same: names by bytes, values by what they mean.
fn same_parts(s1: &[u8], i: usize, p: Part, s2: &[u8], j: usize, q: Part) -> bool
    requires { PartIn s1.now i p × PartIn s2.now j q }
    ensures { result ≡ alike (attr_in s1.now i p) (attr_in s2.now j q) }
{
    if !same_bytes(&s1[i + 1..p.equals], &s2[j + 1..q.equals]) {
        return false;
    }
    same_run(&s1[p.equals + 2..p.end], &s2[q.equals + 2..q.end])
}

// Whether the attributes of two tags mean the same, one after another by ascending names.
fn same_attrs(s1: &[u8], s2: &[u8]) -> bool
    requires { IsTag s1.now × (length s1.now ≤ 32768) × IsTag s2.now × (length s2.now ≤ 32768) }
    ensures { result ≡ same_by alike (sort (parts 0 s1.now)) (sort (parts 0 s2.now)) }
{
    let mut i = next_part(s1, 0, 0);
    let mut j = next_part(s2, 0, 0);
    while i < s1.len() {
        if s2.len() <= j {
            return false;
        }
        let p = part_at(s1, i);
        let q = part_at(s2, j);
        if !same_parts(s1, i, p, s2, j, q) {
            return false;
        }
        i = next_part(s1, i + 1, p.equals);
        j = next_part(s2, j + 1, q.equals);
    }
    s2.len() <= j
}

// Whether two tags mean the same.
pub fn same_tags(s1: &[u8], s2: &[u8]) -> bool
    requires { IsTag s1.now × (length s1.now ≤ 32768) × IsTag s2.now × (length s2.now ≤ 32768) }
    ensures { result ≡ same (tag_of s1.now) (tag_of s2.now) }
{
    if same_bytes(s1, s2) {
        return true;
    }
    if is_bare(s1) {
        return false;
    }
    if is_bare(s2) {
        return false;
    }
    if !same_bytes(&s1[..name_end(s1)], &s2[..name_end(s2)]) {
        return false;
    }
    same_attrs(s1, s2)
}
