// Whether a table by value is legal, and which of its marks has a name.
ghost use Rattle.std.specs.Prelude.{◌≡◌, map, ◌≤◌, length, take, drop};
ghost use Rattle.xml.specs.Bytes.{all, distinct, same};
ghost use Rattle.marks.specs.Marks.{name_of, same_mark, unused, marks_in, number};
ghost use Rattle.marks.specs.Judging.{padded, is_entry, used_in, place_in, placed, judged, lent_of};

use crate::{Mark, Table};
use keys::refusal::Refusal;
use xml::class::is_name_byte;

impl Mark {
    // The bytes of the name: never more than 16.
    fn name_bytes(&self) -> &[u8]
        ensures { result.now ≡ name_of self.now }
    {
        let len = usize::from(self.len).min(16);
        &self.name[..len]
    }

    // The entry holds no mark: it is all zero.
    fn is_unused(&self) -> bool
        ensures { result ≡ same_mark unused self.now }
    {
        *self == Mark::UNUSED
    }

    // Two entries have the same name.
    fn has_name_of(&self, other: &Mark) -> bool
        ensures { result ≡ same (name_of self.now) (name_of other.now) }
    {
        self.name_bytes() == other.name_bytes()
    }

    // The bytes of the name are name bytes, and the others zero.
    fn is_padded(&self) -> bool
        ensures { result ≡ padded self.now.len self.now.name }
    {
        let name = self.name_bytes();
        name.iter().all(|b| is_name_byte(*b)) && self.name[name.len()..].iter().all(|b| *b == 0)
    }

    // The entry is that of a legal mark, of an archive of n versions.
    fn is_entry(&self, n: usize) -> bool
        ensures { result ≡ is_entry n self.now }
    {
        let version = usize::from(self.version);
        if self.len < 1 || 16 < self.len {
            return false;
        }
        if version < 1 || n < version {
            return false;
        }
        self.is_padded()
    }
}

// The place of the first of u entries that has the name of m.
pub fn place_of(t: Table, m: Mark, u: usize) -> Option<usize>
    requires { u ≤ 32 }
    ensures { result ≡ placed (place_in (name_of m) (map name_of (take u t.held))) u }
{
    t.held[..u].iter().position(|e| m.has_name_of(e))
}

// How many entries there are before the first of length 0.
fn used(t: Table) -> usize
    ensures { (result ≡ used_in t.held) × (result ≤ 32) }
{
    let end = t.held.iter().position(|e| e.len == 0);
    end.unwrap_or(32)
}

// The first u entries are those of legal marks, of an archive of n versions.
fn are_entries(t: Table, u: usize, n: usize) -> bool
    requires { u ≤ 32 }
    ensures { result ≡ all (is_entry n) (take u t.held) }
{
    t.held[..u].iter().all(|e| e.is_entry(n))
}

// The entries after the first u are unused.
fn are_unused(t: Table, u: usize) -> bool
    requires { u ≤ 32 }
    ensures { result ≡ all (same_mark unused) (drop u t.held) }
{
    t.held[u..].iter().all(|e| e.is_unused())
}

// No two of the first u entries have the same name: each is compared with those after it.
fn are_distinct(t: Table, u: usize) -> bool
    requires { u ≤ 32 }
    ensures { result ≡ distinct same (map name_of (take u t.held)) }
{
    for i in 0..u {
        let e = t.held[i];
        if t.held[i + 1..u].iter().any(|later| e.has_name_of(later)) {
            return false;
        }
    }
    true
}

// How many marks a table holds that is lent with an archive of n versions; or it is refused, illegal.
pub fn judge(t: Table, n: usize) -> Result<usize, Refusal>
    requires { t.size ≤ 32 }
    ensures { result ≡ judged n (lent_of t) }
{
    let size = t.size;
    if size != 32 {
        return Err(Refusal::TableIllegal);
    }
    let u = used(t);
    if !are_entries(t, u, n) {
        return Err(Refusal::TableIllegal);
    }
    if !are_distinct(t, u) {
        return Err(Refusal::TableIllegal);
    }
    if !are_unused(t, u) {
        return Err(Refusal::TableIllegal);
    }
    Ok(u)
}

// 17, or 0 for a legal table of an archive of n versions.
pub fn check(t: Table, n: usize) -> u32
    requires { t.size ≤ 32 }
    ensures { result ≡ number (marks_in n (lent_of t)) }
{
    match judge(t, n) {
        Ok(_) => 0,
        Err(refusal) => refusal.number(),
    }
}
