// Setting, finding and dropping marks in a table by value.
ghost use Rattle.std.specs.Prelude.{◌≡◌, List, ◌<◌, ◌≤◌, length};
ghost use Rattle.marks.specs.Marks.{Named, entry, entries, is_mark_name, up_to, setting, finding, dropping};
ghost use Rattle.marks.specs.Judging.{lent_of};
ghost use Rattle.keys.specs.Meant.{meant};
ghost use Rattle.marks.specs.Changing.{tabled, version_in, setting_among, finding_among, holding, mark_named};

use crate::judge::{judge, place_of};
use crate::{Mark, Table};
use keys::refusal::Refusal;
use xml::class::is_name_byte;

// Whether a text may be the name of a mark.
pub fn is_mark_name(name: &[u8]) -> bool
    ensures { result ≡ is_mark_name name.now }
{
    if name.len() < 1 || 16 < name.len() {
        return false;
    }
    name.iter().all(|b| is_name_byte(*b))
}

// The entry of a mark.
pub fn named_mark(name: &[u8], version: u16) -> Mark
    requires { length name.now ≤ 16 }
    ensures { result ≡ entry (mark_named name.now version) }
{
    let mut bytes = [0u8; 16];
    bytes[..name.len()].copy_from_slice(name);
    Mark {
        name: bytes,
        len: name.len() as u8,
        version,
    }
}

// Sets a mark in a legal table of u marks.
fn set_among(t: Table, u: usize, name: &[u8], version: usize, n: usize) -> Result<Table, Refusal>
    requires { (u ≤ 32) × (n ≤ 999) }
    ensures { (ks : List Named) → t.held ≡ entries ks → length ks ≡ u → meant result ≡ tabled (setting_among n ks name.now version) }
{
    if !is_mark_name(name) {
        return Err(Refusal::MarkName);
    }
    let m = named_mark(name, 0);
    if place_of(t, m, u).is_some() {
        return Err(Refusal::MarkName);
    }
    if u == 32 {
        return Err(Refusal::MarksFull);
    }
    if version < 1 {
        return Err(Refusal::NoVersion);
    }
    if n < version {
        return Err(Refusal::NoVersion);
    }
    let mut held = t.held;
    held[u] = named_mark(name, version as u16);
    Ok(Table { held, size: 32 })
}

// Sets a mark.
pub fn set_in(t: Table, name: &[u8], version: usize, n: usize) -> Result<Table, Refusal>
    requires { (t.size ≤ 32) × (n ≤ 999) }
    ensures { meant result ≡ tabled (setting n (lent_of t) name.now version) }
{
    let u = judge(t, n)?;
    set_among(t, u, name, version, n)
}

// Finds the version of a mark in a legal table of u marks.
fn find_among(t: Table, u: usize, name: &[u8]) -> Result<usize, Refusal>
    requires { u ≤ 32 }
    ensures { (ks : List Named) → t.held ≡ entries ks → length ks ≡ u → meant result ≡ version_in (finding_among ks name.now) }
{
    if !is_mark_name(name) {
        return Err(Refusal::MarkName);
    }
    let m = named_mark(name, 0);
    let Some(i) = place_of(t, m, u) else {
        return Err(Refusal::MarkName);
    };
    let e = t.held[i];
    Ok(usize::from(e.version))
}

// Finds the version of a mark.
pub fn find_in(t: Table, name: &[u8], n: usize) -> Result<usize, Refusal>
    requires { t.size ≤ 32 }
    ensures { meant result ≡ version_in (finding n (lent_of t) name.now) }
{
    let u = judge(t, n)?;
    find_among(t, u, name)
}

// A table of the marks, of a legal table of u marks, that are not later than i.
fn kept_to(t: Table, u: usize, i: usize) -> Table
    requires { u ≤ 32 }
    ensures { (ks : List Named) → t.held ≡ entries ks → length ks ≡ u → result ≡ holding (up_to i ks) }
{
    let mut held = [Mark::UNUSED; 32];
    let mut count = 0;
    for j in 0..u {
        let m = t.held[j];
        if m.version as usize <= i {
            held[count] = m;
            count += 1;
        }
    }
    Table { held, size: 32 }
}

// Drops the marks of versions later than i.
pub fn drop_in(t: Table, n: usize, i: usize) -> Result<Table, Refusal>
    requires { t.size ≤ 32 }
    ensures { meant result ≡ tabled (dropping n (lent_of t) i) }
{
    let u = judge(t, n)?;
    Ok(kept_to(t, u, i))
}
