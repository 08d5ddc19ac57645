// A lent table of marks: few and thin functions; what they do is done on a table by value.
ghost use Rattle.std.specs.Prelude.{ℕ, ◌≡◌, ◌≤◌, ◌++◌, length, take, drop, IfOk, Ok, Err};
ghost use Rattle.keys.specs.Meant.{Came};
ghost use Rattle.marks.specs.Marks.{setting, finding, dropping, marks_after};
ghost use Rattle.marks.specs.Lent.{table_of};
ghost use Rattle.marks.specs.Changing.{done, version_in, counted_after, number_after, table_after, found_after};

use crate::change::{drop_in, find_in, set_in};
use crate::entries::blank;
use crate::{Mark, Table};
use keys::refusal::Refusal;

// Copies the first n entries.
pub fn copy<'a, 'b>(from: &'a [Mark], to: &'b mut [Mark], n: usize)
    requires { (n ≤ length from.now) × (n ≤ length to.old) }
    ensures { to.new ≡ take n from.now ++ drop n to.old }
{
    to[..n].copy_from_slice(&from[..n]);
}

// A lent table by value.
pub fn gather(marks: &[Mark]) -> Table
    ensures { result ≡ table_of marks.now }
{
    let t = blank(marks.len());
    let n = t.size;
    let mut held = t.held;
    copy(marks, &mut held, n);
    Table { held, size: n }
}

// The entries of a table by value into the lent one.
pub fn scatter(marks: &mut [Mark], t: Table)
    requires { (t.size ≤ 32) × (t.size ≤ length marks.old) }
    ensures { marks.new ≡ take t.size t.held ++ drop t.size marks.old }
{
    let held = t.held;
    copy(&held, marks, t.size);
}

// Finds the version of a mark in the table of an archive whose versions were counted: where that is refused, so is this.
pub fn find<'a, 'b, E: From<Refusal>>(
    marks: &'a [Mark],
    name: &'b [u8],
    counted: Result<usize, E>,
) -> Result<usize, E>
    ensures refused { (e : E) → counted ≡ Err e → result ≡ Err e }
    ensures found { (n : ℕ) → counted ≡ Ok n → Came E.from_gives (version_in (finding n marks.now name.now)) result }
{
    let n = match counted {
        Ok(n) => n,
        Err(e) => return Err(e),
    };
    let t = gather(marks);
    let version = find_in(t, name, n)?;
    Ok(version)
}

// Sets a mark in the table of an archive whose versions were counted: where that is refused, so is this. A refusal leaves the table as it was.
pub fn set<'a, 'b, E: From<Refusal>>(
    marks: &'a mut [Mark],
    name: &'b [u8],
    version: usize,
    counted: Result<usize, E>,
) -> Result<(), E>
    requires { IfOk counted (λ n. n ≤ 999) }
    ensures refused { (e : E) → counted ≡ Err e → (result ≡ Err e) × (marks.new ≡ marks.old) }
    ensures set { (n : ℕ) → counted ≡ Ok n
        → Came E.from_gives (done (setting n marks.old name.now version)) result
        × (marks.new ≡ marks_after (setting n marks.old name.now version) marks.old) }
{
    let n = match counted {
        Ok(n) => n,
        Err(e) => return Err(e),
    };
    let t = gather(marks);
    let next = set_in(t, name, version, n)?;
    scatter(marks, next);
    Ok(())
}

// Drops the marks of versions later than i from the table of an archive whose versions were counted: where that is refused, so is this.
pub fn drop_later<'a, E: From<Refusal>>(
    marks: &'a mut [Mark],
    counted: Result<usize, E>,
    i: usize,
) -> Result<(), E>
    ensures refused { (e : E) → counted ≡ Err e → (result ≡ Err e) × (marks.new ≡ marks.old) }
    ensures dropped { (n : ℕ) → counted ≡ Ok n
        → Came E.from_gives (done (dropping n marks.old i)) result
        × (marks.new ≡ marks_after (dropping n marks.old i) marks.old) }
{
    let n = match counted {
        Ok(n) => n,
        Err(e) => return Err(e),
    };
    let t = gather(marks);
    let next = drop_in(t, n, i)?;
    scatter(marks, next);
    Ok(())
}

// What was counted, of a caller whose refusals are numbers: `before` is that under which the call is refused already, or 0.
fn counted_after(before: u32, n: usize) -> Result<usize, u32>
    ensures { result ≡ counted_after before n }
{
    if before == 0 { Ok(n) } else { Err(before) }
}

// Finds a mark, for a caller whose refusals are numbers.
pub fn find_numbered<'a, 'b>(
    marks: &'a [Mark],
    name: &'b [u8],
    before: u32,
    n: usize,
) -> Result<usize, u32>
    ensures { result ≡ found_after before (finding n marks.now name.now) }
{
    find(marks, name, counted_after(before, n))
}

// Sets a mark, for a caller whose refusals are numbers: 0 says that it is set.
pub fn set_numbered<'a, 'b>(
    marks: &'a mut [Mark],
    name: &'b [u8],
    version: usize,
    before: u32,
    n: usize,
) -> u32
    requires { n ≤ 999 }
    ensures { (result ≡ number_after before (setting n marks.old name.now version))
        × (marks.new ≡ table_after before (setting n marks.old name.now version) marks.old) }
{
    match set(marks, name, version, counted_after(before, n)) {
        Ok(()) => 0,
        Err(number) => number,
    }
}

// Drops the marks of later versions, for a caller whose refusals are numbers: 0 says that it is done.
pub fn drop_numbered(marks: &mut [Mark], before: u32, n: usize, i: usize) -> u32
    ensures { (result ≡ number_after before (dropping n marks.old i))
        × (marks.new ≡ table_after before (dropping n marks.old i) marks.old) }
{
    match drop_later(marks, counted_after(before, n), i) {
        Ok(()) => 0,
        Err(number) => number,
    }
}
