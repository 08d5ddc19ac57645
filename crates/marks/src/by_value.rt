// The functions over a lent table of marks, for callers that have it by value: each puts it into a local and lends it.
ghost use Rattle.std.specs.Prelude.{ℕ, ◌≡◌, ◌≤◌, IfOk, Ok, Err};
ghost use Rattle.keys.specs.Meant.{Came};
ghost use Rattle.marks.specs.Marks.{setting, finding, dropping};
ghost use Rattle.marks.specs.Changing.{tabled, version_in};

use crate::{Table, lent};
use keys::refusal::Refusal;

// Sets a mark in the table of an archive whose versions were counted: where that is refused, so is this.
pub fn set<'a, E: From<Refusal>>(
    t: Table,
    name: &'a [u8],
    version: usize,
    counted: Result<usize, E>,
) -> Result<Table, E>
    requires { IfOk counted (λ n. n ≤ 999) }
    ensures refused { (e : E) → counted ≡ Err e → result ≡ Err e }
    ensures set { (n : ℕ) → counted ≡ Ok n → Came E.from_gives (tabled (setting n t.held name.now version)) result }
{
    let mut held = t.held;
    match lent::set(&mut held, name, version, counted) {
        Ok(()) => Ok(Table { held, size: 32 }),
        Err(e) => Err(e),
    }
}

// Finds the version of a mark in the table of an archive whose versions were counted: where that is refused, so is this.
pub fn find<'a, E: From<Refusal>>(
    t: Table,
    name: &'a [u8],
    counted: Result<usize, E>,
) -> Result<usize, E>
    ensures refused { (e : E) → counted ≡ Err e → result ≡ Err e }
    ensures found { (n : ℕ) → counted ≡ Ok n → Came E.from_gives (version_in (finding n t.held name.now)) result }
{
    let held = t.held;
    lent::find(&held, name, counted)
}

// Drops the marks of versions later than i from the table of an archive whose versions were counted: where that is refused, so is this.
pub fn drop_later<E: From<Refusal>>(
    t: Table,
    counted: Result<usize, E>,
    i: usize,
) -> Result<Table, E>
    ensures refused { (e : E) → counted ≡ Err e → result ≡ Err e }
    ensures dropped { (n : ℕ) → counted ≡ Ok n → Came E.from_gives (tabled (dropping n t.held i)) result }
{
    let mut held = t.held;
    match lent::drop_later(&mut held, counted, i) {
        Ok(()) => Ok(Table { held, size: 32 }),
        Err(e) => Err(e),
    }
}
