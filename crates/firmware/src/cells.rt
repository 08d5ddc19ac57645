// The calls on work cells of their own, as many as CELLS: few for short texts, and 16,384, which serve for texts of any length.
ghost use Rattle.std.specs.Prelude.{◌≤◌, min, [], length};
ghost use Rattle.keys.specs.Meant.{number_in, length_in};
ghost use Rattle.versions.specs.Calls.{found as found_of, add as add_of, retrieve as retrieve_of, history as history_of, set_mark as set_mark_of, step_back as step_back_of, step_back_to_mark as step_back_to_mark_of};
ghost use Rattle.archive.specs.Giving.{Told};
ghost use Rattle.archive.specs.MarkCalls.{MarkedAs};
ghost use Rattle.archive.specs.FewCells.{Whole, FoundAs};
ghost use Rattle.firmware.specs.Stepped.{length_left, entries_left};

use archive::add::add_in;
use archive::back::{back_in, back_to_mark_in};
use archive::found::found_in;
use archive::history::history_in;
use archive::mark::count_in;
use archive::retrieve::retrieve_in;
use keys::refusal::Refusal;
use marks::Table;
use marks::by_value::{drop_later, find, set};

// The length of a result, and the table after the call.
#[derive(Clone, Copy)]
pub struct Stepped {
    pub length: usize,
    pub table: Table,
}

// Founds an archive from a version.
pub fn found_on<const CELLS: usize>(
    keys: &[u8],
    version: &[u8],
    out: &mut [u8],
) -> Result<usize, Refusal>
    requires { (CELLS ≤ 16384) × (min (length version.now) 16384 ≤ CELLS) }
    ensures { Told (found_of keys.now version.now (length out.old) 16384)
        out.old (number_in result) (length_in result) out.new }
{
    let mut work = [0u32; CELLS];
    found_in(keys, version, out, &mut work)
}

// Adds a version to an archive.
pub fn add_on<const CELLS: usize>(
    keys: &[u8],
    archive: &[u8],
    version: &[u8],
    out: &mut [u8],
) -> Result<usize, Refusal>
    requires { (CELLS ≤ 16384) × (min (length archive.now) 16384 ≤ CELLS) × (min (length version.now) 16384 ≤ CELLS) }
    ensures { Told (add_of keys.now version.now archive.now (length out.old) 16384)
        out.old (number_in result) (length_in result) out.new }
{
    let mut work = [0u32; CELLS];
    add_in(keys, archive, version, out, &mut work)
}

// Retrieves version i of an archive.
pub fn retrieve_on<const CELLS: usize>(
    keys: &[u8],
    archive: &[u8],
    i: usize,
    out: &mut [u8],
) -> Result<usize, Refusal>
    requires { (CELLS ≤ 16384) × (min (length archive.now) 16384 ≤ CELLS) }
    ensures { Told (retrieve_of keys.now archive.now i (length out.old) 16384)
        out.old (number_in result) (length_in result) out.new }
{
    let mut work = [0u32; CELLS];
    retrieve_in(keys, archive, i, out, &mut work)
}

// Gives the history of an address in an archive.
pub fn history_on<const CELLS: usize>(
    keys: &[u8],
    archive: &[u8],
    address: &[u8],
    out: &mut [u8],
) -> Result<usize, Refusal>
    requires { (CELLS ≤ 16384) × (min (length archive.now) 16384 ≤ CELLS) }
    ensures { Told (history_of keys.now archive.now address.now (length out.old) 16384)
        out.old (number_in result) (length_in result) out.new }
{
    let mut work = [0u32; CELLS];
    history_in(keys, archive, address, out, &mut work)
}

// Sets a mark on version i of an archive.
pub fn set_on<const CELLS: usize>(
    keys: &[u8],
    archive: &[u8],
    t: Table,
    name: &[u8],
    i: usize,
) -> Result<Stepped, Refusal>
    requires { (CELLS ≤ 16384) × (min (length archive.now) 16384 ≤ CELLS) }
    ensures { MarkedAs (set_mark_of keys.now archive.now t.held name.now i 16384)
        [] (number_in result) (length_left result) [] (entries_left t.held result) }
{
    let mut work = [0u32; CELLS];
    let counted = count_in(keys, archive, &mut work);
    let table = set(t, name, i, counted)?;
    Ok(Stepped { length: 0, table })
}

// Finds the version of a mark of an archive.
pub fn find_on<const CELLS: usize>(
    keys: &[u8],
    archive: &[u8],
    t: Table,
    name: &[u8],
) -> Result<usize, Refusal>
    requires { (CELLS ≤ 16384) × (min (length archive.now) 16384 ≤ CELLS) }
    ensures { FoundAs keys.now archive.now t.held name.now result }
{
    let mut work = [0u32; CELLS];
    let counted = count_in(keys, archive, &mut work);
    find(t, name, counted)
}

// Steps an archive back to version i, and drops the marks of later ones.
pub fn back_on<const CELLS: usize>(
    keys: &[u8],
    archive: &[u8],
    t: Table,
    i: usize,
    out: &mut [u8],
) -> Result<Stepped, Refusal>
    requires { (CELLS ≤ 16384) × (min (length archive.now) 16384 ≤ CELLS) × Whole t }
    ensures { MarkedAs (step_back_of keys.now archive.now t.held i (length out.old) 16384)
        out.old (number_in result) (length_left result) out.new (entries_left t.held result) }
{
    let mut work = [0u32; CELLS];
    let b = back_in(keys, archive, t, i, out, &mut work)?;
    let table = drop_later::<Refusal>(t, Ok(b.versions), b.to)?;
    Ok(Stepped {
        length: b.length,
        table,
    })
}

// Steps an archive back to the version of a mark, and drops the marks of later ones.
pub fn named_on<const CELLS: usize>(
    keys: &[u8],
    archive: &[u8],
    t: Table,
    name: &[u8],
    out: &mut [u8],
) -> Result<Stepped, Refusal>
    requires { (CELLS ≤ 16384) × (min (length archive.now) 16384 ≤ CELLS) × Whole t }
    ensures { MarkedAs (step_back_to_mark_of keys.now archive.now t.held name.now (length out.old) 16384)
        out.old (number_in result) (length_left result) out.new (entries_left t.held result) }
{
    let mut work = [0u32; CELLS];
    let b = back_to_mark_in(keys, archive, t, name, out, &mut work)?;
    let table = drop_later::<Refusal>(t, Ok(b.versions), b.to)?;
    Ok(Stepped {
        length: b.length,
        table,
    })
}
