// The monitor's C entries: the calls on numbers and byte slices, with work cells of their own.
// In C a slice is a pointer and a length (include/station_archive.h).
#![tactic(auto)]

mod cells;

ghost use Rattle.std.specs.Prelude.{◌≡◌, [], length as size_of};
ghost use Rattle.keys.specs.Meant.{number_in, length_in};
ghost use Rattle.marks.specs.Marks.{table_in};
ghost use Rattle.versions.specs.Calls.{check_keys, found as found_of, add as add_of, retrieve as retrieve_of, history as history_of, set_mark as set_mark_of, find_mark as find_mark_of, step_back as step_back_of, step_back_to_mark as step_back_to_mark_of};
ghost use Rattle.archive.specs.Giving.{Told};
ghost use Rattle.archive.specs.Entries.{ToldTable, ToldFound};
ghost use Rattle.archive.specs.LongestCall.{LongestTold};
ghost use Rattle.firmware.specs.Stepped.{length_left, bytes_after};

use archive::check_keys::check_keys;
use archive::longest::longest_in;
use cells::{
    Stepped, add_on, back_on, find_on, found_on, history_on, named_on, retrieve_on, set_on,
};
use keys::refusal::Refusal;
use marks::bytes::{put_table, table_from};

// The work cells of an entry.
const CELLS: usize = 16384;

// The work cells of an entry whose texts have at most as many bytes: they ask for no more.
const FEW: usize = 2048;

// Answers a call: the number of its refusal, or 0; and its length, 0 where it is refused.
fn told(answer: Result<usize, Refusal>, length: &mut usize) -> u32
    ensures { (result ≡ number_in answer) × (length.new ≡ length_in answer) }
{
    match answer {
        Ok(n) => {
            *length = n;
            0
        }
        Err(refusal) => {
            *length = 0;
            refusal.number()
        }
    }
}

// Checks a key list.
#[unsafe(no_mangle)]
pub extern "C" fn archive_check_keys(keys: &[u8], length: &mut usize) -> u32
    ensures { (result ≡ (check_keys keys.now 16384).number) × (length.new ≡ 0) }
{
    let mut work = [0u32; CELLS];
    told(check_keys(keys, &mut work), length)
}

// Founds an archive from version 1.
#[unsafe(no_mangle)]
pub extern "C" fn archive_found(
    keys: &[u8],
    version: &[u8],
    out: &mut [u8],
    length: &mut usize,
) -> u32
    ensures { Told (found_of keys.now version.now (size_of out.old) 16384)
        out.old result length.new out.new }
{
    if version.len() <= FEW {
        return told(found_on::<FEW>(keys, version, out), length);
    }
    told(found_on::<CELLS>(keys, version, out), length)
}

// Adds a version to an archive.
#[unsafe(no_mangle)]
pub extern "C" fn archive_add(
    keys: &[u8],
    archive: &[u8],
    version: &[u8],
    out: &mut [u8],
    length: &mut usize,
) -> u32
    ensures { Told (add_of keys.now version.now archive.now (size_of out.old) 16384)
        out.old result length.new out.new }
{
    if archive.len() <= FEW && version.len() <= FEW {
        return told(add_on::<FEW>(keys, archive, version, out), length);
    }
    told(add_on::<CELLS>(keys, archive, version, out), length)
}

// Retrieves version i of an archive.
#[unsafe(no_mangle)]
pub extern "C" fn archive_retrieve(
    keys: &[u8],
    archive: &[u8],
    i: usize,
    out: &mut [u8],
    length: &mut usize,
) -> u32
    ensures { Told (retrieve_of keys.now archive.now i (size_of out.old) 16384)
        out.old result length.new out.new }
{
    if archive.len() <= FEW {
        return told(retrieve_on::<FEW>(keys, archive, i, out), length);
    }
    told(retrieve_on::<CELLS>(keys, archive, i, out), length)
}

// Gives the history of an address.
#[unsafe(no_mangle)]
pub extern "C" fn archive_history(
    keys: &[u8],
    archive: &[u8],
    address: &[u8],
    out: &mut [u8],
    length: &mut usize,
) -> u32
    ensures { Told (history_of keys.now archive.now address.now (size_of out.old) 16384)
        out.old result length.new out.new }
{
    if archive.len() <= FEW {
        return told(history_on::<FEW>(keys, archive, address, out), length);
    }
    told(history_on::<CELLS>(keys, archive, address, out), length)
}

// Answers a call over a table, and writes the table into the bytes lent where the call is not refused.
fn told_table(answer: Result<Stepped, Refusal>, marks: &mut [u8], length: &mut usize) -> u32
    requires { number_in answer ≡ 0 → size_of marks.old ≡ 608 }
    ensures { (result ≡ number_in answer) × (length.new ≡ length_left answer) × (marks.new ≡ bytes_after answer marks.old) }
{
    match answer {
        Ok(s) => {
            put_table(s.table, marks);
            told(Ok(s.length), length)
        }
        Err(refusal) => told(Err(refusal), length),
    }
}

// Sets a mark on version i of an archive.
#[unsafe(no_mangle)]
pub extern "C" fn archive_set_mark(
    keys: &[u8],
    archive: &[u8],
    marks: &mut [u8],
    name: &[u8],
    i: usize,
    length: &mut usize,
) -> u32
    ensures { ToldTable (set_mark_of keys.now archive.now (table_in marks.old) name.now i 16384)
        [] marks.old result length.new [] marks.new }
{
    let t = table_from(marks);
    if archive.len() <= FEW {
        return told_table(set_on::<FEW>(keys, archive, t, name, i), marks, length);
    }
    told_table(set_on::<CELLS>(keys, archive, t, name, i), marks, length)
}

// Finds the version of a mark.
#[unsafe(no_mangle)]
pub extern "C" fn archive_find_mark(
    keys: &[u8],
    archive: &[u8],
    marks: &[u8],
    name: &[u8],
    version: &mut usize,
    length: &mut usize,
) -> u32
    ensures { ToldFound (find_mark_of keys.now archive.now (table_in marks.now) name.now 16384)
        result version.new length.new }
{
    let t = table_from(marks);
    *length = 0;
    if archive.len() <= FEW {
        return told(find_on::<FEW>(keys, archive, t, name), version);
    }
    told(find_on::<CELLS>(keys, archive, t, name), version)
}

// Steps an archive back to version i.
#[unsafe(no_mangle)]
pub extern "C" fn archive_back(
    keys: &[u8],
    archive: &[u8],
    marks: &mut [u8],
    i: usize,
    out: &mut [u8],
    length: &mut usize,
) -> u32
    ensures { ToldTable (step_back_of keys.now archive.now (table_in marks.old) i (size_of out.old) 16384)
        out.old marks.old result length.new out.new marks.new }
{
    let t = table_from(marks);
    if archive.len() <= FEW {
        return told_table(back_on::<FEW>(keys, archive, t, i, out), marks, length);
    }
    told_table(back_on::<CELLS>(keys, archive, t, i, out), marks, length)
}

// Steps an archive back to the version of a mark.
#[unsafe(no_mangle)]
pub extern "C" fn archive_back_to_mark(
    keys: &[u8],
    archive: &[u8],
    marks: &mut [u8],
    name: &[u8],
    out: &mut [u8],
    length: &mut usize,
) -> u32
    ensures { ToldTable (step_back_to_mark_of keys.now archive.now (table_in marks.old) name.now (size_of out.old) 16384)
        out.old marks.old result length.new out.new marks.new }
{
    let t = table_from(marks);
    if archive.len() <= FEW {
        return told_table(named_on::<FEW>(keys, archive, t, name, out), marks, length);
    }
    told_table(
        named_on::<CELLS>(keys, archive, t, name, out),
        marks,
        length,
    )
}

// Gives a history text over versions 1 to n than which no set of these numbers has a longer one.
#[unsafe(no_mangle)]
pub extern "C" fn archive_longest_history(n: usize, out: &mut [u8], length: &mut usize) -> u32
    ensures { LongestTold n out.old result length.new out.new }
{
    told(longest_in(n, out), length)
}
