// The call that an order asks for.
ghost use Rattle.std.specs.Prelude.{◌≡◌, length};
ghost use Rattle.keys.specs.Meant.{number_in, length_in};
ghost use Rattle.archive.specs.Giving.{Ends};
ghost use Rattle.station.specs.Asked.{asked};
ghost use Rattle.station.specs.AskedMarked.{told_of, found_in, listed_in, list_number, ListEnds, asked_marked, EndsAsked};

use crate::words::{Call, MarkCall};
use archive::add::add_version;
use archive::by_value::{Marked, find_mark, set_mark, step_back, step_back_to_mark};
use archive::check_keys::check_keys;
use archive::found::found;
use archive::history::give_history;
use archive::longest::longest_history;
use archive::retrieve::retrieve;
use keys::refusal::Refusal;
use marks::Table;

// The answer of a call over no table. `text` is the version or the address, where the call takes one.
pub fn ask(
    call: Call,
    keys: &[u8],
    archive: &[u8],
    text: &[u8],
    i: usize,
    out: &mut [u8],
    work: &mut [u32],
) -> Result<usize, Refusal>
    ensures { Ends (asked call keys.now archive.now text.now i (length out.old) (length work.old))
        out.old work.old (number_in result) (length_in result) out.new work.new }
{
    match call {
        Call::Check => check_keys(keys, work),
        Call::Found => found(keys, text, out, work),
        Call::Add => add_version(keys, archive, text, out, work),
        Call::Retrieve => retrieve(keys, archive, i, out, work),
        Call::History => give_history(keys, archive, text, out, work),
        Call::Longest => longest_history(i, out, work),
    }
}

// What is told of a call over a table: the number of a refusal or 0, the length of the result, the version found, and the table after the call.
#[derive(Clone, Copy)]
pub struct Told {
    pub number: u32,
    pub length: usize,
    pub version: usize,
    pub table: Table,
}

// The number of a call's refusal, or 0.
fn number(answer: Result<usize, Refusal>) -> u32
    ensures { result ≡ number_in answer }
{
    match answer {
        Ok(_) => 0,
        Err(refusal) => refusal.number(),
    }
}

// What a call gives, 0 where it is refused.
fn given(answer: Result<usize, Refusal>) -> usize
    ensures { result ≡ length_in answer }
{
    match answer {
        Ok(n) => n,
        Err(_) => 0,
    }
}

// A call that may change the table finds no version.
fn changed(m: Marked) -> Told
    ensures { result ≡ told_of m }
{
    let table = m.table;
    Told {
        number: number(m.answer),
        length: given(m.answer),
        version: 0,
        table,
    }
}

// A call that finds a version leaves the table as it is.
fn unchanged(found: Result<usize, Refusal>, table: Table) -> Told
    ensures { result ≡ found_in found table }
{
    Told {
        number: number(found),
        length: 0,
        version: given(found),
        table,
    }
}

// So does a list, of which the number alone is told.
fn listed(number: u32, table: Table) -> Told
    ensures { result ≡ listed_in number table }
{
    Told {
        number,
        length: 0,
        version: 0,
        table,
    }
}

// The number of a list's refusal, from that of finding the empty name: no mark has it, so 15 says that nothing else is wrong.
fn list_number(number: u32) -> u32
    ensures { result ≡ list_number number }
{
    if number == 15 {
        return 0;
    }
    number
}

// The number under which the list of a table's marks is refused, or 0.
fn list(keys: &[u8], archive: &[u8], t: Table, work: &mut [u32]) -> u32
    ensures { ListEnds keys.now archive.now t.held work.old result work.new }
{
    let found = find_mark(keys, archive, t, b"", work);
    list_number(number(found))
}

// What is told of a call over a table. `name` is the mark's, where the call takes one.
pub fn ask_marked(
    call: MarkCall,
    keys: &[u8],
    archive: &[u8],
    t: Table,
    name: &[u8],
    i: usize,
    out: &mut [u8],
    work: &mut [u32],
) -> Told
    ensures { EndsAsked (asked_marked call keys.now archive.now t.held name.now i (length out.old) (length work.old))
        out.old work.old result out.new work.new }
{
    match call {
        MarkCall::Set => changed(set_mark(keys, archive, t, name, i, work)),
        MarkCall::Find => unchanged(find_mark(keys, archive, t, name, work), t),
        MarkCall::List => listed(list(keys, archive, t, work), t),
        MarkCall::Back => changed(step_back(keys, archive, t, i, out, work)),
        MarkCall::BackToMark => changed(step_back_to_mark(keys, archive, t, name, out, work)),
    }
}
