// The call that gives the history of an address.
ghost use Rattle.std.specs.Prelude.{◌≤◌, length};
ghost use Rattle.xml.specs.Forest.{Forest};
ghost use Rattle.xml.specs.Tape.{Tape};
ghost use Rattle.keys.specs.KeyList.{KeyList};
ghost use Rattle.keys.specs.Table.{Table as TableOf};
ghost use Rattle.keys.specs.Meant.{number_in, length_in};
ghost use Rattle.versions.specs.Calls.{give, history as history_answer};
ghost use Rattle.legality.specs.Opened.{Roomy};
ghost use Rattle.archive.specs.Giving.{Gives, Ends};
ghost use Rattle.walks.specs.HistoryParts.{HistoryAsked, OfHistory};
ghost use Rattle.archive.specs.HistoryCall.{SomeArchive, history_for, history_from};

use crate::steps::{at_most, room};
use keys::address::{Parsed, parse_address};
use keys::load::load;
use keys::places::KeyTable;
use keys::refusal::Refusal;
use legality::open::open;
use walks::history::history;
use xml::tape::{Document, clear};

// Gives the history of an accepted address in the archive on the tape, if it fits.
fn give_times(
    keys: &KeyTable,
    s: &[u8],
    steps: Parsed,
    values: [[usize; 4]; 8],
    doc: &Document,
    hi: usize,
    out: &mut [u8],
) -> Result<usize, Refusal>
    requires { HistoryAsked keys.now.text.now keys.now.table.now keys.now.paths s.now steps values doc.now.src.now doc.now.tape.now hi }
    ensures { OfHistory keys.now.text.now keys.now.table.now keys.now.paths s.now doc.now.src.now doc.now.tape.now hi
        (λ w. Gives (give (length out.old) w) (number_in result) (length_in result) out.old out.new) }
{
    let mut none = [0u8; 0];
    let count = history(keys, s, steps, values, doc, hi, &mut none, 0);
    if out.len() < count {
        return Err(Refusal::OutputTooShort);
    }
    history(keys, s, steps, values, doc, hi, out, 0);
    Ok(count)
}

// Gives the history of an address in the archive on the tape.
fn history_on(
    keys: &KeyTable,
    doc: &Document,
    hi: usize,
    address: &[u8],
    out: &mut [u8],
) -> Result<usize, Refusal>
    requires { SomeArchive keys.now.text.now keys.now.table.now keys.now.paths doc.now.src.now doc.now.tape.now hi × (length address.now ≤ 2560) }
    ensures { (K : KeyList) (f : Forest) → TableOf keys.now.text.now keys.now.table.now keys.now.paths K → Tape doc.now.src.now doc.now.tape.now 0 hi f
        → Gives (history_for K address.now (length out.old) f) (number_in result) (length_in result) out.old out.new }
{
    let mut values = [[0usize; 4]; 8];
    let Some(steps) = parse_address(keys, address, &mut values) else {
        return Err(Refusal::AddressIllegal);
    };
    give_times(keys, address, steps, values, doc, hi, out)
}

// Gives the history of an address, with room to work in.
pub fn history_in(
    keys: &[u8],
    archive: &[u8],
    address: &[u8],
    out: &mut [u8],
    work: &mut [u32],
) -> Result<usize, Refusal>
    requires { Roomy archive.now work.old }
    ensures { Gives (history_from keys.now archive.now address.now (length out.old)) (number_in result) (length_in result) out.old out.new }
{
    at_most(keys, 4096)?;
    at_most(archive, 32768)?;
    at_most(address, 2560)?;
    let mut table = [0u32; 256];
    let paths = load(keys, &mut table)?;
    let list = KeyTable {
        text: keys,
        table: &table,
        paths,
    };
    let opened = open(&list, archive, work)?;
    let doc = Document {
        src: archive,
        tape: work,
    };
    history_on(&list, &doc, opened.nodes, address, out)
}

// Gives the history of an address.
pub fn give_history(
    keys: &[u8],
    archive: &[u8],
    address: &[u8],
    out: &mut [u8],
    work: &mut [u32],
) -> Result<usize, Refusal>
    ensures { Ends (history_answer keys.now archive.now address.now (length out.old) (length work.old))
        out.old work.old (number_in result) (length_in result) out.new work.new }
{
    room(work)?;
    let answer = history_in(keys, archive, address, out, work);
    clear(work);
    answer
}
