// The watchroom's command: the calls on files, the result on standard output, a table of marks in its file.
#![tactic(auto)]

mod ask;
mod number;
mod table;
mod words;

use ask::{Told, ask, ask_marked};
use files::{say_failure, say_refusal, within};
use keys::refusal::Refusal;
use marks::bytes::table_from;
use std::io;
use table::{keep_table, list_marks, table_word};
use words::{
    Call, MarkCall, Order, archive_word, file_word, index_word, keys_word, marked_index_word,
    name_word, order_word, text_word, usage,
};

// Says so where standard output was not written, and answers whether it was.
fn is_told(rt: &HostRuntime, written: io::Result<()>) -> bool {
    match written {
        Ok(()) => true,
        Err(error) => {
            say_failure(rt, b"station: standard output", &error);
            false
        }
    }
}

// Writes a result of so many bytes to standard output.
fn give(rt: &HostRuntime, length: usize, out: &[u8]) -> bool {
    let n = within(length, out);
    is_told(rt, rt.write_all(&out[..n]))
}

// Writes the result of a call to standard output, or says its refusal.
fn tell(rt: &HostRuntime, answer: Result<usize, Refusal>, out: &[u8]) {
    match answer {
        Ok(length) => {
            give(rt, length, out);
        }
        Err(refusal) => say_refusal(rt, refusal.number()),
    }
}

// Writes a version's number, and LF.
fn give_version(rt: &HostRuntime, version: usize) -> io::Result<()> {
    println!(rt; "{version}")
}

// Writes an archive, and then its table into the file: where the first is interrupted or fails, the table of before stays.
fn tell_back(rt: &HostRuntime, told: Told, table: &[u8], out: &[u8]) {
    if give(rt, told.length, out) {
        let new = told.table;
        keep_table(rt, new, table);
    }
}

// Tells of a call over a table whose file has these bytes, or says its refusal.
fn tell_marked(rt: &HostRuntime, call: MarkCall, told: Told, table: &[u8], out: &[u8]) {
    if told.number != 0 {
        say_refusal(rt, told.number);
        return;
    }
    let new = told.table;
    match call {
        MarkCall::Set => keep_table(rt, new, table),
        MarkCall::Find => {
            is_told(rt, give_version(rt, told.version));
        }
        MarkCall::List => {
            is_told(rt, list_marks(rt, new));
        }
        _ => tell_back(rt, told, table, out),
    }
}

// Fixed memory for what the words name, the result and the work cells: nothing is allocated. The buffer of a text, or of a table's file, is
// one byte longer than that may be, so that a longer one is refused as such.
#[derive(Drop)]
struct Memory {
    archive: [u8; 32769],
    table: [u8; 609],
    text: [u8; 16385],
    out: [u8; 32768],
    work: [u32; 16384],
}

// Asks a call without a table under a key list, on what the other words name; none where one can't be read, which has been said.
fn run_plain(rt: &HostRuntime, call: Call, keys: &[u8], memory: &mut Memory) -> Option<()> {
    let archive = archive_word(rt, call, &mut memory.archive)?;
    let text = text_word(rt, call, &mut memory.text)?;
    let i = index_word(rt, call)?;
    let answer = ask(
        call,
        keys,
        archive,
        text,
        i,
        &mut memory.out,
        &mut memory.work,
    );
    tell(rt, answer, &memory.out);
    Some(())
}

// The same over a table; a file of another length than 608 bytes is a table that is refused with 17.
fn run_marked(rt: &HostRuntime, call: MarkCall, keys: &[u8], memory: &mut Memory) -> Option<()> {
    let archive = file_word(rt, 3, &mut memory.archive)?;
    let table = table_word(rt, &mut memory.table)?;
    let name = name_word(rt, call, &mut memory.text);
    let i = marked_index_word(rt, call)?;
    let lent = table_from(table);
    let told = ask_marked(
        call,
        keys,
        archive,
        lent,
        name,
        i,
        &mut memory.out,
        &mut memory.work,
    );
    tell_marked(rt, call, told, table, &memory.out);
    Some(())
}

// Reads the key list, where one is taken, and asks.
fn run(rt: &HostRuntime, order: Order, memory: &mut Memory) -> Option<()> {
    let mut keys = [0u8; 4097];
    let keys = keys_word(rt, order, &mut keys)?;
    match order {
        Order::Plain(call) => run_plain(rt, call, keys, memory),
        Order::Marked(call) => run_marked(rt, call, keys, memory),
    }
}

fn main(rt: HostRuntime) {
    let mut memory = Memory {
        archive: [0; 32769],
        table: [0; 609],
        text: [0; 16385],
        out: [0; 32768],
        work: [0; 16384],
    };
    match order_word(&rt) {
        None => usage(&rt),
        Some(order) => {
            let _ = run(&rt, order, &mut memory);
        }
    }
}
