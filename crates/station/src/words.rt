// The words of the command line, and what is said where they are wrong.
ghost use Rattle.std.specs.Prelude.{◌≤◌, length, IfSome};

use crate::number::number;
use files::{read_file, say, say_failure};
use std::env::FillError;
use std::io;
use std::rt::Env;

// The system's numbers of two errors: a word that is not there, and a file's name that is too long.
const NO_SUCH_WORD: i32 = 22;

const NAME_TOO_LONG: i32 = 36;

// A call that takes no table of marks.
#[derive(Clone, Copy)]
pub enum Call {
    Check,
    Found,
    Add,
    Retrieve,
    History,
    Longest,
}

// What is asked over a table of marks: one of the calls, or the list of its marks.
#[derive(Clone, Copy)]
pub enum MarkCall {
    Set,
    Find,
    List,
    Back,
    BackToMark,
}

// What the first word asks for.
#[derive(Clone, Copy)]
pub enum Order {
    Plain(Call),
    Marked(MarkCall),
}

// How the command is called.
const USAGE: &str = "usage: station check KEYS
       station found KEYS VERSION
       station add KEYS ARCHIVE VERSION
       station retrieve KEYS ARCHIVE I
       station history KEYS ARCHIVE ADDRESS
       station mark KEYS ARCHIVE MARKS NAME I
       station find KEYS ARCHIVE MARKS NAME
       station marks KEYS ARCHIVE MARKS
       station back KEYS ARCHIVE MARKS I
       station back KEYS ARCHIVE MARKS @NAME
       station longest N
";

// Says how the command is called.
pub fn usage(rt: &HostRuntime) {
    let _ = rt.eprint(USAGE);
}

// A step back, to a version's number or, where the last word starts with `@`, to the mark whose name follows.
fn back_call(rt: &HostRuntime) -> MarkCall {
    let mut word = [0u8; 1];
    let _ = rt.arg(5, &mut word);
    if word[0] == b'@' {
        MarkCall::BackToMark
    } else {
        MarkCall::Back
    }
}

// What a first word asks, of so many words in all, the program's name among them.
fn order_of(rt: &HostRuntime, word: &[u8], count: usize) -> Option<Order> {
    Some(match (count, word) {
        (3, b"check") => Order::Plain(Call::Check),
        (3, b"longest") => Order::Plain(Call::Longest),
        (4, b"found") => Order::Plain(Call::Found),
        (5, b"add") => Order::Plain(Call::Add),
        (5, b"retrieve") => Order::Plain(Call::Retrieve),
        (5, b"history") => Order::Plain(Call::History),
        (5, b"marks") => Order::Marked(MarkCall::List),
        (6, b"find") => Order::Marked(MarkCall::Find),
        (6, b"back") => Order::Marked(back_call(rt)),
        (7, b"mark") => Order::Marked(MarkCall::Set),
        _ => return None,
    })
}

// How many words the command line has, the program's name among them; 8 stands for all from there on, as no order has so many.
fn word_count(rt: &HostRuntime) -> usize {
    let mut word = [0u8; 1];
    for i in 0..8 {
        if let Err(FillError::NotPresent) = rt.arg(i, &mut word) {
            return i;
        }
    }
    8
}

// Word i, put into buf; none of its bytes where there is no such word, or where it is longer than buf.
pub fn short_word<'a>(rt: &HostRuntime, i: usize, buf: &'a mut [u8]) -> &'a [u8]
    ensures { length result.now ≤ length buf.old }
{
    let n = rt.arg(i, buf).unwrap_or(0);
    &buf[..n]
}

// The order of the command line, if it is one.
pub fn order_word(rt: &HostRuntime) -> Option<Order> {
    let mut word = [0u8; 16];
    order_of(rt, short_word(rt, 1, &mut word), word_count(rt))
}

// Why a word could not be taken, in the system's words.
fn word_failure(error: FillError) -> io::Error {
    io::Error::from_raw_os_error(match error {
        FillError::NotPresent => NO_SUCH_WORD,
        FillError::TooLong => NAME_TOO_LONG,
    })
}

// Reads the file that word i names, as far as buf goes; says why where it can't be read.
pub fn file_word<'a>(rt: &HostRuntime, i: usize, buf: &'a mut [u8]) -> Option<&'a [u8]>
    ensures { IfSome result (λ bytes. length bytes.now ≤ length buf.old) }
{
    let mut name = [0u8; 4096];
    match rt.arg(i, &mut name) {
        Ok(n) => read_file(rt, b"station: ", &name[..n], buf),
        Err(error) => {
            say_failure(rt, b"station: a file's name", &word_failure(error));
            None
        }
    }
}

// Reads the key list, of an order that takes one.
pub fn keys_word<'a>(rt: &HostRuntime, order: Order, buf: &'a mut [u8]) -> Option<&'a [u8]>
    ensures { IfSome result (λ bytes. length bytes.now ≤ length buf.old) }
{
    match order {
        Order::Plain(Call::Longest) => Some(b""),
        _ => file_word(rt, 2, buf),
    }
}

// Reads the archive, of a call that takes one.
pub fn archive_word<'a>(rt: &HostRuntime, call: Call, buf: &'a mut [u8]) -> Option<&'a [u8]>
    ensures { IfSome result (λ bytes. length bytes.now ≤ length buf.old) }
{
    match call {
        Call::Add | Call::Retrieve | Call::History => file_word(rt, 3, buf),
        _ => Some(b""),
    }
}

// Word i itself, an address or the name of a mark; of one that is longer than buf, its first bytes.
fn word_at<'a>(rt: &HostRuntime, i: usize, buf: &'a mut [u8]) -> &'a [u8]
    ensures { length result.now ≤ length buf.old }
{
    let length = match rt.arg(i, buf) {
        Ok(n) => n,
        Err(FillError::TooLong) => buf.len(),
        Err(FillError::NotPresent) => 0,
    };
    &buf[..length]
}

// The version or the address, of a call that takes one.
pub fn text_word<'a>(rt: &HostRuntime, call: Call, buf: &'a mut [u8]) -> Option<&'a [u8]>
    ensures { IfSome result (λ bytes. length bytes.now ≤ length buf.old) }
{
    match call {
        Call::Found => file_word(rt, 3, buf),
        Call::Add => file_word(rt, 4, buf),
        Call::History => Some(word_at(rt, 4, buf)),
        _ => Some(b""),
    }
}

// The name of a mark, after its `@` where it has one, of what takes one.
pub fn name_word<'a>(rt: &HostRuntime, call: MarkCall, buf: &'a mut [u8]) -> &'a [u8]
    ensures { length result.now ≤ length buf.old }
{
    match call {
        MarkCall::Set | MarkCall::Find => word_at(rt, 5, buf),
        MarkCall::BackToMark => {
            let word = word_at(rt, 5, buf);
            &word[word.len().min(1)..]
        }
        _ => b"",
    }
}

// The number that word i is; says so where it is none.
fn number_word(rt: &HostRuntime, i: usize) -> Option<usize> {
    let mut word = [0u8; 4096];
    let word = short_word(rt, i, &mut word);
    let got = number(word);
    if got.is_none() {
        say(rt, b"station: not a number: ");
        say(rt, word);
        say(rt, b"\n");
    }
    got
}

// The version's number, of a call that takes one; 0 of others.
pub fn index_word(rt: &HostRuntime, call: Call) -> Option<usize> {
    match call {
        Call::Retrieve => number_word(rt, 4),
        Call::Longest => number_word(rt, 2),
        _ => Some(0),
    }
}

// The same, over a table.
pub fn marked_index_word(rt: &HostRuntime, call: MarkCall) -> Option<usize> {
    match call {
        MarkCall::Set => number_word(rt, 6),
        MarkCall::Back => number_word(rt, 5),
        _ => Some(0),
    }
}
