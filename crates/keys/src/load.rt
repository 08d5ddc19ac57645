// Key lists into tables, line by line over the table of the lines before. Where a line breaks a rule, the rest is read for the notation, which goes before the rules.
ghost use Rattle.std.specs.Prelude.{◌≡◌, not, ◌+◌, ◌*◌, ◌-◌, ◌%◌, ◌<◌, ◌≤◌, eqb, length, get_or, set};
ghost use Rattle.keys.specs.Result.{refused};
ghost use Rattle.keys.specs.Meant.{row_of};
ghost use Rattle.keys.specs.KeyList.{key_list};
ghost use Rattle.keys.specs.Table.{bit_of};
ghost use Rattle.keys.specs.Rows.{Rowed};
ghost use Rattle.keys.specs.LineRead.{Upto};
ghost use Rattle.keys.specs.Contexts.{CountOfRow, last_of};
ghost use Rattle.keys.specs.Loading.{line_in, Decides, HasT, Small, KeysPut, KeysRoom, LineRoom, LinePut, Building, Adding, AddRead, Breaks, LoadRead};

use crate::contexts::{Context, Last, context_place, kept, known_context};
use crate::notation::{Line, in_notation_from, is_among, line_at};
use crate::places::KeyTable;
use crate::refusal::Refusal;
use xml::compare::same_bytes;
use xml::scan::name_len;

// How many key names stand in a row.
fn row_len(text: &[u8], from: usize, end: usize) -> usize
    requires { Rowed 2 text.now end from }
    ensures { CountOfRow 2 text.now from end result }
{
    let mut i = from;
    let mut k: usize = 0;
    // `while` and no `for`: each turn goes on by the length of what it reads.
    while i + 2 < end {
        let m = name_len(text, i + 2);
        i += 2 + m;
        k += 1;
    }
    k
}

// The path at a place is a line's: listed, and no key name's.
fn is_line(keys: &KeyTable, place: usize) -> bool
    requires { 2 * keys.now.paths ≤ length keys.now.table.now }
    ensures { result ≡ line_in keys.now.table.now keys.now.paths place }
{
    if place >= keys.paths {
        return false;
    }
    let parent = (keys.table[2 * place + 1] / 16) as usize;
    if parent >= place {
        return true;
    }
    place > parent + (keys.table[2 * parent + 1] / 2 % 8) as usize
}

// The name or a key name of a line is `T`.
fn has_t(text: &[u8], line: Line) -> bool
    requires { (line.context + 3 ≤ line.name) × (line.name ≤ length text.now) × Rowed 2 text.now line.names (line.name + 1) }
    ensures { HasT text.now (line.context + 3) line.name line.names result }
{
    if same_bytes(&text[line.context + 3..line.name], b"T") {
        return true;
    }
    is_among(text, line.name + 1, line.names, b"T")
}

// A line with so many names in its context and so many key names keeps the paths short and few, after n of them.
fn is_small(depth: usize, keys: usize, n: usize) -> bool
    requires { (depth ≤ 4096) × (keys ≤ 4096) × (n ≤ 128) }
    ensures { Decides result (Small depth keys n) }
{
    if depth + 1 > 8 {
        return false;
    }
    if keys == 0 {
        return n + 1 <= 128;
    }
    if depth + 2 > 8 {
        return false;
    }
    n + 1 + keys <= 128
}

// 1 where a line has key names: then others continue its path.
fn inner_bit(keys: usize) -> usize
    ensures { result ≡ bit_of (not (eqb keys 0)) }
{
    usize::from(keys != 0)
}

// Writes the entry of the path number i, whose name is text[start..end].
fn put_path(table: &mut [u32], i: usize, start: usize, end: usize, tail: usize)
    requires { (2 * i + 1 < length table.old) × (start ≤ end) × (end ≤ 4096) × (end - start < 64) × (tail ≤ 4096) }
    ensures { table.new ≡ set (set table.old (2 * i) (start * 64 + (end - start))) (2 * i + 1) tail }
{
    table[2 * i] = (start * 64 + (end - start)) as u32;
    table[2 * i + 1] = tail as u32;
}

// Writes the entries of the key names of the line number n, which stand in a row.
fn put_keys(text: &[u8], table: &mut [u32], n: usize, from: usize, end: usize)
    requires { KeysRoom text.now table.old n from end }
    ensures { KeysPut text.now table.old table.new n from end }
{
    let mut i = from;
    let mut k = n + 1;
    // `while` and no `for`: each turn goes on by the length of what it reads.
    while i + 2 < end {
        let m = name_len(text, i + 2);
        put_path(table, k, i + 2, i + 2 + m, n * 16);
        i += 2 + m;
        k += 1;
    }
}

// Notes that another path continues the path number i.
fn set_inner(table: &mut [u32], i: usize)
    requires { 2 * i + 1 < length table.old }
    ensures { table.new ≡ set table.old (2 * i + 1) (get_or table.old (2 * i + 1) 0 + (1 - get_or table.old (2 * i + 1) 0 % 2)) }
{
    let tail = table[2 * i + 1];
    table[2 * i + 1] = tail + (1 - tail % 2);
}

// Writes the entries of a line and of its key names after the n paths of the table.
fn put_line(text: &[u8], table: &mut [u32], n: usize, place: usize, line: Line, keys: usize)
    requires { LineRoom text.now table.old n place line.context line.name line.names keys }
    ensures { LinePut text.now table.old table.new n place line.context line.name line.names keys }
{
    put_path(
        table,
        n,
        line.context + 3,
        line.name,
        place * 16 + keys * 2 + inner_bit(keys),
    );
    put_keys(text, table, n, line.name + 1, line.names);
    set_inner(table, place);
}

// Adds the line at a place, which comes after so many lines and has this context: the number of paths after it; none, where it breaks a rule.
fn add_line(
    text: &[u8],
    at: usize,
    table: &mut [u32],
    n: usize,
    lines: usize,
    here: Context,
    line: Line,
) -> Option<usize>
    requires { Adding text.now table.old at n lines here line.context line.name line.names }
    ensures { AddRead text.now table.new lines line.names (last_of at line.context line.name n here) result }
{
    if lines == 64 {
        return None;
    }
    let before = KeyTable {
        text: &text[..at],
        table,
        paths: n,
    };
    if !is_line(&before, here.place) {
        return None;
    }
    if before.child(here.place, &text[line.context + 3..line.name]) != 129 {
        return None;
    }
    if has_t(text, line) {
        return None;
    }
    let keys = row_len(text, line.name + 1, line.names);
    if !is_small(here.depth, keys, n) {
        return None;
    }
    put_line(text, table, n, here.place, line, keys);
    Some(n + 1 + keys)
}

// Why a text is refused where a line before `from` breaks a rule: for that, unless the text is not in the notation.
fn refusal(text: &[u8], from: usize) -> Refusal
    requires { (0 < from) × Upto text.now from × Breaks text.now }
    ensures { key_list text.now ≡ refused (row_of result) }
{
    if in_notation_from(text, from) {
        return Refusal::KeyRule;
    }
    Refusal::KeyNotation
}

// The lines after the first, which ends at `from`.
fn add_lines(text: &[u8], table: &mut [u32], from: usize, first: Last) -> Result<usize, Refusal>
    requires { Building text.now table.old from 1 1 first }
    ensures { LoadRead text.now table.new result }
{
    let mut at = from;
    let mut n = 1;
    let mut lines = 1;
    let mut last = first;
    // `while` and no `for`: each turn goes on by the length of what it reads.
    while at < text.len() {
        let known = known_context(text, at, last);
        let Some(line) = line_at(text, at, known.end) else {
            return Err(Refusal::KeyNotation);
        };
        let here = context_place(text, at, table, n, known, line.context);
        let Some(m) = add_line(text, at, table, n, lines, here, line) else {
            return Err(refusal(text, line.names + 4));
        };
        last = kept(at, line, n, here);
        n = m;
        at = line.names + 4;
        lines += 1;
    }
    Ok(n)
}

// Makes the table of a key list's text, and answers how many paths it has.
pub fn load(text: &[u8], table: &mut [u32]) -> Result<usize, Refusal>
    requires { (length text.now ≤ 4096) × (length table.old ≡ 256) }
    ensures { LoadRead text.now table.new result }
{
    let Some(line) = line_at(text, 0, 1) else {
        return Err(Refusal::KeyNotation);
    };
    if line.names != line.name + 3 {
        return Err(refusal(text, line.names + 4));
    }
    if same_bytes(&text[line.context + 3..line.name], b"T") {
        return Err(refusal(text, line.names + 4));
    }
    put_path(table, 0, line.context + 3, line.name, 2048);
    let first = Last {
        start: line.context,
        end: line.context,
        name: line.name,
        context: Context::ROOT,
        own: 0,
    };
    add_lines(text, table, line.names + 4, first)
}
