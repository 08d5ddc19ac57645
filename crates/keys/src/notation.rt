// The notation of key lists: a scanner over the bytes of a line. Each byte is looked at a bounded number of times.
ghost use Rattle.std.specs.Prelude.{◌≡◌, List, ◌+◌, ◌<◌, ◌≤◌, length, drop};
ghost use Rattle.std.proofs.Math.Seq.{slice};
ghost use Rattle.xml.specs.Bytes.{Bytes, any, distinct, same as same_bytes};
ghost use Rattle.keys.specs.Rows.{Row, Rowed};
ghost use Rattle.keys.specs.LineScans.{path_run, Begun, names_end};
ghost use Rattle.keys.specs.LineRead.{ContextRead, KeysRead, NameRead, LineRead, Upto, NotationRead};

use xml::compare::same_bytes;
use xml::scan::{name_len, same};

// The ends of a line's context, its name and its key names.
#[derive(Clone, Copy)]
pub struct Line {
    pub context: usize,
    pub name: usize,
    pub names: usize,
}

// The end of the names that stand at a place, each after a `/`.
fn path_end(text: &[u8], from: usize) -> usize
    requires { from ≤ length text.now }
    ensures { result ≡ from + path_run 0 (drop from text.now) }
{
    let mut i = from;
    // `while` and no `for`: each turn goes on by the length of what it reads.
    while same(text, i, b"/") == 1 {
        let n = name_len(text, i + 1);
        if n == 0 {
            return i;
        }
        i += 1 + n;
    }
    i
}

// The end of one to four names with `, ` between two, or none; the first stands two bytes after `from`.
fn names_end(text: &[u8], from: usize) -> Option<usize>
    requires { from + 2 ≤ length text.now }
    ensures { result ≡ names_end text.now 4 from }
{
    let mut i = from;
    for _name in 0..4usize {
        let n = name_len(text, i + 2);
        if n == 0 {
            return None;
        }
        i += 2 + n;
        if same(text, i, b", ") != 2 {
            return Some(i);
        }
    }
    None
}

// The end of the context of the line at a place, after its `(`; of a path that stands there, the names before `from` are known.
fn context_end(text: &[u8], at: usize, from: usize) -> Option<usize>
    requires { (at ≤ length text.now) × Begun text.now at from }
    ensures { ContextRead text.now at result }
{
    if at == 0 {
        if same(text, at, b"(/") == 2 {
            return Some(at + 2);
        }
        return None;
    }
    if same(text, at, b"(") != 1 {
        return None;
    }
    let end = path_end(text, from);
    if end == at + 1 {
        return None;
    }
    Some(end)
}

// The end of the key names, at most four, that stand two bytes after a place.
fn keys_end(text: &[u8], from: usize) -> Option<usize>
    requires { from + 2 ≤ length text.now }
    ensures { KeysRead text.now from result }
{
    if same(text, from + 2, b"}") == 1 {
        return Some(from + 2);
    }
    names_end(text, from)
}

// The word is one of the names of a row, each two bytes after the one before it.
pub fn is_among(text: &[u8], from: usize, end: usize, word: &[u8]) -> bool
    requires { Rowed 2 text.now end from }
    ensures { (ns : List Bytes) → Row 2 text.now end from ns → result ≡ any (same_bytes word.now) ns }
{
    let mut i = from;
    // `while` and no `for`: each turn goes on by the length of what it reads.
    while i + 2 < end {
        let n = name_len(text, i + 2);
        if same_bytes(word, &text[i + 2..i + 2 + n]) {
            return true;
        }
        i += 2 + n;
    }
    false
}

// No two names of a row are the same.
fn are_distinct(text: &[u8], from: usize, end: usize) -> bool
    requires { Rowed 2 text.now end from }
    ensures { (ns : List Bytes) → Row 2 text.now end from ns → result ≡ distinct same_bytes ns }
{
    let mut i = from;
    // `while` and no `for`: each turn goes on by the length of what it reads.
    while i + 2 < end {
        let n = name_len(text, i + 2);
        if is_among(text, i + 2 + n, end, &text[i + 2..i + 2 + n]) {
            return false;
        }
        i += 2 + n;
    }
    true
}

// The line at a place, from the end of its name on; none, where it is not in the notation.
fn line_end(text: &[u8], at: usize, context: usize, name: usize) -> Option<Line>
    requires { NameRead text.now at context name }
    ensures { LineRead text.now at result }
{
    let names = keys_end(text, name + 1)?;
    if same(text, names, b"}))\n") != 4 {
        return None;
    }
    if !are_distinct(text, name + 1, names) {
        return None;
    }
    Some(Line {
        context,
        name,
        names,
    })
}

// The line at a place, if it is in the notation; of a path that stands after its `(`, the names before `from` are known.
pub fn line_at(text: &[u8], at: usize, from: usize) -> Option<Line>
    requires { (at ≤ length text.now) × Begun text.now at from }
    ensures { LineRead text.now at result }
{
    let context = context_end(text, at, from)?;
    if same(text, context, b", (") != 3 {
        return None;
    }
    let name = context + 3 + name_len(text, context + 3);
    if name == context + 3 {
        return None;
    }
    if same(text, name, b", {") != 3 {
        return None;
    }
    line_end(text, at, context, name)
}

// The whole text is lines in the notation: those before `from` are, one at least, and the rest is read.
pub fn in_notation_from(text: &[u8], from: usize) -> bool
    requires { (0 < from) × Upto text.now from }
    ensures { NotationRead text.now result }
{
    let mut at = from;
    // `while` and no `for`: each turn goes on by the length of what it reads.
    while at < text.len() {
        let Some(line) = line_at(text, at, at + 1) else {
            return false;
        };
        at = line.names + 4;
    }
    true
}
