// Contexts of lines: where their paths stand in the table of the lines before. A context mostly begins with that of the line before, or with its path: that much of it is neither scanned nor looked up.
ghost use Rattle.std.specs.Prelude.{◌≡◌, ◌+◌, ◌<◌, ◌≤◌, length, drop};
ghost use Rattle.std.proofs.Math.Seq.{slice};
ghost use Rattle.keys.specs.KeyList.{KeyList};
ghost use Rattle.keys.specs.Contexts.{ContextOf, last_of, PartsIn, LastIs, stands_whole, KnownIs, Contexting};

use crate::notation::Line;
use crate::places::KeyTable;
use xml::compare::same_long;
use xml::scan::{byte_at, name_len};

// A context: the place of its path, and how many names it has.
#[derive(Clone, Copy)]
pub struct Context {
    pub place: usize,
    pub depth: usize,
}

impl Context {
    // The root's context: no names, above the root.
    pub const ROOT: Context = Context {
        place: 128,
        depth: 0,
    };
}

// The beginning of a context: where it ends, and the context that it is so far.
#[derive(Clone, Copy)]
pub struct Known {
    pub end: usize,
    pub context: Context,
}

// What is kept of a line: where its context starts and ends and its name ends, its context, and the place of its own path.
#[derive(Clone, Copy)]
pub struct Last {
    pub start: usize,
    pub end: usize,
    pub name: usize,
    pub context: Context,
    pub own: usize,
}

// What is kept of the line at a place, whose context has this place and whose path has the number n.
pub fn kept(at: usize, line: Line, n: usize, here: Context) -> Last
    requires { at < 4096 }
    ensures { result ≡ last_of at line.context line.name n here }
{
    Last {
        start: at + 1,
        end: line.context,
        name: line.name,
        context: here,
        own: n,
    }
}

// The bytes text[a..e] stand at a place too, and after them a path ends or goes on: `,` or `/`.
fn stand_whole(text: &[u8], at: usize, a: usize, e: usize) -> bool
    requires { (at ≤ length text.now) × (a ≤ e) × (e ≤ length text.now) }
    ensures { result ≡ stands_whole (slice a e text.now) (drop at text.now) }
{
    if text.len() - at <= e - a {
        return false;
    }
    if !same_long(&text[at..at + (e - a)], &text[a..e]) {
        return false;
    }
    let next = text[at + (e - a)];
    next == b',' || next == b'/'
}

// What is known of the context of the line at a place from the last line: it begins with that one's path, or with its context.
pub fn known_context(text: &[u8], at: usize, last: Last) -> Known
    requires { PartsIn text.now last × (last.context.depth ≤ 8) × (at < length text.now) }
    ensures { (K : KeyList) → LastIs text.now K last → KnownIs text.now at K result }
{
    let from = at + 1;
    if !stand_whole(text, from, last.start, last.end) {
        return Known {
            end: from,
            context: Context::ROOT,
        };
    }
    let end = from + (last.end - last.start);
    let shared = Known {
        end,
        context: last.context,
    };
    if byte_at(text, end) != b'/' {
        return shared;
    }
    if !stand_whole(text, end + 1, last.end + 3, last.name) {
        return shared;
    }
    Known {
        end: end + 1 + (last.name - (last.end + 3)),
        context: Context {
            place: last.own,
            depth: last.context.depth + 1,
        },
    }
}

// The context of the line at a place, which ends at `end`: the names after those that are known are looked up in the table of the lines before.
pub fn context_place(
    text: &[u8],
    at: usize,
    table: &[u32],
    n: usize,
    known: Known,
    end: usize,
) -> Context
    requires { Contexting text.now table.now at n known end }
    ensures { ContextOf text.now at table.now n (at + 1) end result }
{
    let before = KeyTable {
        text: &text[..at],
        table,
        paths: n,
    };
    let mut place = known.context.place;
    let mut depth = known.context.depth;
    let mut i = known.end;
    // `while` and no `for`: each turn goes on by the length of what it reads.
    while i + 1 < end {
        let m = name_len(text, i + 1);
        place = before.child(place, &text[i + 1..i + 1 + m]);
        depth += 1;
        i += 1 + m;
    }
    Context { place, depth }
}
