// The text of a changed set, made from the set's own: the bytes of it that stay, and what comes after them.
ghost use Rattle.std.specs.Prelude.{◌≡◌, ◌+◌, ◌-◌, ◌<◌, ◌≤◌, length};
ghost use Rattle.timestamp.specs.Times.{decimal};
ghost use Rattle.timestamp.specs.Set.{adding, cut_at};
ghost use Rattle.timestamp.specs.Place.{IsSet, IsSetTo, LastStart};
ghost use Rattle.timestamp.specs.Narrow.{NextStart, Bracket, Narrowed};
ghost use Rattle.timestamp.specs.Change.{is_void, Changes};

use crate::text::{number_at, run_at};

// What comes after the bytes that stay: nothing, or a number, after a dash, after a comma or alone.
#[derive(Clone, Copy, PartialEq, Eq)]
pub enum Tail {
    Nothing,
    Dashed,
    Listed,
    Alone,
}

// The first `to` bytes stay, and the tail comes after them.
#[derive(Clone, Copy)]
pub struct Change {
    pub to: usize,
    pub tail: Tail,
}

impl Change {
    // Whether the changed text is empty.
    pub fn is_empty(self) -> bool
        ensures { result ≡ is_void self.to self.tail }
    {
        match self.tail {
            Tail::Nothing => self.to == 0,
            Tail::Dashed | Tail::Listed | Tail::Alone => false,
        }
    }
}

// How many digits a number has.
fn size(n: usize) -> usize
    requires { (1 ≤ n) × (n < 1000) }
    ensures { (result ≡ length (decimal n)) × (result ≤ 3) }
{
    if n < 10 {
        return 1;
    }
    if n < 100 {
        return 2;
    }
    3
}

// The place where the last run of a text begins.
fn last_start(text: &[u8]) -> usize
    ensures { LastStart text.now result }
{
    match text.iter().rposition(|&b| b == b',') {
        Some(comma) => comma + 1,
        None => 0,
    }
}

// The text of a set of some of the numbers 1 to n, with n + 1 added: only its last run is read.
pub fn grown(text: &[u8], n: usize) -> Change
    requires { IsSetTo n text.now × (n ≤ 998) }
    ensures { Changes text.now (adding (n + 1)) (n + 1) result.to result.tail }
{
    let at = last_start(text);
    let run = run_at(text, at, 0).unwrap();
    if run.hi < n {
        return Change {
            to: text.len(),
            tail: Tail::Listed,
        };
    }
    if run.lo == run.hi {
        return Change {
            to: text.len(),
            tail: Tail::Dashed,
        };
    }
    Change {
        to: at + size(run.lo) + 1,
        tail: Tail::Alone,
    }
}

// The place after a text's first comma, or its end.
fn first_start(text: &[u8]) -> usize
    ensures { NextStart text.now 0 result }
{
    match text.iter().position(|&b| b == b',') {
        Some(comma) => comma + 1,
        None => text.len(),
    }
}

// The place after the next comma from a place on, or the text's end.
fn next_start(text: &[u8], at: usize) -> usize
    requires { at ≤ length text.now }
    ensures { NextStart text.now at result }
{
    at + first_start(&text[at..])
}

// The half of the places lo to hi where the last run is that begins at v or below it.
fn halve(text: &[u8], lo: usize, hi: usize, v: usize) -> (usize, usize)
    requires { Bracket text.now v lo hi × (lo + 1 < hi) }
    ensures { Bracket text.now v result.0 result.1 × (result.1 - result.0 < hi - lo) }
{
    let mid = lo + (hi - lo) / 2;
    let next = next_start(text, mid - 1);
    if hi <= next {
        return (lo, mid);
    }
    let first = number_at(text, next).unwrap();
    if first.n <= v {
        return (next, hi);
    }
    (lo, mid)
}

// The place of the last run that begins at v or below it, or of the first run.
fn narrow(text: &[u8], v: usize) -> usize
    requires { IsSet text.now }
    ensures { Narrowed text.now v result }
{
    let mut lo = 0;
    let mut hi = text.len();
    while lo + 1 < hi {
        (lo, hi) = halve(text, lo, hi, v);
    }
    lo
}

// The text of a set, cut at i: no number above i stays. One run is read.
pub fn cut_at(text: &[u8], i: usize) -> Change
    requires { IsSet text.now }
    ensures { Changes text.now (cut_at i) i result.to result.tail }
{
    let at = narrow(text, i);
    let run = run_at(text, at, 0).unwrap();
    let lo = run.lo;
    if i < lo {
        return Change {
            to: 0,
            tail: Tail::Nothing,
        };
    }
    if run.hi <= i {
        return Change {
            to: run.to,
            tail: Tail::Nothing,
        };
    }
    let to = at + size(lo);
    if lo == i {
        return Change {
            to,
            tail: Tail::Nothing,
        };
    }
    Change {
        to,
        tail: Tail::Dashed,
    }
}
