// A timestamp's text read: whether a number belongs to it, and the set that it is the text of.
ghost use Rattle.std.specs.Prelude.{◌≡◌, true, false, ◌+◌, ◌-◌, ◌*◌, ◌<◌, ◌≤◌, min, get_or, length};
ghost use Rattle.timestamp.specs.Times.{belongs as is_in};
ghost use Rattle.timestamp.specs.Belongs.{dashed, stepped, holds as in_span};
ghost use Rattle.timestamp.specs.Set.{set_of, empty_set};
ghost use Rattle.timestamp.specs.Parse.{parsed, pick_outcome, told};
ghost use Rattle.timestamp.specs.Numbers.{NumberRead, is_first};
ghost use Rattle.timestamp.specs.RunAt.{RunRead};
ghost use Rattle.timestamp.specs.TakenText.{TakesText};
ghost use Rattle.xml.specs.Bytes.{is_digit};

use crate::Timestamp;
use xml::class::is_digit;

// What is read of a run: the dashes in it (2 for more), the number before the last of them, and the number so far (1000 for more).
#[derive(Clone, Copy)]
pub struct Span {
    pub dashes: usize,
    pub lo: usize,
    pub n: usize,
}

// The byte at a place; past the end a comma, as the end of the text ends its last run.
fn byte_at(text: &[u8], at: usize) -> u8
    ensures { result ≡ get_or text.now at 44 }
{
    text.get(at).copied().unwrap_or(b',')
}

// The digit that a byte stands for; 0 for a byte before `0`.
fn digit(b: u8) -> usize
    ensures { (result ≡ b - 48) × (result < 256) }
{
    b.saturating_sub(b'0') as usize
}

// The number n with one digit more.
fn grow(n: usize, b: u8) -> usize
    requires { n ≤ 1000 }
    ensures { result ≡ min 1000 (10 * n + (b - 48)) }
{
    (10 * n + digit(b)).min(1000)
}

// One dash more.
fn dash(k: usize) -> usize
    ensures { result ≡ dashed k }
{
    if k == 0 { 1 } else { 2 }
}

impl Span {
    // A byte of the run more. A number below 100 may take a digit with no look at the bound.
    fn step(self, b: u8) -> Self
        requires { self.n ≤ 1000 }
        ensures { (result ≡ stepped self b) × (result.n ≤ 1000) }
    {
        if self.n < 100 {
            if is_digit(b) {
                return Span {
                    dashes: self.dashes,
                    lo: self.lo,
                    n: 10 * self.n + digit(b),
                };
            }
        }
        if b == b'-' {
            return Span {
                dashes: dash(self.dashes),
                lo: self.n,
                n: 0,
            };
        }
        Span {
            dashes: self.dashes,
            lo: self.lo,
            n: grow(self.n, b),
        }
    }

    // Whether v is in the run.
    fn holds(self, v: usize) -> bool
        ensures { result ≡ in_span self v }
    {
        match self.dashes {
            0 => v == self.n,
            1 => (self.lo..=self.n).contains(&v),
            _ => false,
        }
    }
}

// Whether v is in the set with this text: a turn of the outer loop for each run, and in it a turn of the inner loop for each byte of the run.
// Document 01 asks for this form: a loop over the runs that ends by break, and in it one over the bytes.
pub fn belongs(text: &[u8], v: usize) -> bool
    requires { v < 1000 }
    ensures { result ≡ is_in v text.now }
{
    let mut at = 0;
    loop {
        let mut run = Span {
            dashes: 0,
            lo: 0,
            n: 0,
        };
        let mut b = byte_at(text, at);
        while b != b',' {
            run = run.step(b);
            at += 1;
            b = byte_at(text, at);
        }
        if run.holds(v) {
            break true;
        }
        if text.len() <= at {
            break false;
        }
        at += 1;
    }
}

// A number that a text has at a place, and the place after it.
#[derive(Clone, Copy)]
pub struct Number {
    pub n: usize,
    pub to: usize,
}

// Whether a number of 1 to 999 may begin with this byte.
fn is_first(b: u8) -> bool
    ensures { result ≡ is_first b }
{
    (b'1'..=b'9').contains(&b)
}

// The number of two digits.
fn two_digits(a: u8, b: u8) -> usize
    ensures { result ≡ 10 * (a - 48) + (b - 48) }
{
    10 * digit(a) + digit(b)
}

// The number at a place after which the text has two bytes at most.
fn short_at(text: &[u8], at: usize) -> Option<Number>
    requires { (at ≤ length text.now) × (length text.now < at + 3) }
    ensures { NumberRead text.now at result }
{
    if text.len() <= at {
        return None;
    }
    let a = text[at];
    if is_first(a) {
        if text.len() - at < 2 {
            return Some(Number {
                n: digit(a),
                to: at + 1,
            });
        }
        let b = text[at + 1];
        if is_digit(b) {
            return Some(Number {
                n: two_digits(a, b),
                to: at + 2,
            });
        }
        return Some(Number {
            n: digit(a),
            to: at + 1,
        });
    }
    None
}

// The number at a place after which the text has three bytes or more, of which three digits at most are read.
fn long_at(text: &[u8], at: usize) -> Option<Number>
    requires { at + 3 ≤ length text.now }
    ensures { NumberRead text.now at result }
{
    let a = text[at];
    if is_first(a) {
        let b = text[at + 1];
        if is_digit(b) {
            let c = text[at + 2];
            if is_digit(c) {
                return Some(Number {
                    n: 10 * two_digits(a, b) + digit(c),
                    to: at + 3,
                });
            }
            return Some(Number {
                n: two_digits(a, b),
                to: at + 2,
            });
        }
        return Some(Number {
            n: digit(a),
            to: at + 1,
        });
    }
    None
}

// The number at a place.
pub(crate) fn number_at(text: &[u8], at: usize) -> Option<Number>
    requires { at ≤ length text.now }
    ensures { NumberRead text.now at result }
{
    if text.len() - at < 3 {
        short_at(text, at)
    } else {
        long_at(text, at)
    }
}

// A run that a text has at a place: its first and its last number, and the place after it.
#[derive(Clone, Copy)]
pub struct Run {
    pub lo: usize,
    pub hi: usize,
    pub to: usize,
}

// The run at a place near the text's end, which must begin past the bound p.
fn end_run_at(text: &[u8], at: usize, p: usize) -> Option<Run>
    requires { at ≤ length text.now }
    ensures { RunRead text.now at p result }
{
    let first = number_at(text, at)?;
    if first.n <= p {
        return None;
    }
    if byte_at(text, first.to) != b'-' {
        return Some(Run {
            lo: first.n,
            hi: first.n,
            to: first.to,
        });
    }
    let last = number_at(text, first.to + 1)?;
    if last.n <= first.n {
        return None;
    }
    Some(Run {
        lo: first.n,
        hi: last.n,
        to: last.to,
    })
}

// The run at a place, which must begin past the bound p. A run has seven bytes at most: where there are as many, they are read without a look at
// the text's end at each.
pub fn run_at(text: &[u8], at: usize, p: usize) -> Option<Run>
    requires { at ≤ length text.now }
    ensures { RunRead text.now at p result }
{
    if text.len() - at < 7 {
        return end_run_at(text, at, p);
    }
    let first = long_at(text, at)?;
    if first.n <= p {
        return None;
    }
    if text[first.to] != b'-' {
        return Some(Run {
            lo: first.n,
            hi: first.n,
            to: first.to,
        });
    }
    let last = long_at(text, first.to + 1)?;
    if last.n <= first.n {
        return None;
    }
    Some(Run {
        lo: first.n,
        hi: last.n,
        to: last.to,
    })
}

// Reads the set with this text into one that has no number; refused where it is the text of no set of numbers 1 to 999, or of the empty one.
// A turn of the loop for each run.
pub fn parse_into(set: &mut Timestamp, text: &[u8]) -> bool
    requires { set_of set.old.words ≡ empty_set }
    ensures { (pick_outcome result (set_of set.new.words) ≡ parsed text.now) × (length set.new.words ≡ 16) }
{
    let mut p = 0;
    let mut at = 0;
    loop {
        let Some(run) = run_at(text, at, p) else {
            return false;
        };
        set.fill(run.lo, run.hi);
        p = run.hi + 1;
        at = run.to;
        if text.len() <= at {
            return true;
        }
        if text[at] != b',' {
            return false;
        }
        at += 1;
    }
}

// The set with this text; refused where it is the text of no set of numbers 1 to 999, or of the empty one.
pub fn parse(text: &[u8]) -> Option<Timestamp>
    ensures { told result ≡ parsed text.now }
{
    let mut set = Timestamp::empty();
    if parse_into(&mut set, text) {
        Some(set)
    } else {
        None
    }
}

// Takes the set with this text out of another, run by run, and answers its first number; none where it is the text of no set, or a number
// was not there, and then the other set is of no use.
pub fn take_text(left: &mut Timestamp, text: &[u8]) -> Option<usize>
    ensures { TakesText text.now left.old.words left.new.words result }
{
    let mut first: Option<usize> = None;
    let mut bound = 0;
    let mut at = 0;
    loop {
        let run = run_at(text, at, bound)?;
        if !left.take_run(run.lo, run.hi) {
            return None;
        }
        let start = first.unwrap_or(run.lo);
        bound = run.hi + 1;
        at = run.to;
        if text.len() <= at {
            return Some(start);
        }
        if text[at] != b',' {
            return None;
        }
        first = Some(start);
        at += 1;
    }
}
