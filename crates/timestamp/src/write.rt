// Writing a timestamp's text. A writer is handed the whole output and the place to write at, which may lie past the output's end: it
// writes what fits, and answers the place after all of it.
ghost use Rattle.std.specs.Prelude.{◌≡◌, true, [], ◌∷◌, ltb, ◌+◌, ◌-◌, ◌^◌, ◌<◌, ◌≤◌};
ghost use Rattle.xml.specs.Over.{Wrote};
ghost use Rattle.timestamp.specs.Set.{set_of};
ghost use Rattle.timestamp.specs.Times.{always, decimal, write_run, write_times};
ghost use Rattle.timestamp.specs.Listed.{text_of};
ghost use Rattle.timestamp.specs.Write.{part};
ghost use Rattle.timestamp.specs.Change.{tail_text};
ghost use Rattle.timestamp.specs.Longest.{longest};

use crate::Timestamp;
use crate::change::Tail;
use xml::writer::{put, put_word};

// The byte of a digit.
fn digit(d: usize) -> u8
    requires { d < 10 }
    ensures { result ≡ 48 + d }
{
    48 + (d as u8)
}

fn put_digit(out: &mut [u8], at: usize, d: usize) -> usize
    requires { (d < 10) × (at < 2 ^ 63) }
    ensures { Wrote out.old at ((48 + d) ∷ []) result out.new }
{
    put(digit(d), out, at)
}

// Writes a number in decimal.
fn put_number(out: &mut [u8], at: usize, n: usize) -> usize
    requires { (1 ≤ n) × (n < 1000) × (at < 2 ^ 63 - 8) }
    ensures { Wrote out.old at (decimal n) result out.new }
{
    if n < 10 {
        return put_digit(out, at, n);
    }
    if n < 100 {
        let i = put_digit(out, at, n / 10);
        return put_digit(out, i, n % 10);
    }
    let i = put_digit(out, at, n / 100);
    let j = put_digit(out, i, n / 10 % 10);
    put_digit(out, j, n % 10)
}

// Writes a byte, and then a number.
fn put_marked(mark: u8, out: &mut [u8], at: usize, n: usize) -> usize
    requires { (1 ≤ n) × (n < 1000) × (at < 2 ^ 63 - 12) }
    ensures { Wrote out.old at (mark ∷ decimal n) result out.new }
{
    let i = put(mark, out, at);
    put_number(out, i, n)
}

// Writes a run, `5` or `1-3`.
fn put_run(out: &mut [u8], at: usize, lo: usize, hi: usize) -> usize
    requires { (1 ≤ lo) × (lo ≤ hi) × (hi < 1000) × (at < 2 ^ 63 - 16) }
    ensures { Wrote out.old at (write_run (lo, hi)) result out.new }
{
    let i = put_number(out, at, lo);
    if lo == hi {
        return i;
    }
    put_marked(b'-', out, i, hi)
}

// Writes a run, after a comma where one was written before it.
fn put_part(out: &mut [u8], at: usize, later: bool, lo: usize, hi: usize) -> usize
    requires { (1 ≤ lo) × (lo ≤ hi) × (hi < 1000) × (at < 2 ^ 62) }
    ensures { Wrote out.old at (part later (lo, hi)) result out.new }
{
    if later {
        let i = put(b',', out, at);
        put_run(out, i, lo, hi)
    } else {
        put_run(out, at, lo, hi)
    }
}

// Writes the text of the numbers 1 to k.
fn put_up_to(out: &mut [u8], at: usize, k: usize) -> usize
    requires { (k < 1000) × (at < 2 ^ 62) }
    ensures { Wrote out.old at (write_times (always k)) result out.new }
{
    if k == 0 {
        return at;
    }
    put_run(out, at, 1, k)
}

// Writes a comma and a run of numbers of three digits: all at once, where it fits.
fn put_long_part(out: &mut [u8], at: usize, lo: usize, hi: usize) -> usize
    requires { (100 ≤ lo) × (lo < hi) × (hi < 1000) × (at < 2 ^ 62) }
    ensures { Wrote out.old at (part true (lo, hi)) result out.new }
{
    if out.len() < at + 8 {
        return put_part(out, at, true, lo, hi);
    }
    let word = [
        b',',
        digit(lo / 100),
        digit(lo / 10 % 10),
        digit(lo % 10),
        b'-',
        digit(hi / 100),
        digit(hi / 10 % 10),
        digit(hi % 10),
    ];
    put_word(&word, out, at)
}

// Writes the run k + 2 to k + 3, after a comma where one was written before it.
fn put_pair(out: &mut [u8], at: usize, k: usize) -> usize
    requires { (k + 3 < 1000) × (at < 2 ^ 62) }
    ensures { Wrote out.old at (part (ltb 0 k) (k + 2, k + 3)) result out.new }
{
    if k < 98 {
        return put_part(out, at, 0 < k, k + 2, k + 3);
    }
    put_long_part(out, at, k + 2, k + 3)
}

// Writes the longest text that a set of the numbers 1 to n has: what is left of the numbers 1 and 2, and then runs of two after gaps of one.
pub fn put_longest(n: usize, out: &mut [u8], at: usize) -> usize
    requires { (n ≤ 999) × (at < 2 ^ 61) }
    ensures { Wrote out.old at (write_times (longest n)) result out.new }
{
    let k = n % 3;
    let mut to = put_up_to(out, at, k);
    for i in 0..n / 3 {
        to = put_pair(out, to, k + 3 * i);
    }
    to
}

// Writes what comes after the bytes of a set's text that stay: nothing, `-` and v, `,` and v, or v.
pub fn put_tail(tail: Tail, v: usize, out: &mut [u8], at: usize) -> usize
    requires { (1 ≤ v) × (v < 1000) × (at < 2 ^ 62) }
    ensures { Wrote out.old at (tail_text tail v) result out.new }
{
    match tail {
        Tail::Nothing => at,
        Tail::Dashed => put_marked(b'-', out, at, v),
        Tail::Listed => put_marked(b',', out, at, v),
        Tail::Alone => put_number(out, at, v),
    }
}

impl Timestamp {
    // Writes the set's text, from run to run.
    pub fn put_text(self, out: &mut [u8], at: usize) -> usize
        requires { at < 2 ^ 61 }
        ensures { Wrote out.old at (text_of (set_of self.words)) result out.new }
    {
        let gaps = self.complement();
        let mut to = at;
        let mut from = 1;
        while let Some((lo, hi)) = self.next_run(&gaps, from) {
            to = put_part(out, to, at < to, lo, hi);
            from = hi + 1;
        }
        to
    }
}
