// Timestamps: sets of the version numbers 1 to 999, and their text. A set is passed as one value of sixteen words, a bit a version.
#![tactic(auto)]

pub mod change;
pub mod text;
pub mod write;

ghost use Rattle.std.specs.Prelude.{◌≡◌, not, ◌&&◌, ◌+◌, ◌-◌, ◌*◌, ◌/◌, ◌^◌, ◌<◌, ◌≤◌, length};
ghost use Rattle.std.specs.Int.Bits.{bit_and, bit_xor};
ghost use Rattle.std.specs.Int.Count.{count_trailing_zeros};
ghost use Rattle.timestamp.specs.Words.{range_word};
ghost use Rattle.timestamp.specs.Taken.{TakenWord, Taken};
ghost use Rattle.timestamp.specs.First.{next_member, RunFrom};
ghost use Rattle.timestamp.specs.Set.{set_of, empty_set, up_to, between, adding, joined, outside, same_set, is_none, subset};

#[derive(Clone, Copy, PartialEq, Eq)]
pub struct Timestamp {
    pub words: [u64; 16],
}

// The word whose bits lo to hi are set.
fn bits(lo: usize, hi: usize) -> u64
    requires { (lo < 64) × (hi < 64) }
    ensures { result ≡ bit_xor (2 ^ (hi + 1) - 1) (2 ^ lo - 1) }
{
    (u64::MAX >> (63 - hi)) ^ ((1u64 << lo) - 1)
}

// The bits of the word k that stand for the numbers lo to hi, of which it has some.
fn run_word(lo: usize, hi: usize, k: usize) -> u64
    requires { (lo / 64 ≤ k) × (k ≤ hi / 64) × (hi < 1024) }
    ensures { result ≡ range_word lo hi k }
{
    bits(lo.max(k * 64) % 64, hi.min(k * 64 + 63) % 64)
}

// The place of a word's lowest bit; 64 where the word is 0.
fn lowest(w: u64) -> usize
    ensures { (result ≡ count_trailing_zeros 64 w) × (w < 2 ^ 64) }
{
    u64::trailing_zeros(w) as usize
}

// A word's bits from place j on.
fn rest(w: u64, j: usize) -> u64
    requires { j < 64 }
    ensures { (result ≡ w / 2 ^ j) × (result < 2 ^ (64 - j)) }
{
    w >> j
}

// The bits that two words share.
fn common(x: u64, w: u64) -> u64
    ensures { (result ≡ bit_and x w) × (w < 2 ^ 64) }
{
    x & w
}

// The bits that one of two words has alone.
fn differing(x: u64, w: u64) -> u64
    ensures { (result ≡ bit_xor x w) × (x < 2 ^ 64) × (w < 2 ^ 64) }
{
    x ^ w
}

// What is done in a loop is done where the set stands: a set passed by value is copied at each turn.
impl Timestamp {
    // Adds the number v.
    fn add(&mut self, v: usize)
        requires { v < 1024 }
        ensures { (set_of self.new.words ≡ adding v (set_of self.old.words)) × (length self.new.words ≡ 16) }
    {
        let k = v / 64;
        self.words[k] = (1u64 << (v % 64)) | self.words[k];
    }

    // Adds the numbers lo to hi; only the words that have some of them are touched.
    fn fill(&mut self, lo: usize, hi: usize)
        requires { (lo ≤ hi) × (hi < 1024) }
        ensures { (set_of self.new.words ≡ joined (set_of self.old.words) (between lo hi)) × (length self.new.words ≡ 16) }
    {
        let first = lo / 64;
        let last = hi / 64;
        if first == last {
            self.words[first] |= bits(lo % 64, hi % 64);
            return;
        }
        self.words[first] |= bits(lo % 64, 63);
        for k in first + 1..last {
            self.words[k] = u64::MAX;
        }
        self.words[last] |= bits(0, hi % 64);
    }

    // Takes the bits of w out of the word k; whether it had all of them.
    fn take_word(&mut self, k: usize, w: u64) -> bool
        requires { k < 16 }
        ensures { TakenWord self.old.words k w self.new.words result }
    {
        let x = self.words[k] ^ w;
        self.words[k] = x;
        common(x, w) == 0
    }

    // Takes out the numbers lo to hi; whether the set had all of them. If not, it is of no use then.
    fn take_run(&mut self, lo: usize, hi: usize) -> bool
        requires { (lo ≤ hi) × (hi < 1024) }
        ensures { Taken self.old.words (between lo hi) self.new.words result }
    {
        let first = lo / 64;
        let last = hi / 64;
        if first == last {
            return self.take_word(first, bits(lo % 64, hi % 64));
        }
        for k in first..last + 1 {
            if !self.take_word(k, run_word(lo, hi, k)) {
                return false;
            }
        }
        true
    }

    // The least member in the words from k on.
    fn first_in(&self, k: usize) -> Option<usize>
        requires { k ≤ 16 }
        ensures { result ≡ next_member (set_of self.now.words) (k * 64) }
    {
        for i in k..16 {
            let w = self.words[i];
            if w != 0 {
                return Some(i * 64 + lowest(w));
            }
        }
        None
    }

    // The least member from v on.
    fn next_in(&self, v: usize) -> Option<usize>
        requires { v < 1024 }
        ensures { result ≡ next_member (set_of self.now.words) v }
    {
        let k = v / 64;
        let w = rest(self.words[k], v % 64);
        if w == 0 {
            self.first_in(k + 1)
        } else {
            Some(v + lowest(w))
        }
    }

    // The first and the last number of the first run from v on, of members below 1000; `gaps` are the numbers that the set lacks.
    fn next_run(&self, gaps: &Timestamp, v: usize) -> Option<(usize, usize)>
        requires { (1 ≤ v) × (v ≤ 1000) × (set_of gaps.now.words ≡ outside (set_of self.now.words)) }
        ensures { RunFrom (set_of self.now.words) v result }
    {
        let lo = self.next_in(v)?;
        if 1000 <= lo {
            return None;
        }
        let end = gaps.next_in(lo).unwrap_or(1000).min(1000);
        Some((lo, end - 1))
    }
}

impl Timestamp {
    // The set that no number is in.
    pub fn empty() -> Self
        ensures { set_of result.words ≡ empty_set }
    {
        Timestamp { words: [0u64; 16] }
    }

    // The numbers 1 to n.
    pub fn up_to(n: usize) -> Self
        requires { n < 1024 }
        ensures { set_of result.words ≡ up_to n }
    {
        let mut set = Timestamp::empty();
        if n != 0 {
            set.fill(1, n);
        }
        set
    }

    // The set with v added.
    pub fn with(self, v: usize) -> Self
        requires { v < 1024 }
        ensures { set_of result.words ≡ adding v (set_of self.words) }
    {
        let mut set = self;
        set.add(v);
        set
    }

    // The numbers below 1024 that are not in the set.
    pub fn complement(self) -> Self
        ensures { set_of result.words ≡ outside (set_of self.words) }
    {
        let mut w = [0u64; 16];
        for k in 0..16 {
            w[k] = self.words[k] ^ u64::MAX;
        }
        Timestamp { words: w }
    }

    // The two sets have the same numbers.
    pub fn same(self, other: Timestamp) -> bool
        ensures { result ≡ same_set (set_of self.words) (set_of other.words) }
    {
        self == other
    }

    // No number is in the set.
    pub fn is_empty(self) -> bool
        ensures { result ≡ is_none (set_of self.words) }
    {
        self.same(Timestamp::empty())
    }

    // Every number is one of the other's, and the other has more. One pass with no branch in it, for vector instructions.
    pub fn is_part(self, other: Timestamp) -> bool
        ensures { result ≡ (subset (set_of self.words) (set_of other.words) && not (same_set (set_of self.words) (set_of other.words))) }
    {
        let mut lack = 0u64;
        let mut more = 0u64;
        for k in 0..16 {
            let x = differing(other.words[k], self.words[k]);
            lack = lack | common(x, self.words[k]);
            more = more | x;
        }
        if lack != 0 {
            return false;
        }
        more != 0
    }

    // The least member from v on.
    pub fn next(self, v: usize) -> Option<usize>
        requires { v < 1024 }
        ensures { result ≡ next_member (set_of self.words) v }
    {
        self.next_in(v)
    }
}
