// Stretches of a text whose bytes are all of one sort: how far they go, blocks of sixteen bytes at once, and byte by byte.
ghost use Rattle.std.specs.Prelude.{◌≡◌, Bool, true, false, not, ℕ, ◌+◌, ◌≤◌, length};
ghost use Rattle.xml.specs.Stretch.{Each, Passed, Stopped};

// The sort of bytes for which a test gives one answer.
pub(crate) trait Sort {
    ghost test: { ℕ → Bool };

    ghost answer: { Bool };

    // Whether a byte is of another sort; told without a branch, so that many are compared at once.
    fn is_other(b: u8) -> bool
        ensures { result ≡ false → test b ≡ answer };

    // Whether a single byte is of the sort, where those that come most often may be told first.
    fn goes_on(b: u8) -> bool
        ensures of_it { result ≡ true → test b ≡ answer }
        ensures other { result ≡ false → test b ≡ not answer };
}

// Whether one of `count` bytes is of another sort; without a branch, so that they are compared at once.
pub(crate) fn has_other<S: Sort>(src: &[u8], at: usize, count: usize) -> bool
    requires { at + count ≤ length src.now }
    ensures { result ≡ false → Each S.test S.answer src.now at (at + count) }
{
    let mut hit = false;
    for i in 0..count {
        hit = hit | S::is_other(src[at + i]);
    }
    hit
}

// A place up to which src[at..e] has bytes of the sort alone: blocks of sixteen.
pub(crate) fn pass_blocks<S: Sort>(src: &[u8], at: usize, e: usize) -> usize
    requires { (at ≤ e) × (e ≤ length src.now) }
    ensures { Passed S.test S.answer src.now at e result }
{
    let mut j = at;
    while 16 <= e - j {
        if has_other::<S>(src, j, 16) {
            return j;
        }
        j += 16;
    }
    j
}

// The first place of src[at..e] whose byte is of another sort, or e: byte by byte.
pub(crate) fn pass_bytes<S: Sort>(src: &[u8], at: usize, e: usize) -> usize
    requires { (at ≤ e) × (e ≤ length src.now) }
    ensures { Stopped S.test S.answer src.now at e result }
{
    let mut j = at;
    while j < e {
        if !S::goes_on(src[j]) {
            return j;
        }
        j += 1;
    }
    j
}
