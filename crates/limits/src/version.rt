// Versions 999 and 1,000.
ghost use Rattle.std.specs.Prelude.{◌≤◌, length};

use crate::calls::{Bench, Out};
use crate::mark::last_marks;
use files::within;

// Adds a version without the frontier to the archive of so many bytes in `a`, and one with it; answers how many the archive then has.
fn add_two(bench: &mut Bench, length: usize, a: &mut Out, b: &mut Out) -> usize {
    let n = within(length, a);
    let even = bench.adds_unseen(&a[..n], b"<s/>", b);
    bench.adds_unseen(even, b"<s><f>x</f></s>", a).len()
}

// The archive of 997 versions, added one by one: every other one has the frontier.
fn grow<'o>(bench: &mut Bench, a: &'o mut Out, b: &mut Out) -> &'o [u8]
    ensures { length result.now ≤ length a.old }
{
    let mut length = bench.founds_unseen(b"<s><f>x</f></s>", a).len();
    for _ in 0..498 {
        length = add_two(bench, length, a, b);
    }
    let n = within(length, a);
    &a[..n]
}

// Versions and histories of the archive of 999.
fn last_versions(bench: &mut Bench, archive: &[u8], out: &mut Out) {
    bench.retrieves("retrieve 998", archive, 998, out);
    bench.retrieves("retrieve 999", archive, 999, out);
    bench.retrieves("retrieve 1,000", archive, 1000, out);
    bench.gives_history("history of s", archive, "/s", out);
    bench.gives_history("history of f", archive, "/s/f", out);
}

// Version 1,000 (11), and what the archive of 999 gives.
fn full(bench: &mut Bench, archive: &[u8], out: &mut Out) {
    bench.adds("version 1,000", archive, b"<s/>", out);
    last_versions(bench, archive, out);
    bench.steps_back("back to 998", archive, 998, out);
    bench.steps_back("back to 1", archive, 1, out);
    last_marks(bench, archive, out);
}

// Adding at 997, 998 and 999 versions.
pub fn versions(bench: &mut Bench, a: &mut Out, b: &mut Out) {
    let most = grow(bench, a, b);
    let even = bench.adds("version 998", most, b"<s/>", b);
    let odd = bench.adds("version 999", even, b"<s><f>y</f></s>", a);
    full(bench, odd, b);
}
