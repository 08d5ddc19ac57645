// The call that gives the longest history line.
ghost use Rattle.std.specs.Prelude.{◌≤◌, ◌≡◌, ltb, length};
ghost use Rattle.keys.specs.Meant.{number_in, length_in};
ghost use Rattle.timestamp.specs.Times.{write_times};
ghost use Rattle.timestamp.specs.Longest.{longest};
ghost use Rattle.archive.specs.Giving.{Gives};
ghost use Rattle.archive.specs.Asking.{asked};
ghost use Rattle.archive.specs.LongestCall.{LongestEnds};

use crate::steps::room;
use keys::refusal::Refusal;
use timestamp::write::put_longest;
use xml::tape::clear;

// Whether the longest text over versions 1 to n has more than `size` bytes: it never has more than 2,591.
fn lacks_room(n: usize, size: usize) -> bool
    requires { n ≤ 999 }
    ensures { result ≡ ltb size (length (write_times (longest n))) }
{
    if 2591 <= size {
        return false;
    }
    let mut none = [0u8; 0];
    let count = put_longest(n, &mut none, 0);
    size < count
}

// Gives the longest text over versions 1 to n, if n is 1 to 999 and the text fits; no work cell is asked for.
pub fn longest_in(n: usize, out: &mut [u8]) -> Result<usize, Refusal>
    ensures { Gives (asked 999 n (length out.old) (write_times (longest n))) (number_in result) (length_in result) out.old out.new }
{
    if n < 1 {
        return Err(Refusal::NoVersion);
    }
    if 999 < n {
        return Err(Refusal::NoVersion);
    }
    if lacks_room(n, out.len()) {
        return Err(Refusal::OutputTooShort);
    }
    Ok(put_longest(n, out, 0))
}

// Gives a history text over versions 1 to n than which no set of these numbers has a longer one.
pub fn longest_history(n: usize, out: &mut [u8], work: &mut [u32]) -> Result<usize, Refusal>
    ensures { LongestEnds n out.old work.old (number_in result) (length_in result) out.new work.new }
{
    room(work)?;
    let answer = longest_in(n, out);
    clear(work);
    answer
}
