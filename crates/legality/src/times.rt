// A timestamp's text where it stands in an archive's.
ghost use Rattle.std.specs.Prelude.{◌≡◌, ◌≤◌, length};
ghost use Rattle.std.proofs.Math.Seq.{slice};
ghost use Rattle.timestamp.specs.Set.{set_of, empty_set};
ghost use Rattle.timestamp.specs.Parse.{parsed, told, outcome, read_as};
ghost use Rattle.timestamp.specs.TakenText.{TakesText};

use timestamp::Timestamp;
use timestamp::text::{parse, parse_into, take_text};

// The set with the text src[a..e].
pub fn times_at(src: &[u8], a: usize, e: usize) -> Option<Timestamp>
    requires { (a ≤ e) × (e ≤ length src.now) }
    ensures { told result ≡ parsed (slice a e src.now) }
{
    parse(&src[a..e])
}

// Reads the set with the text src[a..e] into one that has no number.
pub fn parse_at(set: &mut Timestamp, src: &[u8], a: usize, e: usize) -> bool
    requires { (a ≤ e) × (e ≤ length src.now) × (set_of set.old.words ≡ empty_set) }
    ensures { (outcome (read_as result set.new) ≡ parsed (slice a e src.now)) × (length set.new.words ≡ 16) }
{
    parse_into(set, &src[a..e])
}

// Takes the set with the text src[a..e] out of another, and answers its first number.
pub fn take_at(left: &mut Timestamp, src: &[u8], a: usize, e: usize) -> Option<usize>
    requires { (a ≤ e) × (e ≤ length src.now) }
    ensures { TakesText (slice a e src.now) left.old.words left.new.words result }
{
    take_text(left, &src[a..e])
}
