// A version's number, as a word of decimal digits.
ghost use Rattle.std.specs.Prelude.{◌≡◌};
ghost use Rattle.station.specs.Number.{digit_of, number_of};

// A digit's value; none for a byte that is no digit.
fn digit(b: u8) -> Option<usize>
    ensures { result ≡ digit_of b }
{
    match b {
        b'0'..=b'9' => Some((b - b'0') as usize),
        _ => None,
    }
}

// The number that a word is, if it is one; 1,000 stands for all from there on, as no archive has such a version.
pub fn number(word: &[u8]) -> Option<usize>
    ensures { result ≡ number_of word.now }
{
    if word.is_empty() {
        return None;
    }
    let mut value: usize = 0;
    for b in word {
        value = (value * 10 + digit(*b)?).min(1000);
    }
    Some(value)
}
