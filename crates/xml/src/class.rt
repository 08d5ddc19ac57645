// The class of a byte, by comparison. Each range of bytes that a class has is said here, once; every test of a byte's class is made of these.
ghost use Rattle.std.specs.Prelude.{◌≡◌};
ghost use Rattle.xml.specs.Bytes.{among, within, class_of, is_letter, is_digit, is_white, is_start, is_name_byte};

// A byte's class: illegal, white space, name start, other name byte, markup, other text.
#[derive(Clone, Copy, PartialEq, Eq)]
pub enum ByteClass {
    Illegal,
    White,
    Start,
    Other,
    Markup,
    Plain,
}

// A small letter.
pub(crate) fn is_small(b: u8) -> bool
    ensures { result ≡ within 0x61 0x7A b }
{
    (b'a' <= b) & (b <= b'z')
}

// A letter.
fn is_letter(b: u8) -> bool
    ensures { result ≡ is_letter b }
{
    ((b'A' <= b) & (b <= b'Z')) | is_small(b)
}

// A digit.
pub fn is_digit(b: u8) -> bool
    ensures { result ≡ is_digit b }
{
    if b'0' <= b { b <= b'9' } else { false }
}

// A byte that is printed: 20 to 7E hexadecimal.
pub(crate) fn is_printed(b: u8) -> bool
    ensures { result ≡ within 0x20 0x7E b }
{
    (0x20 <= b) & (b <= 0x7E)
}

// A byte of markup.
pub(crate) fn is_markup(b: u8) -> bool
    ensures { result ≡ among "<&" b }
{
    (b == b'<') | (b == b'&')
}

// A byte of white space: tab, LF, CR, space.
pub fn is_white_byte(b: u8) -> bool
    ensures { result ≡ is_white b }
{
    (b == b'\t') | (b == b'\n') | (b == b'\r') | (b == b' ')
}

// A byte that starts a name: a letter or `_`.
pub fn is_name_start(b: u8) -> bool
    ensures { result ≡ is_start b }
{
    is_letter(b) | (b == b'_')
}

// A byte of a name: one that starts a name, a digit, `.` or `-`.
pub fn is_name_byte(b: u8) -> bool
    ensures { result ≡ is_name_byte b }
{
    is_name_start(b) | is_digit(b) | (b == b'.') | (b == b'-')
}

// The class of a byte.
pub fn class(b: u8) -> ByteClass
    ensures { result ≡ class_of b }
{
    if is_name_start(b) {
        return ByteClass::Start;
    }
    if is_name_byte(b) {
        return ByteClass::Other;
    }
    if is_white_byte(b) {
        return ByteClass::White;
    }
    if is_markup(b) {
        return ByteClass::Markup;
    }
    if is_printed(b) {
        return ByteClass::Plain;
    }
    ByteClass::Illegal
}
