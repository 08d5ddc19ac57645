// The attributes of a start tag: how far they go. While they are read, their names are noted in free cells, k of them from `base` on.
ghost use Rattle.std.specs.Prelude.{◌≡◌, true, false, ◌||◌, List, ◌+◌, ◌-◌, ◌<◌, ◌≤◌, length, take, drop, get_or};
ghost use Rattle.xml.specs.Bytes.{Bytes, is_empty, is_name};
ghost use Rattle.xml.specs.Tags.{is_quote, is_new, fresh, new_len};
ghost use Rattle.xml.specs.Read.{name_len, value_byte, value};
ghost use Rattle.xml.specs.NameCells.{NameCells, SomeNames, Below};
ghost use Rattle.xml.specs.AttrPlaces.{attr_named, AttrsRead};

use crate::ReadError;
use crate::class::is_printed;
use crate::names::{is_noted, note};
use crate::scan::{byte_at, entity_at, name_len};

// What a byte of an attribute's value means, between quotes q: the value is over; or it goes on after so many bytes more; or the byte so
// many bytes on is wrong.
fn value_byte(src: &[u8], at: usize, q: u8) -> Result<Option<(usize, usize)>, usize>
    requires { at < length src.now }
    ensures { result ≡ value_byte q (get_or src.now at 0) (drop (at + 1) src.now) }
{
    let b = src[at];
    if b == q {
        return Ok(None);
    }
    if b == b'&' {
        match entity_at(src, at + 1) {
            Ok((k, _)) => return Ok(Some((k, 0))),
            Err(k) => return Err(1 + k),
        }
    }
    if b == b'<' {
        return Err(0);
    }
    if !is_printed(b) {
        return Err(0);
    }
    Ok(Some((0, 0)))
}

// How far a value goes, between quotes q: its length; or the offset of the wrong byte in it.
fn value_run(src: &[u8], at: usize, q: u8) -> Result<usize, usize>
    requires { at ≤ length src.now }
    ensures { result ≡ value q 0 0 (drop at src.now) }
{
    let mut j = at;
    while j < src.len() {
        match value_byte(src, j, q) {
            Ok(None) => return Ok(j - at),
            Err(k) => return Err(j - at + k),
            Ok(Some((k, _))) => {
                j = j + 1 + k;
            }
        }
    }
    Err(j - at)
}

// A quote, which stands before and after a value.
fn is_quote(b: u8) -> bool
    ensures { result ≡ is_quote b }
{
    (b == b'"') | (b == b'\'')
}

// Whether a name, or nothing, is a name that is not noted.
fn is_new(src: &[u8], cells: &[u32], base: usize, k: usize, name: &[u8]) -> bool
    requires { SomeNames src.now cells.now base k × (length src.now ≤ 32768) × (is_empty name.now || is_name name.now ≡ true) }
    ensures { (used : List Bytes) → NameCells src.now cells.now base k used → result ≡ is_new used name.now }
{
    if name.len() == 0 {
        return false;
    }
    !is_noted(src, cells, base, k, name)
}

// Whether the first bytes of `name` begin a name that is not noted, of 32 bytes at most.
fn is_fresh(src: &[u8], cells: &[u32], base: usize, k: usize, name: [u8; 32], len: usize) -> bool
    requires { SomeNames src.now cells.now base k × (length src.now ≤ 32768) × (len ≤ 32) }
    ensures { (used : List Bytes) → NameCells src.now cells.now base k used → result ≡ fresh (32 - len) used (take len name) }
{
    if name_len(&name[..len], 0) < len {
        return false;
    }
    if is_new(src, cells, base, k, &name[..len]) {
        return true;
    }
    if len == 32 {
        return false;
    }
    for c in 0..128 {
        let mut longer = name;
        longer[len] = c;
        if is_fresh(src, cells, base, k, longer, len + 1) {
            return true;
        }
    }
    false
}

// How many bytes at a place begin a name that is not noted.
fn new_len(src: &[u8], cells: &[u32], base: usize, k: usize, at: usize) -> usize
    requires { SomeNames src.now cells.now base k × (length src.now ≤ 32768) × (at ≤ length src.now) }
    ensures { (used : List Bytes) → NameCells src.now cells.now base k used → result ≡ new_len used (drop at src.now) }
{
    let mut name = [0; 32];
    for n in 0..32 {
        if at + n == src.len() {
            return n;
        }
        name[n] = src[at + n];
        if !is_fresh(src, cells, base, k, name, n + 1) {
            return n;
        }
    }
    32
}

// Where the text is wrong after a space, at a place where no new name stands; it is asked once for a text.
fn first_wrong(
    src: &[u8],
    cells: &[u32],
    base: usize,
    k: usize,
    at: usize,
) -> Result<Option<(usize, usize)>, usize>
    requires { SomeNames src.now cells.now base k × (length src.now ≤ 32768) × (at ≤ length src.now) × ((used : List Bytes) → NameCells src.now cells.now base k used → is_new used (take (name_len (drop at src.now)) (drop at src.now)) ≡ false) }
    ensures { (used : List Bytes) → NameCells src.now cells.now base k used → result ≡ attr_named used 0x20 (drop at src.now) }
{
    if !is_fresh(src, cells, base, k, [0; 32], 0) {
        return Ok(None);
    }
    Err(1 + new_len(src, cells, base, k, at))
}

// An attribute after its space, at a place where a new name of m bytes stands.
fn after_name(src: &[u8], at: usize, m: usize) -> Result<Option<(usize, usize)>, usize>
    requires { (at ≤ length src.now) × (length src.now ≤ 32768) × (m ≡ name_len (drop at src.now)) }
    ensures { (used : List Bytes) → is_new used (take m (drop at src.now)) ≡ true → result ≡ attr_named used 0x20 (drop at src.now) }
{
    if byte_at(src, at + m) != b'=' {
        return Err(1 + m);
    }
    let q = byte_at(src, at + m + 1);
    if !is_quote(q) {
        return Err(2 + m);
    }
    match value_run(src, at + m + 2, q) {
        Ok(n) => Ok(Some((3 + m + n, m))),
        Err(n) => Err(3 + m + n),
    }
}

// What the byte after a name or an attribute says: the attributes are over; or one more goes on for so many bytes, with a name so long,
// or is wrong.
fn attribute(
    src: &[u8],
    cells: &[u32],
    base: usize,
    k: usize,
    at: usize,
) -> Result<Option<(usize, usize)>, usize>
    requires { SomeNames src.now cells.now base k × (length src.now ≤ 32768) × (at < length src.now) }
    ensures { (used : List Bytes) → NameCells src.now cells.now base k used → result ≡ attr_named used (get_or src.now at 0) (drop (at + 1) src.now) }
{
    if src[at] != b' ' {
        return Ok(None);
    }
    let from = at + 1;
    let m = name_len(src, from);
    let to = from + m;
    if !is_new(src, cells, base, k, &src[from..to]) {
        return first_wrong(src, cells, base, k, from);
    }
    after_name(src, from, m)
}

// How far attributes go, from a place on; or the offset of the wrong byte in them, or no room for their names, which are noted in the
// cells from `base` on.
pub(crate) fn attributes(
    src: &[u8],
    at: usize,
    cells: &mut [u32],
    base: usize,
) -> Result<usize, ReadError>
    requires { (at ≤ length src.now) × (length src.now ≤ 32768) × (base ≤ length cells.old) }
    ensures { Below cells.old cells.new base × AttrsRead (drop at src.now) (length cells.old) base result }
{
    let mut j = at;
    let mut k = 0;
    while j < src.len() {
        match attribute(src, cells, base, k, j) {
            Ok(None) => return Ok(j - at),
            Err(n) => return Err(ReadError::Wrong(j - at + n)),
            Ok(Some((n, m))) => {
                if base + k == cells.len() {
                    return Err(ReadError::Full);
                }
                note(src, cells, base, k, j + 1, m);
                k += 1;
                j = j + 1 + n;
            }
        }
    }
    Ok(j - at)
}
