// Runs of text, from their raw bytes: what is meant at a place, and how far the bytes are written as they stand.
ghost use Rattle.std.specs.Prelude.{◌≡◌, false, ◌+◌, ◌<◌, ◌≤◌, length};
ghost use Rattle.std.proofs.Math.Seq.{slice};
ghost use Rattle.xml.specs.Signs.{is_marked, plain_len, sign_return, sign_at};

use crate::class::is_markup;
use crate::scan::{byte_at, entity_at};
use crate::stretch::{Sort, pass_blocks, pass_bytes};

// The byte that is meant at a place of a run, and the place after what stands for it.
#[derive(Clone, Copy)]
pub struct Sign {
    pub byte: u8,
    pub next: usize,
}

// What the CR src[i] of a run that ends at e means: LF, by itself or with the LF after it.
fn line_end(src: &[u8], i: usize, e: usize) -> Sign
    requires { (i < e) × (e ≤ length src.now) }
    ensures { result ≡ sign_return i (slice (i + 1) e src.now) }
{
    let b = byte_at(&src[..e], i + 1);
    if b != b'\n' {
        return Sign {
            byte: b'\n',
            next: i + 1,
        };
    }
    Sign {
        byte: b,
        next: i + 2,
    }
}

// What the run src[i..e] means first.
pub fn sign_at(src: &[u8], i: usize, e: usize) -> Sign
    requires { (i < e) × (e ≤ length src.now) }
    ensures { result ≡ sign_at i (slice i e src.now) }
{
    let b = src[i];
    if b == b'\r' {
        return line_end(src, i, e);
    }
    if b != b'&' {
        return Sign {
            byte: b,
            next: i + 1,
        };
    }
    match entity_at(&src[..e], i + 1) {
        Ok((n, c)) => Sign {
            byte: c,
            next: i + 1 + n,
        },
        Err(_) => Sign {
            byte: b,
            next: i + 1,
        },
    }
}

// A byte that begins an entity or a line end, or is written as an entity; told without a branch.
fn is_marked(b: u8) -> bool
    ensures { result ≡ is_marked b }
{
    is_markup(b) | (b == b'>') | (b == b'\r')
}

// The bytes that are written as they stand.
struct Unmarked;

impl Sort for Unmarked {
    ghost test = { is_marked };

    ghost answer = { false };

    fn is_other(b: u8) -> bool {
        is_marked(b)
    }

    fn goes_on(b: u8) -> bool {
        !is_marked(b)
    }
}

// The first place of src[i..e] whose byte is not written as it stands, or e: whole blocks first, then byte by byte.
pub fn plain_end(src: &[u8], i: usize, e: usize) -> usize
    requires { (i ≤ e) × (e ≤ length src.now) }
    ensures { result ≡ i + plain_len (slice i e src.now) }
{
    let j = pass_blocks::<Unmarked>(src, i, e);
    pass_bytes::<Unmarked>(src, j, e)
}
