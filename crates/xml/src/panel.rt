// The panel's face: a text in its canonical form. It asks nothing of its caller.
ghost use Rattle.std.specs.Prelude.{◌≡◌, false, ℕ, ◌^◌, ◌≤◌, length};
ghost use Rattle.xml.specs.Forest.{Forest};
ghost use Rattle.xml.specs.Read.{read as read_as};
ghost use Rattle.xml.specs.Tape.{Tape, Valid};
ghost use Rattle.xml.specs.Canonical.{canon_error, canon_number, canon_value, canonical_of, canonical_out, canonical_tape, form_of, form_out, read_of, read_out};

use crate::ReadError;
use crate::reader::read;
use crate::tape::{Document, clear};
use crate::writer::write;

// Why a text has no canonical form in the output: it has more than 16,384 bytes, the tape less than a cell a byte of it, the byte at this
// place is wrong, or the output is shorter than the form.
#[derive(Clone, Copy)]
pub enum CanonError {
    Long,
    Narrow,
    Wrong(usize),
    Short,
}

impl From<ReadError> for CanonError {
    ghost from_gives = { λ e r. r ≡ canon_error e };

    fn from(e: ReadError) -> CanonError {
        match e {
            ReadError::Wrong(p) => CanonError::Wrong(p),
            ReadError::Full => CanonError::Narrow,
        }
    }
}

// Writes a forest's form, if it fits, and answers its length.
fn form(src: &[u8], tape: &[u32], n: usize, out: &mut [u8]) -> Result<usize, CanonError>
    requires { Valid src.now tape.now 0 n × (n ≤ 2 ^ 32) }
    ensures { (f : Forest) → Tape src.now tape.now 0 n f
        → ((canon_number result, canon_value result) ≡ form_of f (length out.old)) × (out.new ≡ form_out f out.old) }
{
    let mut none = [0u8; 0];
    let doc = Document { src, tape };
    let count = write(&doc, 0, n, &mut none);
    if out.len() < count {
        return Err(CanonError::Short);
    }
    write(&doc, 0, n, out);
    Ok(count)
}

// Reads a version's text onto the tape, which has a cell a byte, and writes its form.
fn read_form(src: &[u8], tape: &mut [u32], out: &mut [u8]) -> Result<usize, CanonError>
    requires { (length src.now ≤ 16384) × (length src.now ≤ length tape.old) }
    ensures { ((canon_number result, canon_value result) ≡ read_of (read_as false src.now) (length out.old))
        × (out.new ≡ read_out (read_as false src.now) out.old) }
{
    let n = read(src, false, tape)?;
    form(src, tape, n, out)
}

// Reads a version's text, and writes it as it is always written: its length. The tape is for the reader's use, and is cleared afterwards. A refusal
// leaves the output untouched; a text too long and a tape too short leave the tape untouched as well.
pub fn canonical(src: &[u8], tape: &mut [u32], out: &mut [u8]) -> Result<usize, CanonError>
    ensures { ((canon_number result, canon_value result) ≡ canonical_of src.now (length tape.old) (length out.old))
        × (out.new ≡ canonical_out src.now (length tape.old) out.old)
        × (tape.new ≡ canonical_tape src.now tape.old) }
{
    if 16384 < src.len() {
        return Err(CanonError::Long);
    }
    if tape.len() < src.len() {
        return Err(CanonError::Narrow);
    }
    let answer = read_form(src, tape, out);
    clear(tape);
    answer
}
