// The call that founds an archive from version 1.
ghost use Rattle.std.specs.Prelude.{◌≤◌, ◌≡◌, ltb, length};
ghost use Rattle.xml.specs.Forest.{Forest, write as written};
ghost use Rattle.xml.specs.Over.{Wrote};
ghost use Rattle.xml.specs.Tape.{Tape};
ghost use Rattle.keys.specs.Meant.{number_in, length_in};
ghost use Rattle.versions.specs.Calls.{give, found as founded};
ghost use Rattle.legality.specs.Opened.{Roomy};
ghost use Rattle.archive.specs.Giving.{Gives, Ends};
ghost use Rattle.archive.specs.Founding.{first_text};
ghost use Rattle.archive.specs.FoundLaws.{FirstOn, found_in};

use crate::received::receive;
use crate::steps::{at_most, room};
use keys::load::load;
use keys::places::KeyTable;
use keys::refusal::Refusal;
use xml::tape::{Document, clear};
use xml::writer::{put_word, write_at};

// Writes the archive of the version that lies on the tape, as far as it fits.
fn write_first(doc: &Document, m: usize, out: &mut [u8]) -> usize
    requires { FirstOn doc.now.src.now doc.now.tape.now m }
    ensures { (f : Forest) → Tape doc.now.src.now doc.now.tape.now 0 m f
        → Wrote out.old 0 (first_text (written f)) result out.new }
{
    let inside = put_word(b"<T t=\"1\">", out, 0);
    let close = write_at(doc, 0, m, out, inside);
    put_word(b"</T>", out, close)
}

// Whether the archive of the version that lies on the tape has more than `size` bytes: a version has at most 16,384, its `T` 13 more.
fn lacks_room(doc: &Document, m: usize, size: usize) -> bool
    requires { FirstOn doc.now.src.now doc.now.tape.now m }
    ensures { (f : Forest) → Tape doc.now.src.now doc.now.tape.now 0 m f → result ≡ ltb size (length (first_text (written f))) }
{
    if 16397 <= size {
        return false;
    }
    let mut none = [0u8; 0];
    let count = write_first(doc, m, &mut none);
    size < count
}

// Gives the archive of the version that lies on the tape, if it fits.
fn give_first(doc: &Document, m: usize, out: &mut [u8]) -> Result<usize, Refusal>
    requires { FirstOn doc.now.src.now doc.now.tape.now m }
    ensures { (f : Forest) → Tape doc.now.src.now doc.now.tape.now 0 m f
        → Gives (give (length out.old) (first_text (written f))) (number_in result) (length_in result) out.old out.new }
{
    if lacks_room(doc, m, out.len()) {
        return Err(Refusal::OutputTooShort);
    }
    let count = write_first(doc, m, out);
    Ok(count)
}

// Founds an archive, with room to work in.
pub fn found_in(
    keys: &[u8],
    version: &[u8],
    out: &mut [u8],
    work: &mut [u32],
) -> Result<usize, Refusal>
    requires { Roomy version.now work.old }
    ensures { Gives (found_in keys.now version.now (length out.old)) (number_in result) (length_in result) out.old out.new }
{
    at_most(keys, 4096)?;
    at_most(version, 16384)?;
    let mut table = [0u32; 256];
    let paths = load(keys, &mut table)?;
    let list = KeyTable {
        text: keys,
        table: &table,
        paths,
    };
    let mut canon = [0u32; 1024];
    let m = receive(&list, version, work, &mut canon)?;
    let doc = Document {
        src: version,
        tape: &canon,
    };
    give_first(&doc, m, out)
}

pub fn found(
    keys: &[u8],
    version: &[u8],
    out: &mut [u8],
    work: &mut [u32],
) -> Result<usize, Refusal>
    ensures { Ends (founded keys.now version.now (length out.old) (length work.old))
        out.old work.old (number_in result) (length_in result) out.new work.new }
{
    room(work)?;
    let answer = found_in(keys, version, out, work);
    clear(work);
    answer
}
