// The call that retrieves a version.
ghost use Rattle.std.specs.Prelude.{◌≤◌, ◌≡◌, ltb, length};
ghost use Rattle.xml.specs.Forest.{Forest};
ghost use Rattle.xml.specs.Tape.{Tape};
ghost use Rattle.keys.specs.Meant.{number_in, length_in};
ghost use Rattle.versions.specs.Calls.{retrieve as retrieved};
ghost use Rattle.legality.specs.Opened.{Roomy};
ghost use Rattle.archive.specs.Giving.{Gives, Ends};
ghost use Rattle.versions.specs.VersionText.{version_text};
ghost use Rattle.archive.specs.Asking.{Lies, Reaches, asked, asked_in};

use crate::steps::{at_most, room};
use keys::load::load;
use keys::places::KeyTable;
use keys::refusal::Refusal;
use legality::open::open;
use walks::retrieve::write_version;
use xml::tape::{Document, clear};

// Whether version i of the archive on the tape has more than `size` bytes: it never has more than the archive.
fn lacks_room(doc: &Document, hi: usize, i: usize, size: usize) -> bool
    requires { Reaches doc.now.src.now doc.now.tape.now hi i }
    ensures { (f : Forest) → Tape doc.now.src.now doc.now.tape.now 0 hi f → result ≡ ltb size (length (version_text i f)) }
{
    if doc.src.len() <= size {
        return false;
    }
    let mut none = [0u8; 0];
    let count = write_version(doc, 0, hi, i, &mut none, 0);
    size < count
}

// Gives version i of the archive of n versions that lies on the tape, if there is one and it fits.
fn give_version(
    doc: &Document,
    hi: usize,
    n: usize,
    i: usize,
    out: &mut [u8],
) -> Result<usize, Refusal>
    requires { Lies doc.now.src.now doc.now.tape.now hi n }
    ensures { (f : Forest) → Tape doc.now.src.now doc.now.tape.now 0 hi f
        → Gives (asked n i (length out.old) (version_text i f)) (number_in result) (length_in result) out.old out.new }
{
    if i < 1 {
        return Err(Refusal::NoVersion);
    }
    if n < i {
        return Err(Refusal::NoVersion);
    }
    if lacks_room(doc, hi, i, out.len()) {
        return Err(Refusal::OutputTooShort);
    }
    let count = write_version(doc, 0, hi, i, out, 0);
    Ok(count)
}

// Retrieves version i, with room to work in.
pub fn retrieve_in(
    keys: &[u8],
    archive: &[u8],
    i: usize,
    out: &mut [u8],
    work: &mut [u32],
) -> Result<usize, Refusal>
    requires { Roomy archive.now work.old }
    ensures { Gives (asked_in (version_text i) keys.now archive.now i (length out.old))
        (number_in result) (length_in result) out.old out.new }
{
    at_most(keys, 4096)?;
    at_most(archive, 32768)?;
    let mut table = [0u32; 256];
    let paths = load(keys, &mut table)?;
    let list = KeyTable {
        text: keys,
        table: &table,
        paths,
    };
    let opened = open(&list, archive, work)?;
    let doc = Document {
        src: archive,
        tape: work,
    };
    give_version(&doc, opened.nodes, opened.versions, i, out)
}

// Retrieves version i of an archive.
pub fn retrieve(
    keys: &[u8],
    archive: &[u8],
    i: usize,
    out: &mut [u8],
    work: &mut [u32],
) -> Result<usize, Refusal>
    ensures { Ends (retrieved keys.now archive.now i (length out.old) (length work.old))
        out.old work.old (number_in result) (length_in result) out.new work.new }
{
    room(work)?;
    let answer = retrieve_in(keys, archive, i, out, work);
    clear(work);
    answer
}
