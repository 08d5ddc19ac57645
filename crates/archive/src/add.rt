// The call that adds a version to an archive.
ghost use Rattle.std.specs.Prelude.{◌≡◌, ◌≤◌, min, length};
ghost use Rattle.xml.specs.Forest.{Forest};
ghost use Rattle.keys.specs.KeyList.{KeyList};
ghost use Rattle.keys.specs.Meant.{meant, number_in, length_in};
ghost use Rattle.versions.specs.Calls.{add as add_answer};
ghost use Rattle.legality.specs.Opened.{Roomy};
ghost use Rattle.archive.specs.Giving.{Gives, Ends};
ghost use Rattle.adding.specs.AddWhole.{Adding, SomeAdding};
ghost use Rattle.versions.specs.Walk.{add_forest};
ghost use Rattle.archive.specs.AddCall.{fitting, Drafted, store_in, add_to, add_from};

use crate::received::receive;
use crate::steps::{at_most, room};
use adding::add::add;
use keys::load::load;
use keys::places::KeyTable;
use keys::refusal::Refusal;
use legality::open::{count_nodes, open};
use xml::tape::{Document, clear};
use xml::writer::put_word;

// An archive's nodes and bytes.
#[derive(Clone, Copy)]
pub struct Size {
    pub nodes: usize,
    pub bytes: usize,
}

// Refuses a result of this size that is too large, or longer than the output.
fn storable(size: Size, room: usize) -> Result<(), Refusal>
    ensures { meant result ≡ fitting size.nodes size.bytes room }
{
    if 1024 < size.nodes {
        return Err(Refusal::ResultTooLarge);
    }
    if 32768 < size.bytes {
        return Err(Refusal::ResultTooLarge);
    }
    if room < size.bytes {
        return Err(Refusal::OutputTooShort);
    }
    Ok(())
}

// Writes the archive of n versions on the tape with the version on the other tape onto a draft, as far as it fits, and answers its size.
fn write_grown(
    keys: &KeyTable,
    archive: &Document,
    hi: usize,
    version: &Document,
    m: usize,
    n: usize,
    draft: &mut [u8],
) -> Size
    requires { SomeAdding keys.now.text.now keys.now.table.now keys.now.paths archive.now.src.now archive.now.tape.now hi version.now.src.now version.now.tape.now m n × (n ≤ 998) × (hi ≤ 16384) × (m ≤ 512) }
    ensures { (K : KeyList) (f v : Forest)
        → Adding keys.now.text.now keys.now.table.now keys.now.paths archive.now.src.now archive.now.tape.now hi version.now.src.now version.now.tape.now m n K f v
        → Drafted (add_forest K n v f) result draft.new }
{
    let x = add(keys, archive, hi, version, m, n, draft, 0);
    let old = count_nodes(archive, 0, hi);
    Size {
        nodes: old + x.fresh,
        bytes: x.at,
    }
}

// Gives the archive of this size that was drafted, if it may be stored and fits.
fn give_draft(draft: &[u8], size: Size, out: &mut [u8]) -> Result<usize, Refusal>
    requires { min size.bytes 32768 ≤ length draft.now }
    ensures { (g : Forest) → Drafted g size draft.now
        → Gives (store_in g (length out.old)) (number_in result) (length_in result) out.old out.new }
{
    storable(size, out.len())?;
    let count = put_word(&draft[..size.bytes], out, 0);
    Ok(count)
}

// Gives the archive of n versions on the tape with the version on the other tape, if it may be stored and fits.
// It is drafted first, since an output keeps its bytes where the archive is refused; each that may be stored fits on the draft.
fn give_long(
    keys: &KeyTable,
    archive: &Document,
    hi: usize,
    version: &Document,
    m: usize,
    n: usize,
    out: &mut [u8],
) -> Result<usize, Refusal>
    requires { SomeAdding keys.now.text.now keys.now.table.now keys.now.paths archive.now.src.now archive.now.tape.now hi version.now.src.now version.now.tape.now m n × (n ≤ 998) × (hi ≤ 16384) × (m ≤ 512) }
    ensures { (K : KeyList) (f v : Forest)
        → Adding keys.now.text.now keys.now.table.now keys.now.paths archive.now.src.now archive.now.tape.now hi version.now.src.now version.now.tape.now m n K f v
        → Gives (store_in (add_forest K n v f) (length out.old)) (number_in result) (length_in result) out.old out.new }
{
    let mut draft = [0u8; 32768];
    let size = write_grown(keys, archive, hi, version, m, n, &mut draft);
    give_draft(&draft, size, out)
}

// Gives it by way of a short draft, where that can hold it.
fn give_short(
    keys: &KeyTable,
    archive: &Document,
    hi: usize,
    version: &Document,
    m: usize,
    n: usize,
    out: &mut [u8],
) -> Result<usize, Refusal>
    requires { SomeAdding keys.now.text.now keys.now.table.now keys.now.paths archive.now.src.now archive.now.tape.now hi version.now.src.now version.now.tape.now m n × (n ≤ 998) × (hi ≤ 16384) × (m ≤ 512) }
    ensures { (K : KeyList) (f v : Forest)
        → Adding keys.now.text.now keys.now.table.now keys.now.paths archive.now.src.now archive.now.tape.now hi version.now.src.now version.now.tape.now m n K f v
        → Gives (store_in (add_forest K n v f) (length out.old)) (number_in result) (length_in result) out.old out.new }
{
    let mut draft = [0u8; 1024];
    let size = write_grown(keys, archive, hi, version, m, n, &mut draft);
    if 1024 < size.bytes {
        return give_long(keys, archive, hi, version, m, n, out);
    }
    give_draft(&draft, size, out)
}

// Gives the archive of n versions on the tape with the version on the other tape, if there may be one more.
fn give_grown(
    keys: &KeyTable,
    archive: &Document,
    hi: usize,
    version: &Document,
    m: usize,
    n: usize,
    out: &mut [u8],
) -> Result<usize, Refusal>
    requires { SomeAdding keys.now.text.now keys.now.table.now keys.now.paths archive.now.src.now archive.now.tape.now hi version.now.src.now version.now.tape.now m n × (hi ≤ 16384) × (m ≤ 512) }
    ensures { (K : KeyList) (f v : Forest)
        → Adding keys.now.text.now keys.now.table.now keys.now.paths archive.now.src.now archive.now.tape.now hi version.now.src.now version.now.tape.now m n K f v
        → Gives (add_to K n v (length out.old) f) (number_in result) (length_in result) out.old out.new }
{
    if n == 999 {
        return Err(Refusal::NoVersion);
    }
    if archive.src.len() <= 1024 {
        if version.src.len() <= 1024 {
            return give_short(keys, archive, hi, version, m, n, out);
        }
    }
    give_long(keys, archive, hi, version, m, n, out)
}

// Adds a version, with room to work in.
pub fn add_in(
    keys: &[u8],
    archive: &[u8],
    version: &[u8],
    out: &mut [u8],
    work: &mut [u32],
) -> Result<usize, Refusal>
    requires { Roomy archive.now work.old × Roomy version.now work.old }
    ensures { Gives (add_from keys.now version.now archive.now (length out.old)) (number_in result) (length_in result) out.old out.new }
{
    at_most(keys, 4096)?;
    at_most(version, 16384)?;
    at_most(archive, 32768)?;
    let mut table = [0u32; 256];
    let paths = load(keys, &mut table)?;
    let list = KeyTable {
        text: keys,
        table: &table,
        paths,
    };
    let mut canon = [0u32; 1024];
    let m = receive(&list, version, work, &mut canon)?;
    let opened = open(&list, archive, work)?;
    let doc = Document {
        src: archive,
        tape: work,
    };
    let received = Document {
        src: version,
        tape: &canon,
    };
    give_grown(
        &list,
        &doc,
        opened.nodes,
        &received,
        m,
        opened.versions,
        out,
    )
}

// Adds a version to an archive.
pub fn add_version(
    keys: &[u8],
    archive: &[u8],
    version: &[u8],
    out: &mut [u8],
    work: &mut [u32],
) -> Result<usize, Refusal>
    ensures { Ends (add_answer keys.now version.now archive.now (length out.old) (length work.old))
        out.old work.old (number_in result) (length_in result) out.new work.new }
{
    room(work)?;
    let answer = add_in(keys, archive, version, out, work);
    clear(work);
    answer
}
