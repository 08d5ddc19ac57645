// A version's text received: read, checked against the key list, and put in canonical order; or refused under 5 to 9.
ghost use Rattle.std.specs.Prelude.{◌≤◌, length};
ghost use Rattle.legality.specs.Opened.{Roomy};
ghost use Rattle.archive.specs.Reception.{OnTape, Receives};
ghost use Rattle.keys.specs.Loading.{Tabled};

use keys::arrange::arrange;
use keys::keyed::is_unkeyed;
use keys::measure::too_large;
use keys::placed::is_misplaced;
use keys::places::KeyTable;
use keys::refusal::Refusal;
use xml::compare::is_white;
use xml::reader::read;
use xml::tape::Document;

// Checks a version that lies on the tape, and puts it onto `canon` in canonical order: so many nodes.
fn accept(
    keys: &KeyTable,
    doc: &Document,
    count: usize,
    canon: &mut [u32],
) -> Result<usize, Refusal>
    requires { Tabled keys.now.text.now keys.now.table.now keys.now.paths × OnTape doc.now.src.now doc.now.tape.now count × (1024 ≤ length canon.old) }
    ensures { Receives keys.now.text.now keys.now.table.now keys.now.paths doc.now.src.now canon.new result }
{
    if too_large(keys, doc, count) {
        return Err(Refusal::VersionTooLarge);
    }
    if is_misplaced(keys, doc, count) {
        return Err(Refusal::Misplaced);
    }
    if is_unkeyed(keys, doc, count) {
        return Err(Refusal::Unkeyed);
    }
    match arrange(keys, doc, count, canon) {
        Some(m) => Ok(m),
        None => Err(Refusal::Doubled),
    }
}

// Receives a version's text: one of white space alone has no node, a station out of commission; any other is read by way of the work
// cells, and put onto `canon` in canonical order.
pub(crate) fn receive(
    keys: &KeyTable,
    src: &[u8],
    work: &mut [u32],
    canon: &mut [u32],
) -> Result<usize, Refusal>
    requires { Tabled keys.now.text.now keys.now.table.now keys.now.paths × (length src.now ≤ 16384) × Roomy src.now work.old × (1024 ≤ length canon.old) }
    ensures { Receives keys.now.text.now keys.now.table.now keys.now.paths src.now canon.new result }
{
    if is_white(src) {
        return Ok(0);
    }
    match read(src, false, work) {
        Ok(count) => accept(keys, &Document { src, tape: work }, count, canon),
        Err(_) => Err(Refusal::VersionText),
    }
}
