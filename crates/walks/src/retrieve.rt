// Writing a version of an archive whose text lies on a tape: what stands in a `T` without the version is left out, and no `T` is written.
ghost use Rattle.std.specs.Prelude.{◌+◌, ◌*◌, ◌-◌, ◌^◌, ◌<◌, ◌≡◌};
ghost use Rattle.xml.specs.Tape.{next_at};
ghost use Rattle.versions.specs.Rendered.{Renders};
ghost use Rattle.versions.specs.Timely.{Timely};
ghost use Rattle.versions.specs.VersionText.{version_text};

use timestamp::text::belongs;
use xml::tape::Document;
use xml::writer::{least, put_close, put_open, put_text};

// Writes what of node p is in version i, from the start of `out`.
#[cycle(write_node_write_version)]
fn write_node(doc: &Document, p: usize, i: usize, out: &mut [u8]) -> usize
    requires { (p < next_at doc.now.tape.now p) × Timely i doc.now.src.now doc.now.tape.now p (next_at doc.now.tape.now p) × (163840 * (next_at doc.now.tape.now p - p) < 2 ^ 61) }
    ensures { Renders (version_text i) doc.now.src.now doc.now.tape.now p (next_at doc.now.tape.now p) out.old 0 result out.new }
{
    let v = doc.view(p);
    if v.kind == 0 {
        return put_text(&doc.src[v.start..v.end], out, 0);
    }
    if v.kind == 1 {
        let inside = put_open(true, &doc.src[v.start..v.end], out, 0);
        let close = write_version(doc, p + 1, v.next, i, out, inside);
        return put_close(true, &doc.src[v.start..v.end], out, close);
    }
    let start = v.start;
    let end = v.end;
    if belongs(&doc.src[start..end], i) {
        return write_version(doc, p + 1, v.next, i, out, 0);
    }
    0
}

// Writes what of the nodes lo to hi is in version i. The writer of each node is lent the output's part from the current place. The siblings
// are linked by `next`, so no range counts them.
#[cycle(write_node_write_version)]
pub fn write_version(
    doc: &Document,
    lo: usize,
    hi: usize,
    i: usize,
    out: &mut [u8],
    at: usize,
) -> usize
    requires { Timely i doc.now.src.now doc.now.tape.now lo hi × (at + 163840 * (hi - lo) < 2 ^ 61) }
    ensures { Renders (version_text i) doc.now.src.now doc.now.tape.now lo hi out.old at result out.new }
{
    let mut p = lo;
    let mut to = at;
    while p < hi {
        let from = least(to, out.len());
        to += write_node(doc, p, i, &mut out[from..]);
        p = doc.view(p).next;
    }
    to
}
