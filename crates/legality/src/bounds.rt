// What one version has of an archive's nodes at most: of the contents of a frontier, of which it has no two, the largest counts.
ghost use Rattle.std.specs.Prelude.{◌≡◌, ◌+◌, ◌*◌, ◌<◌, ◌≤◌, length};
ghost use Rattle.xml.specs.Bytes.{Bytes};
ghost use Rattle.xml.specs.Forest.{Forest};
ghost use Rattle.xml.specs.Tape.{next_at, Tape, Valid};
ghost use Rattle.legality.specs.Bounds.{content_node, Bounds};

use crate::legal::is_sole;
use xml::compare::text_len;
use xml::tape::{Document, is_run, view_at};

// So many nodes, and so many written bytes.
#[derive(Clone, Copy)]
pub struct Size {
    pub nodes: u32,
    pub bytes: u32,
}

// Node p is a content of a frontier: a `T` around anything but one element.
fn is_content(tape: &[u32], p: usize) -> bool
    requires { (2 * p + 1 < length tape.now) × (p < next_at tape.now p) × (p + 1 < next_at tape.now p → 2 * (p + 1) + 1 < length tape.now) }
    ensures { (src : Bytes) (f : Forest) → Tape src tape.now p (next_at tape.now p) f → result ≡ content_node f }
{
    let v = view_at(tape, p);
    if v.kind != 2 {
        return false;
    }
    !is_sole(tape, p + 1, v.next)
}

// The nodes lo to hi, which a node holds: one run of text is measured with no walk.
#[cycle(bound_bound_inside_bound_node)]
fn bound_inside(doc: &Document, lo: usize, hi: usize, left: usize) -> Option<Size>
    requires { Valid doc.now.src.now doc.now.tape.now lo hi × (hi ≤ 16384) }
    ensures { Bounds doc.now.src.now doc.now.tape.now lo hi left result }
{
    if is_run(doc.tape, lo, hi) {
        let v = doc.view(lo);
        return Some(Size {
            nodes: 1,
            bytes: text_len(&doc.src[v.start..v.end]) as u32,
        });
    }
    bound(doc, lo, hi, left)
}

// Node p, with elements at most `left` deep; none where it stops.
#[cycle(bound_bound_inside_bound_node)]
fn bound_node(doc: &Document, p: usize, left: usize) -> Option<Size>
    requires { (p < next_at doc.now.tape.now p) × Valid doc.now.src.now doc.now.tape.now p (next_at doc.now.tape.now p) × (next_at doc.now.tape.now p ≤ 16384) }
    ensures { Bounds doc.now.src.now doc.now.tape.now p (next_at doc.now.tape.now p) left result }
{
    let v = doc.view(p);
    if v.kind == 0 {
        return Some(Size {
            nodes: 1,
            bytes: text_len(&doc.src[v.start..v.end]) as u32,
        });
    }
    if v.kind == 2 {
        return bound_inside(doc, p + 1, v.next, left);
    }
    if left == 0 {
        return None;
    }
    let inside = bound_inside(doc, p + 1, v.next, left - 1)?;
    let name = (v.end - v.start) as u32;
    Some(Size {
        nodes: 1 + inside.nodes,
        bytes: 2 * name + 5 + inside.bytes,
    })
}

// The nodes lo to hi, with elements at most `left` deep; none where they are too many for a version. The siblings are linked by `next`, so no
// range counts them.
#[cycle(bound_bound_inside_bound_node)]
pub(crate) fn bound(doc: &Document, lo: usize, hi: usize, left: usize) -> Option<Size>
    requires { Valid doc.now.src.now doc.now.tape.now lo hi × (hi ≤ 16384) }
    ensures { Bounds doc.now.src.now doc.now.tape.now lo hi left result }
{
    let mut p = lo;
    let mut nodes = 0u32;
    let mut bytes = 0u32;
    let mut most_nodes = 0u32;
    let mut most_bytes = 0u32;
    while p < hi {
        let v = doc.view(p);
        let node = bound_node(doc, p, left)?;
        if 512 < node.nodes {
            return None;
        }
        if is_content(doc.tape, p) {
            most_nodes = most_nodes.max(node.nodes);
            most_bytes = most_bytes.max(node.bytes);
            p = v.next;
            continue;
        }
        nodes += node.nodes;
        bytes += node.bytes;
        if 512 < nodes {
            return None;
        }
        p = v.next;
    }
    Some(Size {
        nodes: nodes + most_nodes,
        bytes: bytes + most_bytes,
    })
}
