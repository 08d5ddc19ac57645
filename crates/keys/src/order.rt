// Sibling elements in canonical order: the numbers of their nodes in an array, by ascending labels, each put in its place among those before it.
ghost use Rattle.std.specs.Prelude.{◌≡◌, ◌^◌, ◌<◌, ◌≤◌, length};
ghost use Rattle.keys.specs.Labelled.{Labelled};
ghost use Rattle.keys.specs.Checked.{Checked};
ghost use Rattle.keys.specs.Entries.{AllEntries, insert_at, RankOf, Few, OrderIn};

use crate::label::compare_labels;
use crate::places::KeyTable;
use std::cmp::Ordering;
use xml::tape::Document;

// Which of the entries low to high to look at: the last of all k first, as siblings mostly arrive in order, then the one in the middle.
fn probe(low: usize, high: usize, k: usize) -> usize
    requires { (low < high) × (high ≤ 512) }
    ensures { (low ≤ result) × (result < high) }
{
    if high == k {
        return high - 1;
    }
    (low + high) / 2
}

// The place of the element p among the first k of `order`, which ascend: after the last with a label below its own; none, where one has the same label.
fn rank_of(
    keys: &KeyTable,
    place: usize,
    doc: &Document,
    order: &[u16; 512],
    k: usize,
    p: usize,
) -> Option<usize>
    requires { (k < 512) × (length order.now ≡ 512) × AllEntries (Labelled keys.now.text.now keys.now.table.now keys.now.paths place doc.now.src.now doc.now.tape.now) order.now k
        × Labelled keys.now.text.now keys.now.table.now keys.now.paths place doc.now.src.now doc.now.tape.now p }
    ensures { RankOf keys.now.text.now keys.now.table.now keys.now.paths place doc.now.src.now doc.now.tape.now order.now k p result }
{
    let mut low = 0;
    let mut high = k;
    while low < high {
        let mid = probe(low, high, k);
        let q = order[mid] as usize;
        match compare_labels(keys, place, doc, q, doc, p) {
            Ordering::Equal => return None,
            Ordering::Less => low = mid + 1,
            Ordering::Greater => high = mid,
        }
    }
    Some(low)
}

// Puts p at j of the first k of `order`, and those from j on one further.
fn insert(order: &mut [u16; 512], k: usize, j: usize, p: usize)
    requires { (j ≤ k) × (k < 512) × (p < 2 ^ 16) × (length order.old ≡ 512) }
    ensures { order.new ≡ insert_at k j p order.old }
{
    order.copy_within(j..k, j + 1);
    order[j] = p as u16;
}

// The elements among the nodes lo to hi, in an element at the place, put into `order` by ascending labels: how many; none, where two have the same label.
// They are linked by `next`, so no range counts them.
pub fn order_in(
    keys: &KeyTable,
    place: usize,
    doc: &Document,
    lo: usize,
    hi: usize,
    order: &mut [u16; 512],
) -> Option<usize>
    requires { Checked keys.now.text.now keys.now.table.now keys.now.paths place doc.now.src.now doc.now.tape.now lo hi × Few doc.now.src.now doc.now.tape.now lo hi × (length order.old ≡ 512) × (hi ≤ 65536) }
    ensures { OrderIn keys.now.text.now keys.now.table.now keys.now.paths place doc.now.src.now doc.now.tape.now lo hi order.new result }
{
    let mut k = 0;
    let mut p = lo;
    while p < hi {
        let v = doc.view(p);
        if v.kind == 1 {
            let j = rank_of(keys, place, doc, order, k, p)?;
            insert(order, k, j, p);
            k += 1;
        }
        p = v.next;
    }
    Some(k)
}
