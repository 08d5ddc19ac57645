// Marks: a full table, names, outputs, and each refusal of a table.
use crate::calls::{Bench, Out};
use marks::Table;
use marks::bytes::table_from;
use marks::entries::blank;

// A table of so many marks, of versions 2 and 1 by turns; the name of each is a letter.
fn marked(bench: &mut Bench, archive: &[u8], count: usize) -> Table {
    let letters = b"ABCDEFGHIJKLMNOPQRSTUVWXYZabcdef";
    let mut t = blank(32);
    for (at, letter) in letters.iter().take(count).enumerate() {
        t = bench.sets_unseen(archive, t, &[*letter], 2 - at % 2);
    }
    t
}

// Setting in a full table.
fn full_sets(bench: &mut Bench, two: &[u8], full: Table) {
    bench.sets("refusal 16", two, full, "g", 1);
    bench.sets("full, and no version", two, full, "g", 0);
    bench.sets("full, and held", two, full, "A", 1);
}

// Finding in one.
fn full_finds(bench: &mut Bench, two: &[u8], full: Table) {
    bench.finds("find the first", two, full, "A");
    bench.finds("find the last", two, full, "f");
    bench.finds("find none", two, full, "g");
}

// 32 marks, and one more.
fn counts(bench: &mut Bench, two: &[u8], out: &mut Out) {
    bench.sets("mark 1", two, blank(32), "A", 2);
    let most = marked(bench, two, 31);
    let full = bench.sets("mark 32", two, most, "f", 1);
    full_sets(bench, two, full);
    full_finds(bench, two, full);
    bench.steps_back_marked("marks kept", two, full, 2, out);
    bench.steps_back_marked("marks dropped", two, full, 1, out);
}

// Names of 17 bytes, none, and one that is illegal.
fn set_names(bench: &mut Bench, two: &[u8], t: Table) {
    bench.sets("name of 17", two, t, "as_commissioned.1", 1);
    bench.sets("name of none", two, t, "", 1);
    bench.sets("refusal 15", two, t, "as commissioned", 1);
}

// Names and versions at their limits: a name of 16 bytes found, and not its first 15; versions outside 1 to n.
fn names(bench: &mut Bench, two: &[u8]) {
    let t = bench.sets("name of 16", two, blank(32), "as_commissioned.", 1);
    set_names(bench, two, t);
    bench.finds("find a name of 16", two, t, "as_commissioned.");
    bench.finds("find a name of 15", two, t, "as_commissioned");
    bench.sets("mark of n + 1", two, t, "later", 3);
    bench.sets("mark of 0", two, t, "never", 0);
}

// Outputs of exactly the result's length, and one byte short; and a name that is not held before an output that is too short.
fn outputs(bench: &mut Bench, two: &[u8], out: &mut Out) {
    let t = marked(bench, two, 2);
    bench.steps_back_to_mark("back to mark exact", two, t, "B", &mut out[..28]);
    bench.steps_back_to_mark("back to mark short", two, t, "B", &mut out[..27]);
    bench.steps_back_marked("marked back exact", two, t, 1, &mut out[..28]);
    bench.steps_back_marked("marked back short", two, t, 1, &mut out[..27]);
    bench.steps_back_to_mark("back to no mark", two, t, "C", &mut []);
}

// A mark of version 2, lent with an archive of one version.
fn late_refusals(bench: &mut Bench, t: Table) {
    let one = b"<T t=\"1\"><s></s></T>";
    bench.sets("refusal 17", one, t, "", 0);
    bench.finds("find refusal 17", one, t, "A");
    bench.steps_back_marked("back refusal 17", one, t, 0, &mut []);
    bench.steps_back_to_mark("back to mark refusal 17", one, t, "", &mut []);
}

// An unused entry that is not all zero.
fn unused_refusals(bench: &mut Bench, two: &[u8]) {
    let mut bytes = [0u8; 608];
    bytes[607] = 1;
    let t = table_from(&bytes);
    bench.sets("last byte 1", two, t, "A", 1);
    bench.sets("archive before table", b"", t, "A", 1);
}

// Marks of an archive of two versions.
pub fn marks(bench: &mut Bench, out: &mut Out) {
    let two = b"<T t=\"1-2\"><s><T t=\"1\"><f>x</f></T></s></T>";
    counts(bench, two, out);
    names(bench, two);
    outputs(bench, two, out);
    let t = marked(bench, two, 2);
    late_refusals(bench, t);
    unused_refusals(bench, two);
}

// Marks of the last versions of an archive of 999.
fn last_sets(bench: &mut Bench, archive: &[u8]) -> Table {
    let one = bench.sets("mark of 998", archive, blank(32), "new-lens", 998);
    let two = bench.sets("mark of 999", archive, one, "new-lamp", 999);
    bench.sets("mark of 1,000", archive, two, "newer", 1000);
    two
}

// Marks of an archive of 999 versions, and stepping back to them.
pub fn last_marks(bench: &mut Bench, archive: &[u8], out: &mut Out) {
    let t = last_sets(bench, archive);
    bench.finds("find 999", archive, t, "new-lamp");
    bench.steps_back_to_mark("back to the mark of 999", archive, t, "new-lamp", out);
    bench.steps_back_to_mark("back to the mark of 998", archive, t, "new-lens", out);
}
