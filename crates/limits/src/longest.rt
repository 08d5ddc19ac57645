// The longest history line: short texts, the borders at 10, 100 and 999, outputs, refusals, and an archive of 999 versions with such a history.
use crate::calls::{Bench, Out};
use crate::text::Text;
use files::written;
use std::io::{Cursor, Write};

// The texts: over few versions, at the borders of two and three digits, and the last ones.
fn texts(bench: &mut Bench, out: &mut Out) {
    for (name, of) in [
        ("longest of 1", 1),
        ("longest of 2", 2),
        ("longest of 3", 3),
        ("longest of 9", 9),
        ("longest of 10", 10),
        ("longest of 35", 35),
        ("longest of 99", 99),
        ("longest of 100", 100),
        ("longest of 101", 101),
        ("longest of 102", 102),
        ("longest of 998", 998),
        ("longest of 999", 999),
    ] {
        bench.gives_longest(name, of, out);
    }
}

// Outputs of exactly the text's length and one byte short.
fn line_outputs(bench: &mut Bench, out: &mut Out) {
    bench.gives_longest("longest exact", 999, &mut out[..2591]);
    bench.gives_longest("longest short", 999, &mut out[..2590]);
}

// 11, also where nothing would fit; 1, whatever the number.
fn line_refusals(bench: &mut Bench, out: &mut Out) {
    let mut few = [0u32; 16383];
    bench.gives_longest("longest of 0", 0, &mut []);
    bench.gives_longest("longest of 1,000", 1000, &mut []);
    bench
        .working_in(&mut few)
        .gives_longest("longest refusal 1", 0, out);
}

// The archive of 999 versions of which those of the longest line have a root, and the others are vacant.
fn lit(bench: &mut Bench, out: &mut Out) -> Text {
    let mut text = Cursor::new([0; 16384]);
    let _ = text.write_all(b"<T t=\"1-999\"><T t=\"");
    let _ = text.write_all(bench.gives_longest_unseen(999, out));
    let _ = text.write_all(b"\"><s></s></T></T>");
    text
}

// An archive's history that is the longest, with an output of exactly its length and one byte short.
fn histories(bench: &mut Bench, out: &mut Out) {
    let text = lit(bench, out);
    let archive = written(&text);
    bench.gives_history("longest history", archive, "/s", &mut out[..2591]);
    bench.gives_history("longest history short", archive, "/s", &mut out[..2590]);
}

// The longest line.
pub fn lines(bench: &mut Bench, out: &mut Out) {
    texts(bench, out);
    line_outputs(bench, out);
    line_refusals(bench, out);
    histories(bench, out);
}
