// Line ends: a record with a note, saved on tablets that end lines with LF, CR LF and CR; archives that hold CR; and the sizes of 2 and 6.
use crate::calls::{Bench, Out};
use crate::text::{Text, version_of};
use files::written;
use std::io::{Cursor, Write};

// The record as a tablet with such line ends saves it; its note has an element of two lines.
fn note(end: &str, light: &str) -> Text {
    let mut text = Cursor::new([0; 16384]);
    let _ = write!(
        text,
        "<s>{end}<f>{light}.{end}{end}<by>keeper{end}W</by>{end}</f>{end}</s>{end}"
    );
    text
}

// Three versions that one tablet saves, the third as the first.
fn tablet(bench: &mut Bench, names: [&str; 3], end: &str, a: &mut Out, b: &mut Out) {
    let [first, second, third] = names;
    let one = bench.founds(first, written(&note(end, "Fl 5s")), a);
    let two = bench.adds(second, one, written(&note(end, "Oc 4s")), b);
    bench.adds(third, two, written(&note(end, "Fl 5s")), a);
}

// The same on each tablet.
fn tablets(bench: &mut Bench, a: &mut Out, b: &mut Out) {
    let feed = ["LF founded", "LF added", "LF added again"];
    let pair = ["CR LF founded", "CR LF added", "CR LF added again"];
    let lone = ["CR founded", "CR added", "CR added again"];
    tablet(bench, feed, "\n", a, b);
    tablet(bench, pair, "\r\n", a, b);
    tablet(bench, lone, "\r", a, b);
}

// One note, saved on each tablet, and what the archive of three versions with one content gives.
fn saved_on_each(bench: &mut Bench, a: &mut Out, b: &mut Out) {
    let one = bench.founds_unseen(written(&note("\n", "Fl 5s")), a);
    let two = bench.adds("saved on CR LF", one, written(&note("\r\n", "Fl 5s")), b);
    let three = bench.adds("saved on CR", two, written(&note("\r", "Fl 5s")), a);
    bench.retrieves("note retrieved", three, 2, b);
    bench.gives_history("note history", three, "/s/f", b);
    bench.steps_back("note back", three, 1, b);
}

// Archives that hold CR (10).
fn archives_with_cr(bench: &mut Bench, out: &mut Out) {
    let pair = b"<T t=\"1\"><s><f>a\r\nb</f></s></T>";
    let lone = b"<T t=\"1\"><s><f>a\rb</f></s></T>";
    let after = b"<T t=\"1\"><s></s></T>\r";
    bench.retrieves("archive with CR LF", pair, 1, out);
    bench.retrieves("archive with CR", lone, 1, out);
    bench.retrieves("archive with CR after it", after, 1, out);
}

// A text as long as 2 allows; a written form as long as 6 allows, and a longer one.
fn sizes(bench: &mut Bench, out: &mut Out) {
    for (name, word, count) in [
        ("16,384 bytes with CR LF", "\r\n", 8185),
        ("16,384 written with CR LF", ">\r\n", 3274),
        ("refusal 6 with CR LF", ">\r\n", 3275),
    ] {
        bench.founds(name, written(&version_of(word, count, "")), out);
    }
}

// Line ends.
pub fn line_ends(bench: &mut Bench, a: &mut Out, b: &mut Out) {
    tablets(bench, a, b);
    saved_on_each(bench, a, b);
    archives_with_cr(bench, a);
    sizes(bench, a);
}
