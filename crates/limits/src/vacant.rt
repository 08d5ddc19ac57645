// Vacant versions: a station lit late, one struck off and relit, a mark of a vacant version, and archives that are none.
use crate::calls::{Bench, Out};
use crate::text::times;
use files::written;
use marks::entries::blank;

// Founding from a version that is empty or white space alone.
fn first_versions(bench: &mut Bench, out: &mut Out) {
    let spaces = times(" ", 16384);
    bench.founds("vacant exact", b"", &mut out[..13]);
    bench.founds("vacant short", b" \t\r\n", &mut out[..12]);
    bench.founds("16,384 spaces", written(&spaces), out);
}

// Adding to an archive whose every version is vacant.
fn unlit_adds(bench: &mut Bench, out: &mut Out) {
    bench.adds("vacant twice", b"<T t=\"1\"></T>", b"", out);
    bench.adds("lit at last", b"<T t=\"1-2\"></T>", b"<s><f>x</f></s>", out);
}

// Striking a station off, and relighting it.
fn struck_adds(bench: &mut Bench, out: &mut Out) {
    let lit = b"<T t=\"1-2\"><s><T t=\"1\"><f>x</f></T></s></T>";
    let off = b"<T t=\"1-3\"><T t=\"1-2\"><s><T t=\"1\"><f>x</f></T></s></T></T>";
    bench.adds("struck off", lit, b"\n", out);
    bench.adds("relit", off, b"<s/>", out);
}

// Versions of the relit station, and histories of a root.
fn relit_versions(bench: &mut Bench, relit: &[u8], out: &mut Out) {
    bench.retrieves("retrieve vacant", relit, 3, &mut []);
    bench.retrieves("retrieve relit", relit, 4, out);
    bench.gives_history("history of a relit root", relit, "/s", out);
    bench.gives_history("history of no root", b"<T t=\"1-2\"></T>", "/s", &mut []);
}

// Steps back to vacant versions and across them.
fn vacant_backs(bench: &mut Bench, relit: &[u8], out: &mut Out) {
    let lit = b"<T t=\"1-3\"><T t=\"3\"><s><f>x</f></s></T></T>";
    bench.steps_back("back to vacant", relit, 3, out);
    bench.steps_back("back past vacant", relit, 2, out);
    bench.steps_back("back to no root", lit, 2, out);
}

// A mark of a vacant version.
fn vacant_marks(bench: &mut Bench, relit: &[u8], out: &mut Out) {
    let t = bench.sets(
        "mark of a vacant version",
        relit,
        blank(32),
        "struck-off",
        3,
    );
    bench.steps_back_to_mark("back to the vacant mark", relit, t, "struck-off", out);
}

// Sets of a root that no archive has.
fn root_refusals(bench: &mut Bench, out: &mut Out) {
    let empty = b"<T t=\"1\"><T t=\"\"><s></s></T></T>";
    let shortened = b"<T t=\"1\"><T t=\"1-2\"><s></s></T></T>";
    let repeated = b"<T t=\"1\"><T t=\"1\"><s></s></T></T>";
    bench.retrieves("empty set", empty, 1, out);
    bench.retrieves("outer set shortened", shortened, 1, out);
    bench.retrieves("outer set repeated", repeated, 1, out);
}

// 999 vacant versions, and one more.
fn last_vacant(bench: &mut Bench, out: &mut Out) {
    let full = b"<T t=\"1-999\"></T>";
    bench.retrieves("999 vacant", full, 999, &mut []);
    bench.adds("1,000 vacant", full, b"", out);
}

// A station that is relit.
fn relit_station(bench: &mut Bench, out: &mut Out) {
    let relit = b"<T t=\"1-4\"><T t=\"1-2,4\"><s><T t=\"1\"><f>x</f></T></s></T></T>";
    relit_versions(bench, relit, out);
    vacant_backs(bench, relit, out);
    vacant_marks(bench, relit, out);
}

// Vacant versions.
pub fn vacancies(bench: &mut Bench, out: &mut Out) {
    first_versions(bench, out);
    unlit_adds(bench, out);
    struck_adds(bench, out);
    relit_station(bench, out);
    root_refusals(bench, out);
    last_vacant(bench, out);
}
