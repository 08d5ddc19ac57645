// Each call with an output of exactly the result's length, and one byte short (14).
use crate::calls::{Bench, Out};

// Founding and adding.
fn version_outputs(bench: &mut Bench, out: &mut Out) {
    let version = b"<s><f>x</f></s>";
    let archive = b"<T t=\"1\"><s><f>x</f></s></T>";
    bench.founds("found exact", version, &mut out[..28]);
    bench.founds("found short", version, &mut out[..27]);
    bench.adds("add exact", archive, b"<s/>", &mut out[..43]);
    bench.adds("add short", archive, b"<s/>", &mut out[..42]);
}

// The calls that take an archive of two versions.
fn archive_outputs(bench: &mut Bench, out: &mut Out) {
    let archive = b"<T t=\"1-2\"><s><T t=\"1\"><f>x</f></T></s></T>";
    bench.retrieves("retrieve exact", archive, 1, &mut out[..15]);
    bench.retrieves("retrieve short", archive, 1, &mut out[..14]);
    bench.gives_history("history exact", archive, "/s", &mut out[..3]);
    bench.gives_history("history short", archive, "/s", &mut out[..2]);
    bench.steps_back("back exact", archive, 1, &mut out[..28]);
    bench.steps_back("back short", archive, 1, &mut out[..27]);
}

// The five calls that have an output.
pub fn outputs(bench: &mut Bench, out: &mut Out) {
    version_outputs(bench, out);
    archive_outputs(bench, out);
}
