// Each refusal once; 13 is in `size`, 15 to 17 are in `mark`.
use crate::calls::{Bench, Out};
use crate::text::{times, version_of};
use files::written;

// 1 to 4, the work cells and the key list, and a list that is right.
pub fn key_refusals(bench: &mut Bench) {
    let mut few = [0u32; 16383];
    let long = times("x", 4097);
    bench.working_in(&mut few).checks("refusal 1");
    bench.under(written(&long)).checks("refusal 2");
    bench.under(b"(/, (s, {}))").checks("refusal 3");
    bench.under(b"(/, (T, {}))\n").checks("refusal 4");
    bench.checks("keys");
}

// 5 to 9: the version's text and its elements.
pub fn version_refusals(bench: &mut Bench, out: &mut Out) {
    let over = version_of(">", 4093, "");
    bench.founds("refusal 5", b"<s>", out);
    bench.founds("refusal 6", written(&over), out);
    bench.founds("refusal 7", b"<s>x</s>", out);
    bench.founds("refusal 8", b"<s><k/></s>", out);
    bench.founds("refusal 9", b"<s><f/><f/></s>", out);
}

// 10, 11, 12 and 14: the archive, the number, the address and the output.
pub fn archive_refusals(bench: &mut Bench, out: &mut Out) {
    let archive = b"<T t=\"1\"><s></s></T>";
    bench.retrieves("refusal 10", b"<T t=\"1\"><s></s></T>\n", 1, out);
    bench.retrieves("refusal 11", archive, 0, out);
    bench.gives_history("refusal 12", archive, "/s/", out);
    bench.steps_back("refusal 14", archive, 1, &mut []);
}
