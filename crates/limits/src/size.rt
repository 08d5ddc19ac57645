// Nodes and depth at their limits.
use crate::calls::{Bench, Out};
use crate::text::version_of;
use files::written;

// The sizes of a version: 512 and 513 nodes, depth 16 and 17.
pub fn sizes(bench: &mut Bench, out: &mut Out) {
    for (name, word, count, close) in [
        ("512 nodes", "<a/>", 510, ""),
        ("513 nodes", "<a/>", 511, ""),
        ("depth 16", "<a>", 14, "</a>"),
        ("depth 17", "<a>", 15, "</a>"),
    ] {
        bench.founds(name, written(&version_of(word, count, close)), out);
    }
}

// The nodes of an archive whose one frontier has three contents: 1,012, 1,024, and 1,025 (13).
pub fn archive_nodes(bench: &mut Bench, a: &mut Out, b: &mut Out) {
    let one = bench.founds_unseen(written(&version_of("<a/>", 510, "")), a);
    let two = bench.adds("1,012 nodes", one, written(&version_of("<b/>", 500, "")), b);
    bench.adds("1,024 nodes", two, written(&version_of("<c/>", 12, "")), a);
    bench.adds("refusal 13", two, written(&version_of("<c/>", 13, "")), a);
}
