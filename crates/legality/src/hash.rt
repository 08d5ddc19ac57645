// Hashes of forests: numbers that equal forests share, so that forests with different hashes need no comparison.
ghost use Rattle.std.specs.Prelude.{◌≡◌, ◌+◌, ◌*◌, ◌^◌, ◌<◌, ◌≤◌, length};
ghost use Rattle.std.proofs.Math.Seq.{slice};
ghost use Rattle.xml.specs.Read.{unescape};
ghost use Rattle.xml.specs.Tape.{Valid};
ghost use Rattle.versions.specs.Hashes.{mixed, folded, hash_node, HashOf};
ghost use Rattle.legality.specs.Folded.{weighed};

use xml::tape::Document;
use xml::text::{plain_end, sign_at};

// A byte folded into a hash.
fn mix(h: u32, b: u8) -> u32
    requires { h < 65536 }
    ensures { result ≡ mixed h b }
{
    (h * 31 + b as u32) % 65536
}

// A byte times a weight.
fn weigh(b: u8, w: u32) -> u32
    requires { w < 65536 }
    ensures { (result ≡ b * w) × (result < 2 ^ 24) }
{
    b as u32 * w
}

// The sum of the four bytes from i on, each times its weight.
fn weigh_four(src: &[u8], i: usize, w: u32, x: u32, y: u32, z: u32) -> u32
    requires { (i + 4 ≤ length src.now) × (w < 65536) × (x < 65536) × (y < 65536) × (z < 65536) }
    ensures { (result ≡ weighed src.now i w x y z) × (result < 2 ^ 26) }
{
    weigh(src[i], w) + weigh(src[i + 1], x) + weigh(src[i + 2], y) + weigh(src[i + 3], z)
}

// Sixteen bytes folded into a hash at once: the weights are the powers of 31.
fn fold_block(src: &[u8], i: usize, h: u32) -> u32
    requires { (i + 16 ≤ length src.now) × (h < 65536) }
    ensures { result ≡ folded h (slice i (i + 16) src.now) }
{
    let first = weigh_four(src, i, 56799, 27201, 51615, 1665);
    let second = weigh_four(src, i + 4, 42335, 45761, 28959, 28417);
    let third = weigh_four(src, i + 8, 11487, 15169, 55455, 6017);
    let last = weigh_four(src, i + 12, 29791, 961, 31, 1);
    (h * 56833 % 65536 + first + second + third + last) % 65536
}

// The bytes src[a..e] folded into a hash, one by one.
fn fold_bytes(src: &[u8], a: usize, e: usize, start: u32) -> u32
    requires { (a ≤ e) × (e ≤ length src.now) × (start < 65536) }
    ensures { result ≡ folded start (slice a e src.now) }
{
    let mut h = start;
    for b in &src[a..e] {
        h = mix(h, *b);
    }
    h
}

// The bytes src[a..e] folded into a hash: whole blocks first, then byte by byte.
fn fold_plain(src: &[u8], a: usize, e: usize, start: u32) -> u32
    requires { (a ≤ e) × (e ≤ length src.now) × (start < 65536) }
    ensures { result ≡ folded start (slice a e src.now) }
{
    let mut i = a;
    let mut h = start;
    while 16 <= e - i {
        h = fold_block(src, i, h);
        i += 16;
    }
    fold_bytes(src, i, e, h)
}

// What the run src[a..e] means, folded into a hash: bytes that stand for themselves are folded together.
fn fold_run(src: &[u8], a: usize, e: usize, start: u32) -> u32
    requires { (a ≤ e) × (e ≤ length src.now) × (start < 65536) }
    ensures { result ≡ folded start (unescape 0 (slice a e src.now)) }
{
    let mut i = plain_end(src, a, e);
    let mut h = fold_plain(src, a, i, start);
    while i < e {
        let s = sign_at(src, i, e);
        h = mix(h, s.byte);
        i = plain_end(src, s.next, e);
        h = fold_plain(src, s.next, i, h);
    }
    h
}

// A node of this kind, named by src[a..e], folded into a hash.
fn hash_node(src: &[u8], kind: u32, a: usize, e: usize, h: u32) -> u32
    requires { (a ≤ e) × (e ≤ length src.now) × (h < 65536) }
    ensures { result ≡ hash_node kind (slice a e src.now) h }
{
    if kind == 0 {
        return fold_run(src, a, e, mix(h, 0));
    }
    if kind == 1 {
        return mix(h, 1);
    }
    mix(h, 2)
}

// The hash of the nodes lo to hi.
pub fn hash(doc: &Document, lo: usize, hi: usize) -> u32
    requires { Valid doc.now.src.now doc.now.tape.now lo hi }
    ensures { HashOf doc.now.src.now doc.now.tape.now lo hi result }
{
    let mut h = 0;
    for i in lo..hi {
        let v = doc.view(i);
        h = hash_node(doc.src, v.kind, v.start, v.end, h);
    }
    h
}
