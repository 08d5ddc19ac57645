// The line of a case.
ghost use Rattle.std.specs.Prelude.{◌<◌, ◌≤◌, length};

use files::within;
use keys::refusal::Refusal;
use marks::Table;
use marks::bytes::put_table;

// A sum of the checksum, with one more byte or one more value of the other sum.
fn plus(sum: u64, more: u64) -> u64
    requires { (sum < 65521) × (more < 65521) }
    ensures { result < 65521 }
{
    (sum + more) % 65521
}

// The Adler-32 checksum of bytes (RFC 1950).
fn checksum(bytes: &[u8]) -> u64 {
    let mut a = 1;
    let mut b = 0;
    for byte in bytes {
        a = plus(a, u64::from(*byte));
        b = plus(b, a);
    }
    b * 65536 + a
}

// The result of a call, in its output.
pub fn result_in(answer: Result<usize, Refusal>, out: &[u8]) -> &[u8]
    ensures { length result.now ≤ length out.now }
{
    let n = within(answer.unwrap_or(0), out);
    &out[..n]
}

// A case's name, the number, the length and, of a result, its bytes or, where they are over 120, their checksum.
fn case(rt: &HostRuntime, name: &str, answer: Result<usize, Refusal>, out: &[u8]) {
    let (number, length) = match answer {
        Ok(length) => (0, length),
        Err(refusal) => (refusal.number(), 0),
    };
    let _ = print!(rt; "{name}: {number} {length}");
    let bytes = result_in(answer, out);
    if 120 < bytes.len() {
        let sum = checksum(bytes);
        let _ = print!(rt; " sum {sum:08x}");
    } else if !bytes.is_empty() {
        let _ = rt.print(" ");
        let _ = rt.write_all(bytes);
    }
}

// The line of a call over no table; answers its result.
pub fn line<'o>(
    rt: &HostRuntime,
    name: &str,
    answer: Result<usize, Refusal>,
    out: &'o [u8],
) -> &'o [u8]
    ensures { length result.now ≤ length out.now }
{
    case(rt, name, answer, out);
    let _ = rt.print("\n");
    result_in(answer, out)
}

// The line of a call that leaves a table: its checksum too.
pub fn table_line(
    rt: &HostRuntime,
    name: &str,
    answer: Result<usize, Refusal>,
    t: Table,
    out: &[u8],
) {
    let mut bytes = [0u8; 608];
    put_table(t, &mut bytes);
    case(rt, name, answer, out);
    let sum = checksum(&bytes);
    let _ = println!(rt; " table {sum:08x}");
}

// The line of a call that finds a version.
pub fn version_line(rt: &HostRuntime, name: &str, found: Result<usize, Refusal>) {
    case(rt, name, found.and(Ok(0)), b"");
    let version = found.unwrap_or(0);
    let _ = println!(rt; " version {version}");
}
