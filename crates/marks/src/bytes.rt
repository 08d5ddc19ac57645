// A table as 608 bytes, as C passes it: per entry 16 of name, one of its length, two of version, low byte first.
ghost use Rattle.std.specs.Prelude.{◌≡◌, ◌+◌, ◌<◌, ◌≤◌, length, drop};
ghost use Rattle.std.proofs.Math.Seq.{paste};
ghost use Rattle.marks.specs.Marks.{entry_bytes, table_bytes, mark_of};
ghost use Rattle.marks.specs.Passed.{LendsAs, unreadable};

use crate::{Mark, Table};

// The entry in the 19 bytes from a place on.
fn entry_at(s: &[u8], at: usize) -> Mark
    requires { (at + 19 ≤ length s.now) × (at < 4096) }
    ensures { result ≡ mark_of (drop at s.now) }
{
    let mut name = [0u8; 16];
    name.copy_from_slice(&s[at..at + 16]);
    Mark {
        name,
        len: s[at + 16],
        version: u16::from_le_bytes([s[at + 17], s[at + 18]]),
    }
}

// A table that is refused with 17, for its size and for its entries: no name has 255 bytes.
fn no_table() -> Table
    ensures { result ≡ unreadable }
{
    let wrong = Mark {
        len: 255,
        ..Mark::UNUSED
    };
    let held = [wrong; 32];
    Table { held, size: 0 }
}

// The table by value of the bytes that C passes.
pub fn table_from(s: &[u8]) -> Table
    ensures { LendsAs s.now result }
{
    if s.len() != 608 {
        return no_table();
    }
    let mut held = [Mark::UNUSED; 32];
    for i in 0..32 {
        held[i] = entry_at(s, i * 19);
    }
    Table { held, size: 32 }
}

// Writes the bytes of an entry from a place on.
fn put_entry(m: Mark, out: &mut [u8], at: usize)
    requires { (at + 19 ≤ length out.old) × (at < 4096) }
    ensures { (out.new ≡ paste out.old at (entry_bytes m) 19) × (length (entry_bytes m) ≡ 19) }
{
    out[at..at + 16].copy_from_slice(&m.name);
    out[at + 16] = m.len;
    out[at + 17..at + 19].copy_from_slice(&m.version.to_le_bytes());
}

// Writes the 608 bytes of a table.
pub fn put_table(t: Table, out: &mut [u8])
    requires { length out.old ≡ 608 }
    ensures { out.new ≡ table_bytes t.held }
{
    for i in 0..32 {
        put_entry(t.held[i], out, i * 19);
    }
}
