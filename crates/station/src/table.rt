// The file of a table of marks, which word 4 names: 608 bytes, as C passes a table.
ghost use Rattle.std.specs.Prelude.{◌≤◌, length, IfSome};

use crate::words::{file_word, short_word};
use files::{is_missing, replace_file, within};
use marks::bytes::put_table;
use marks::{Mark, Table};
use std::io;

// Reads the table's file, as far as buf goes, which is 608 zeros and one more: a missing file is a table of unused entries.
pub fn table_word<'a>(rt: &HostRuntime, buf: &'a mut [u8; 609]) -> Option<&'a [u8]>
    ensures { IfSome result (λ bytes. length bytes.now ≤ 609) }
{
    let mut name = [0u8; 4096];
    if is_missing(rt, short_word(rt, 4, &mut name)) {
        return Some(&buf[..608]);
    }
    file_word(rt, 4, buf)
}

// Puts a table into its file, in place of the bytes `old`. A table that has stayed as it was is not written: so a missing file stays missing
// until it holds a mark, and a step back that drops no mark needs no right to write beside the file.
pub fn keep_table(rt: &HostRuntime, t: Table, old: &[u8]) {
    let mut bytes = [0u8; 608];
    put_table(t, &mut bytes);
    if bytes.as_slice() == old {
        return;
    }
    let mut name = [0u8; 4096];
    let name = short_word(rt, 4, &mut name);
    replace_file(rt, b"station: ", name, &bytes);
}

// Writes a mark's line: its name, a space and its version.
fn list_mark(rt: &HostRuntime, m: Mark) -> io::Result<()> {
    let name = m.name;
    let version = m.version;
    let n = within(m.len as usize, &name);
    rt.write_all(&name[..n])?;
    println!(rt; " {version}")
}

// Writes the marks of a table, in order of setting; answers whether that went well.
pub fn list_marks(rt: &HostRuntime, t: Table) -> io::Result<()> {
    for m in t.held {
        if m.len == 0 {
            break;
        }
        list_mark(rt, m)?;
    }
    Ok(())
}
