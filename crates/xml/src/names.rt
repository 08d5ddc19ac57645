// The names of a tag's attributes while it is read: one free cell of the tape a name, in ascending order of the names, so that a name is
// found by halving.
ghost use Rattle.std.specs.Prelude.{◌≡◌, false, List, ◌∷◌, ◌+◌, ◌<◌, ◌≤◌, length};
ghost use Rattle.std.proofs.Math.Seq.{slice};
ghost use Rattle.xml.specs.Bytes.{Bytes, any, same};
ghost use Rattle.xml.specs.Tags.{less};
ghost use Rattle.xml.specs.NameCells.{name_in, InText, NameCells, SomeNames, Parted, Shifted, Below};

use crate::compare::same_bytes;

// A name comes before another: as byte strings, a prefix first.
pub(crate) fn precedes(a: &[u8], b: &[u8]) -> bool
    ensures { result ≡ less a.now b.now }
{
    a < b
}

// The name that a cell holds comes before a name.
fn cell_precedes(src: &[u8], cell: u32, name: &[u8]) -> bool
    requires { InText src.now cell }
    ensures { result ≡ less (name_in src.now cell) name.now }
{
    let start = (cell / 64) as usize;
    let end = start + (cell % 64) as usize;
    precedes(&src[start..end], name)
}

// How many of the noted names come before a name: found by halving.
fn names_before(src: &[u8], cells: &[u32], base: usize, k: usize, name: &[u8]) -> usize
    requires { SomeNames src.now cells.now base k }
    ensures { Parted src.now cells.now base k name.now result result }
{
    let mut lo = 0;
    let mut hi = k;
    while lo < hi {
        let mid = lo + (hi - lo) / 2;
        if cell_precedes(src, cells[base + mid], name) {
            lo = mid + 1;
        } else {
            hi = mid;
        }
    }
    lo
}

// Whether a name is noted.
pub(crate) fn is_noted(src: &[u8], cells: &[u32], base: usize, k: usize, name: &[u8]) -> bool
    requires { SomeNames src.now cells.now base k }
    ensures { (used : List Bytes) → NameCells src.now cells.now base k used → result ≡ any (same name.now) used }
{
    let i = names_before(src, cells, base, k, name);
    if i == k {
        return false;
    }
    let cell = cells[base + i];
    let start = (cell / 64) as usize;
    let end = start + (cell % 64) as usize;
    same_bytes(&src[start..end], name)
}

// Moves the cells lo to hi one further.
fn shift(cells: &mut [u32], lo: usize, hi: usize)
    requires { (lo ≤ hi) × (hi < length cells.old) }
    ensures { Shifted cells.old lo hi cells.new }
{
    cells.copy_within(lo..hi, lo + 1);
}

// Notes the name src[start..start + count], which is not noted yet.
pub(crate) fn note(src: &[u8], cells: &mut [u32], base: usize, k: usize, start: usize, count: usize)
    requires { SomeNames src.now cells.old base k × (base + k < length cells.old) × (start + count ≤ length src.now) × (count ≤ 32) × (length src.now ≤ 32768)
        × ((used : List Bytes) → NameCells src.now cells.old base k used → any (same (slice start (start + count) src.now)) used ≡ false) }
    ensures { ((used : List Bytes) → NameCells src.now cells.old base k used
        → NameCells src.now cells.new base (k + 1) (slice start (start + count) src.now ∷ used))
        × Below cells.old cells.new base }
{
    let end = start + count;
    let at = base + names_before(src, cells, base, k, &src[start..end]);
    shift(cells, at, base + k);
    cells[at] = (start * 64 + count) as u32;
}
