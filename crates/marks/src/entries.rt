// A table by value with no marks.
ghost use Rattle.std.specs.Prelude.{◌≡◌};
ghost use Rattle.marks.specs.Lent.{blank_of};

use crate::{Mark, Table};

// A table of unused entries for a lent one of n entries.
pub fn blank(n: usize) -> Table
    ensures { result ≡ blank_of n }
{
    let held = [Mark::UNUSED; 32];
    let size = if n == 32 { 32 } else { 0 };
    Table { held, size }
}
