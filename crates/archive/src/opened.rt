// An archive opened under a key list: what the calls over a table of marks ask first.
ghost use Rattle.legality.specs.Opened.{Roomy};
ghost use Rattle.archive.specs.Opening.{OpenedAs};

use crate::steps::at_most;
use keys::load::load;
use keys::places::KeyTable;
use keys::refusal::Refusal;
use legality::open::{Opened, open};

// Opens an archive under a key list, with room to work in.
pub fn open_in(keys: &[u8], archive: &[u8], work: &mut [u32]) -> Result<Opened, Refusal>
    requires { Roomy archive.now work.old }
    ensures { OpenedAs keys.now archive.now work.new result }
{
    at_most(keys, 4096)?;
    at_most(archive, 32768)?;
    let mut table = [0u32; 256];
    let paths = load(keys, &mut table)?;
    let list = KeyTable {
        text: keys,
        table: &table,
        paths,
    };
    open(&list, archive, work)
}
