// The first call: is a text a key list?
ghost use Rattle.std.specs.Prelude.{◌≡◌, length};
ghost use Rattle.keys.specs.Meant.{number_in, length_in};
ghost use Rattle.versions.specs.Calls.{check_keys, work_after};

use crate::steps::{at_most, room};
use keys::load::load;
use keys::refusal::Refusal;
use xml::tape::clear;

pub fn check_keys(keys: &[u8], work: &mut [u32]) -> Result<usize, Refusal>
    ensures { (number_in result ≡ (check_keys keys.now (length work.old)).number) × (length_in result ≡ 0)
        × (work.new ≡ work_after (check_keys keys.now (length work.old)) work.old) }
{
    room(work)?;
    clear(work);
    at_most(keys, 4096)?;
    let mut table = [0u32; 256];
    load(keys, &mut table)?;
    Ok(0)
}
