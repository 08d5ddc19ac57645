// The first steps of the calls: the work cells, and the lengths of the texts.
ghost use Rattle.std.specs.Prelude.{◌≡◌, length};
ghost use Rattle.keys.specs.Meant.{meant};
ghost use Rattle.versions.specs.Calls.{room, at_most};

use keys::refusal::Refusal;

// Refuses work cells that are too few.
pub(crate) fn room(work: &[u32]) -> Result<(), Refusal>
    ensures { meant result ≡ room (length work.now) }
{
    if work.len() < 16384 {
        return Err(Refusal::CellsTooFew);
    }
    Ok(())
}

// Refuses a text of more than so many bytes.
pub(crate) fn at_most(text: &[u8], most: usize) -> Result<(), Refusal>
    ensures { meant result ≡ at_most most text.now }
{
    if most < text.len() {
        return Err(Refusal::TextTooLong);
    }
    Ok(())
}
