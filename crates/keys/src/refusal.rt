// The refusals: the rows of the tables of documents 01 and 02, each of which has its number.
ghost use Rattle.std.specs.Prelude.{◌≡◌};
ghost use Rattle.keys.specs.Result.{number_of};
ghost use Rattle.keys.specs.Meant.{row_of};

// Why a call is refused, in the order of the numbers.
#[derive(Clone, Copy, Debug, PartialEq, Eq)]
pub enum Refusal {
    CellsTooFew,
    TextTooLong,
    KeyNotation,
    KeyRule,
    VersionText,
    VersionTooLarge,
    Misplaced,
    Unkeyed,
    Doubled,
    ArchiveIllegal,
    NoVersion,
    AddressIllegal,
    ResultTooLarge,
    OutputTooShort,
    MarkName,
    MarksFull,
    TableIllegal,
}

impl Refusal {
    // The number that is returned.
    pub fn number(self) -> u32
        ensures { result ≡ number_of (row_of self) }
    {
        match self {
            Refusal::CellsTooFew => 1,
            Refusal::TextTooLong => 2,
            Refusal::KeyNotation => 3,
            Refusal::KeyRule => 4,
            Refusal::VersionText => 5,
            Refusal::VersionTooLarge => 6,
            Refusal::Misplaced => 7,
            Refusal::Unkeyed => 8,
            Refusal::Doubled => 9,
            Refusal::ArchiveIllegal => 10,
            Refusal::NoVersion => 11,
            Refusal::AddressIllegal => 12,
            Refusal::ResultTooLarge => 13,
            Refusal::OutputTooShort => 14,
            Refusal::MarkName => 15,
            Refusal::MarksFull => 16,
            Refusal::TableIllegal => 17,
        }
    }
}

// A caller whose refusals are numbers takes this one: the functions that are generic over the error that came before give it its numbers.
impl From<Refusal> for u32 {
    ghost from_gives = { λ refusal number. number ≡ number_of (row_of refusal) };

    fn from(refusal: Refusal) -> u32 {
        refusal.number()
    }
}
