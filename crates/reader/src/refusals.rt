// What is given back where nothing is done: the reason, of document 01's table, and the records or places that it names.
ghost use Rattle.std.specs.Prelude.{◌≡◌};
ghost use Rattle.reader.specs.Refusals.{number_of, alone, twice};

// The refusals of document 01's table, in its order.
#[derive(Clone, Copy)]
pub enum Reason {
    PartOfRecord,
    TooManyRecords,
    Kind,
    Order,
    Range,
    Unused,
    Twice,
    Missing,
    Method,
    Room,
    PartOfPlace,
    OtherPlaces,
    PlaceNumber,
    PlaceField,
    Registers,
    Units,
    Buses,
    Connections,
    NotAccepted,
    IncomingWords,
    OutgoingWords,
    RegisterFile,
}

impl Reason {
    // Its number in that table.
    pub fn number(self) -> u8
        ensures { result ≡ number_of self }
    {
        match self {
            Reason::PartOfRecord => 1,
            Reason::TooManyRecords => 2,
            Reason::Kind => 3,
            Reason::Order => 4,
            Reason::Range => 5,
            Reason::Unused => 6,
            Reason::Twice => 7,
            Reason::Missing => 8,
            Reason::Method => 9,
            Reason::Room => 10,
            Reason::PartOfPlace => 11,
            Reason::OtherPlaces => 12,
            Reason::PlaceNumber => 13,
            Reason::PlaceField => 14,
            Reason::Registers => 16,
            Reason::Units => 17,
            Reason::Buses => 18,
            Reason::Connections => 19,
            Reason::NotAccepted => 20,
            Reason::IncomingWords => 21,
            Reason::OutgoingWords => 22,
            Reason::RegisterFile => 23,
        }
    }
}

// A refusal with its two record numbers.
#[derive(Clone, Copy)]
pub struct Refusal {
    pub reason: Reason,
    pub first: u8,
    pub second: u8,
}

// What is wrong with one record or place.
#[derive(Clone, Copy)]
pub struct Fault {
    pub reason: Reason,
    pub at: u8,
}

// No record is named.
impl From<Reason> for Refusal {
    ghost from_gives = { λ reason r. r ≡ alone reason };

    fn from(reason: Reason) -> Refusal {
        Refusal {
            reason,
            first: 0,
            second: 0,
        }
    }
}

impl From<Fault> for Refusal {
    ghost from_gives = { λ f r. r ≡ twice f };

    fn from(f: Fault) -> Refusal {
        Refusal {
            reason: f.reason,
            first: f.at,
            second: f.at,
        }
    }
}
