// The numbers of the paper's two tables that the code uses. Their meaning stands in specs/: Limits and Refusals.
#![tactic(auto)]

pub mod bytes;
pub mod lent;

ghost use Rattle.std.specs.Prelude.{◌≡◌};
ghost use Rattle.paper.specs.Refusal.{number_of};

pub const DICTIONARY_LEAST: usize = 22;

pub const DICTIONARY_MOST: usize = 65535;

pub const PAYLOAD_LEAST: usize = 7;

pub const PAYLOAD_MOST: usize = 16384;

pub const TEXT_LEAST: usize = 1;

pub const TEXT_MOST: usize = 65535;

pub const DEPTH_MOST: usize = 16;

pub const INTEGER_LEAST: usize = 1;

pub const INTEGER_MOST: usize = 8;

pub const NUMBER_LEAST: usize = 1;

pub const NUMBER_MOST: usize = 4;

pub const DESK_MOST: usize = 8;

pub const DECLARED_MOST: usize = 4096;

pub const STORE_BYTES: usize = 32768;

// "A refusal is a number and a place": its number, by name.
#[derive(Clone, Copy, PartialEq, Eq)]
pub enum Refusal {
    DictionaryWrong = 1,
    LengthWrong = 2,
    HeaderDiffers = 3,
    PastEnd = 4,
    WidthWrong = 5,
    NotKnown = 6,
    GivenTwice = 7,
    NotInBase = 8,
    Misfit = 9,
    ValueWrong = 10,
    TooDeep = 11,
    BudgetSpent = 12,
    AfterRoot = 13,
    NoRoom = 14,
    BadText = 15,
    NotSound = 20,
    NumberZero = 21,
    InUse = 22,
    AllTaken = 23,
    NoSuchNumber = 24,
    NotAllowed = 25,
    OpenWrong = 26,
    AmountWrong = 27,
}

impl Refusal {
    // What callers in C are told.
    pub fn number(self) -> u8
        ensures { result ≡ number_of self }
    {
        self as u8
    }

    pub fn at(self, place: usize) -> Refused
        ensures refusal { result.refusal ≡ self }
        ensures place { result.place ≡ place }
    {
        Refused {
            refusal: self,
            place,
        }
    }
}

// A refusal, and where in the payload or the text it is.
#[derive(Clone, Copy, PartialEq, Eq)]
pub struct Refused {
    pub refusal: Refusal,
    pub place: usize,
}

// What the reader or the writer has done: how many tuples, and how many bytes.
#[derive(Clone, Copy, PartialEq, Eq)]
pub struct Done {
    pub count: usize,
    pub length: usize,
}
