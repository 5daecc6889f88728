// The numbers that calls return: document 01, "Numbers returned", and what document 02 adds to it.
#![tactic(auto)]

ghost use Rattle.std.specs.Prelude.{◌≡◌};
ghost use Rattle.status.specs.Reasons.{number_of};

pub const DONE: u8 = 0;

// Kept as it is: these are bytes of the desk's answers, and a call hands its state back beside one, whatever it is (`replied`, `Gives`).

// Of a retuning.
pub const DIVISION_BY_ZERO: u8 = 25;

pub const ANCHOR_OUT_OF_RANGE: u8 = 10;

pub const WIDTH_OUT_OF_RANGE: u8 = 11;

pub const PERIOD_OUT_OF_RANGE: u8 = 12;

pub const END_SILENT: u8 = 13;

pub const TONE_OUT_OF_RANGE: u8 = 14;

// Of a frame.
pub const KEY_UNPLAYABLE: u8 = 15;

pub const KEY_HELD: u8 = 17;

pub const KEY_NOT_HELD: u8 = 18;

pub const BUFFER_TOO_SMALL: u8 = 19;

pub const KEY_SILENT: u8 = 20;

pub const LETTER_UNBOUND: u8 = 21;

pub const BAD_FRAME: u8 = 22;

pub const TABLE_DAMAGED: u8 = 23;

// Why a text is refused, by its number.
#[derive(Clone, Copy, PartialEq, Eq, Debug)]
pub enum Reason {
    TextTooLong = 1,
    NoSymbol = 2,
    SymbolNotAllowed = 3,
    NumberOutOfRange = 4,
    NameTwice = 5,
    NameNotDeclared = 6,
    DependsOnItself = 7,
    ValueOutOfRange = 8,
    ItemTooMany = 9,
    PlaceholderWrong = 24,
}

impl Reason {
    pub fn number(self) -> u8
        ensures { result ≡ number_of self }
    {
        self as u8
    }
}

// A text's refusal; `place` counts the bytes that stand before it.
#[derive(Clone, Copy, PartialEq, Eq, Debug)]
pub struct Refusal {
    pub reason: Reason,
    pub place: u32,
}
