// The syntax of a text: its symbols are read one by one into items, the parts of its declarations in the order of the text.
#![tactic(auto)]

mod actions;
mod items;
mod moves;
pub mod reading;
pub mod terminals;

use status::Refusal;

// What is counted: declarations by their kind, and orders.
#[derive(Clone, Copy)]
pub enum Kind {
    Interval,
    Tone,
    System,
    Retuning,
    Logic,
    Order,
    Harmony,
}

// The forms of anchor and width retunings that have an n: n itself, or `@` with an operator and n.
#[derive(Clone, Copy)]
pub enum Form {
    AnchorTo,
    AnchorUp,
    AnchorDown,
    WidthTo,
    WidthUp,
    WidthDown,
    WidthTimes,
    WidthOver,
}

// What a number is for.
#[derive(Clone, Copy)]
pub enum NumberUse {
    RatioFirst,
    RatioSecond,
    Degree,
    Radicand,
    FirstFactor,
    Factor,
    Frequency,
    AnchorKey,
    Amount(Form),
    Key,
    StarredKey,
    // A number that a call gives.
    Argument,
}

// The numbers that a use allows: 0.0001 to 429496.7295 with at most four places, or whole ones from the first to the second.
#[derive(Clone, Copy)]
pub enum NumberRange {
    Decimal,
    Whole(u32, u32),
}

// What a name is used for.
#[derive(Clone, Copy)]
pub enum NameUse {
    Term,
    Base,
    Position,
    Start,
    Order,
    // The harmony that triggers a logic, or an order, which is counted at it.
    Trigger,
    CountedTrigger,
    // A placeholder of a retuning, in its brackets, and where it stands for n.
    Placeholder,
    Amount(Form),
}

// What a mark stands for, where it says more than that the syntax goes on.
#[derive(Clone, Copy)]
pub enum MarkUse {
    MutedPosition,
    KeptPosition,
    KeptAnchor,
    KeptWidth,
    Period,
    Onward,
    Star,
}

// What is done at a symbol.
#[derive(Clone, Copy)]
pub enum Action {
    Pass,
    Declare(Kind),
    // An interval's first number, which is judged once `:`, ROOT or a name follows.
    Hold,
    Held(NumberUse),
    Number(NumberUse),
    Sign(bool),
    Name(NameUse),
    Mark(MarkUse),
    Letter,
    CountOrder,
}

// A part of a declaration. A name is given by its place in the text.
#[derive(Clone, Copy)]
pub enum Item {
    Declared(Kind, u32),
    Ratio(u32, u32),
    Root(u32, u32),
    // A factor and an interval's name.
    Add(u32, u32),
    Subtract(u32, u32),
    Frequency(u32),
    // The tone that a tone starts from.
    Base(u32),
    AnchorKey(u32),
    MutedPosition,
    KeptPosition,
    TonePosition(u32),
    AnchorKept,
    WidthKept,
    // The n of an anchor or width retuning.
    Amount(Form, u32),
    // A period retuning: a sequence follows, or, with `@`, terms onto the old period.
    Period,
    Onward,
    // The letter of a logic, or an order's trigger.
    Letter(u32),
    // What a logic's start calls: the place of its name, and the name. The numbers that the call gives stand right after.
    Start(u32, u32),
    // What an order calls; its trigger stands right before.
    Order(u32, u32),
    // The harmony that triggers a logic or an order.
    Trigger(u32),
    // A key number of a harmony.
    Key(u32),
    StarredKey(u32),
    // A placeholder's name that stands for the n of an anchor or width retuning.
    AmountName(Form, u32),
    // A placeholder's name in the brackets after a retuning's name.
    Placeholder(u32),
    // A number that a call gives.
    Argument(u32),
}

// How many declarations and orders there are so far.
// Kept as it is: an array by kind is no plainer, since every statement about counts would have to carry its length.
#[derive(Clone, Copy)]
pub struct Counts {
    pub intervals: u16,
    pub tones: u16,
    pub systems: u16,
    pub retunings: u16,
    pub logics: u16,
    pub orders: u16,
    pub harmonies: u16,
}

// An interval's first number: its place, the place after it, and its value once it is judged.
#[derive(Clone, Copy)]
pub struct FirstNumber {
    pub start: u32,
    pub end: u32,
    pub value: u32,
}

// The sign and the factor of the term under way, and how many terms stand before it.
#[derive(Clone, Copy)]
pub struct NextTerm {
    pub minus: bool,
    pub factor: u32,
    pub before: u32,
}

// What reading keeps of the symbols before.
#[derive(Clone, Copy)]
pub struct Progress {
    pub first: FirstNumber,
    pub term: NextTerm,
    // How many positions the list under way has, or keys the harmony.
    pub positions: u8,
    // The key numbers that the harmony under way has named so far, as a set.
    pub keys: u64,
    // How many names or numbers the brackets under way have.
    pub bracketed: u8,
    pub counts: Counts,
}

// A symbol's place, and the place after it.
#[derive(Clone, Copy)]
pub struct Span {
    pub start: u32,
    pub end: u32,
}

// What an action leads to: more progress, perhaps with an item, or a refusal.
pub type Outcome = Result<(Progress, Option<Item>), Refusal>;

// Why a pass over a text ends at a refusal, and how much it leaves behind: so many items that it has read, or declarations that it has kept.
#[derive(Clone, Copy)]
pub struct Stopped {
    pub refusal: Refusal,
    pub count: usize,
}
