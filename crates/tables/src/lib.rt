// The tables that a text is read into: a row for each declaration and for each call whose numbers are written in, and what the rows refer to.
#![tactic(auto)]

pub mod decode;
pub mod encode;

ghost use Rattle.std.specs.Prelude.{◌≡◌, ◌↔◌, true, length, IsSome, IfSome};
ghost use Rattle.tables.specs.Layout.{tables_in, triggers_in, calls_in, full_size, used, counts_size, counts_of, numbers};
ghost use Rattle.tables.specs.Values.{Slices};

use cents::{Interval, KeyNumber, Pitch};
use limits::{MOST_ORDERS, MOST_POSITIONS, MOST_RETUNINGS, MOST_ROWS, MOST_SYSTEMS};
use tuning::{Retuning, State, ToneChanges};

// Full sizes: how many rows, tones, changes and orders there is room for, and how many numbers a row and how many codes an order has.
pub const ROWS: usize = MOST_ROWS;

pub const ROW_WIDTH: usize = 5;

pub const TONES: usize = MOST_SYSTEMS as usize * MOST_POSITIONS as usize;

pub const CHANGES: usize = MOST_RETUNINGS as usize * MOST_POSITIONS as usize;

pub const ORDERS: usize = MOST_ORDERS as usize;

pub const ORDER_WIDTH: usize = 2;

pub const COUNTS: usize = 4;

// Two slices are lent. Numbers: rows, tones, changes; codes: counts, sounding, kinds, orders. Where each section begins, and how many there are.
pub const TONES_AT: usize = ROW_WIDTH * ROWS;

pub const CHANGES_AT: usize = TONES_AT + TONES;

pub const NUMBERS: usize = CHANGES_AT + CHANGES;

pub const SOUNDING_AT: usize = COUNTS;

pub const KINDS_AT: usize = SOUNDING_AT + TONES;

pub const ORDERS_AT: usize = KINDS_AT + CHANGES;

pub const CODES: usize = ORDERS_AT + ORDER_WIDTH * ORDERS;

// The forms of rows.
// Kept as it is: lent tables may have any number as a form, and the test of validity asks for ranges of forms; an enum would want a match from the number to
// it before each of those matches. So would those for the codes below.
pub const UNUSED_FORM: u32 = 0;

pub const INTERVAL_FORM: u32 = 1;

pub const TONE_FORM: u32 = 2;

pub const SYSTEM_FORM: u32 = 3;

pub const ANCHOR_FORM: u32 = 4;

pub const WIDTH_FORM: u32 = 5;

pub const PERIOD_FORM: u32 = 6;

pub const TONES_FORM: u32 = 7;

pub const LOGIC_FORM: u32 = 8;

pub const HARMONY_FORM: u32 = 9;

pub const PATTERN_FORM: u32 = 10;

// A trigger: a letter's capital, or this and the number of the harmony's declaration.
pub const HARMONY_BASE: u16 = 256;

// A harmony's set of key numbers stands in a row as two numbers: its lower thirty bits, and the others.
pub const HALF_SET: u64 = 1_073_741_824;

// Anchors and widths: `@`, a number, or `@` with an operator.
pub const KEPT_CODE: u32 = 0;

pub const ABSOLUTE_CODE: u32 = 1;

pub const PLUS_CODE: u32 = 2;

pub const MINUS_CODE: u32 = 3;

pub const TIMES_CODE: u32 = 4;

pub const DIVIDE_CODE: u32 = 5;

// Periods: a new one, or an interval onto the old one.
pub const FRESH_CODE: u32 = 0;

pub const ONWARD_CODE: u32 = 1;

// Tones: muted, or sounding.
pub const MUTED_CODE: u16 = 0;

pub const SOUNDS_CODE: u16 = 1;

// Changes: the tone is muted, moved, or set.
pub const MUTE_CODE: u16 = 0;

pub const MOVE_CODE: u16 = 1;

pub const SET_CODE: u16 = 2;

// A row's numbers: its form, two numbers of its own, and from where to where what belongs to it stands. A harmony's are four of its own.
#[derive(Clone, Copy)]
pub struct Numbers {
    pub form: u32,
    pub first: i32,
    pub second: i32,
    pub from: u32,
    pub to: u32,
}

impl Numbers {
    // The numbers of a row to which nothing belongs.
    fn new(form: u32, first: i32, second: i32) -> Numbers
        ensures { result ≡ numbers form first second 0 0 }
    {
        Numbers {
            form,
            first,
            second,
            from: 0,
            to: 0,
        }
    }

    // With what stands from one place to another as what belongs to the row.
    fn with_part(self, from: u32, to: u32) -> Numbers
        ensures { result ≡ numbers self.form self.first self.second from to }
    {
        Numbers { from, to, ..self }
    }
}

// A row, taken apart. `from` and `to` bound the tones, changes or orders that belong to it.
#[derive(Clone, Copy)]
pub enum Row {
    Unused,
    Interval(Interval),
    Tone(Pitch),
    System {
        anchor: KeyNumber,
        period: Interval,
        from: u32,
        to: u32,
    },
    Retuning {
        retuning: Retuning,
        from: u32,
        to: u32,
    },
    // A start is 0 for none, or 1 more than the number of the declaration that it calls.
    Logic {
        trigger: u16,
        start: u32,
        from: u32,
        to: u32,
    },
    // Sets of key numbers 0 to 59, bit k for number k: the unstarred ones, and all that the harmony names.
    Harmony {
        needed: u64,
        named: u64,
    },
    // A retuning whose n is a placeholder: no call refers to it, each has a row of its own with its numbers written in.
    Pattern,
}

// How many rows, tones, changes and orders are used.
#[derive(Clone, Copy)]
pub struct Counts {
    pub rows: u32,
    pub tones: u32,
    pub changes: u32,
    pub orders: u32,
}

impl Counts {
    // The four numbers of the counts.
    pub fn read(counts: &[u16]) -> Counts
        requires { length counts.now ≡ counts_size }
        ensures { result ≡ counts_of counts.now }
    {
        Counts {
            rows: counts[0] as u32,
            tones: counts[1] as u32,
            changes: counts[2] as u32,
            orders: counts[3] as u32,
        }
    }
}

// Whether both slices are of full size.
pub fn has_full_size(numbers: &[i32], codes: &[u16]) -> bool
    ensures { result ≡ full_size (tables_in numbers.now codes.now) }
{
    (numbers.len() == NUMBERS) & (codes.len() == CODES)
}

// Tables of full size, as the two slices that hold them.
#[derive(Clone, Copy)]
pub struct Tables<'a> {
    pub numbers: &'a [i32],
    pub codes: &'a [u16],
    pub ghost full: { Slices numbers.now codes.now },
}

#[tactic(auto, unfolding(crate::specs::Layout::tables_in))]
impl<'a> Tables<'a> {
    ghost use Rattle.tuning.specs.State.{coded};
    ghost use Rattle.tables.specs.Lent.{tables_of};
    ghost use Rattle.tables.specs.Layout.{read_at, row_at, tones_from, changes_from};
    ghost use Rattle.tables.specs.Values.{system, listed, FieldsFit, Part};

    // The tables of two slices, where both are of full size.
    pub fn new(numbers: &'a [i32], codes: &'a [u16]) -> Option<Tables<'a>>
        ensures full { IsSome result ↔ (full_size (tables_in numbers.now codes.now) ≡ true) }
        ensures same { IfSome result (λ t. tables_of t ≡ tables_in numbers.now codes.now) }
    {
        if !has_full_size(numbers, codes) {
            return None;
        }
        Some(Tables { numbers, codes })
    }

    // The numbers of the rows, one row after the other.
    pub fn rows(self) -> &'a [i32]
        ensures { result.now ≡ (tables_of self.entry).rows }
    {
        &self.numbers[..TONES_AT]
    }

    pub fn tones(self) -> &'a [i32]
        ensures { result.now ≡ (tables_of self.entry).tones }
    {
        &self.numbers[TONES_AT..CHANGES_AT]
    }

    pub fn changes(self) -> &'a [i32]
        ensures { result.now ≡ (tables_of self.entry).changes }
    {
        &self.numbers[CHANGES_AT..]
    }

    // How many rows, tones, changes and orders are used.
    pub fn counts(self) -> Counts
        ensures { result ≡ used (tables_of self.entry) }
    {
        Counts::read(&self.codes[..SOUNDING_AT])
    }

    pub fn sounding(self) -> &'a [u16]
        ensures { result.now ≡ (tables_of self.entry).sounding }
    {
        &self.codes[SOUNDING_AT..KINDS_AT]
    }

    pub fn kinds(self) -> &'a [u16]
        ensures { result.now ≡ (tables_of self.entry).kinds }
    {
        &self.codes[KINDS_AT..ORDERS_AT]
    }

    // The codes of the orders, one order after the other.
    pub fn orders(self) -> &'a [u16]
        ensures triggers { triggers_in result.now ≡ (tables_of self.entry).triggers }
        ensures calls { calls_in result.now ≡ (tables_of self.entry).calls }
    {
        &self.codes[ORDERS_AT..]
    }

    // The row of declaration i.
    pub fn row(self, i: usize) -> Row
        requires { FieldsFit (read_at (tables_of self).rows i) }
        ensures { result ≡ row_at (tables_of self.entry) i }
    {
        decode::row_of(decode::numbers_at(self.rows(), i))
    }

    // The state of a tone system whose tones are those from `from` to `to`.
    pub fn system(self, anchor: KeyNumber, period: Interval, from: usize, to: usize) -> State
        requires { Part (tables_of self).sounding (tables_of self).tones from to }
        ensures { result ≡ coded (system anchor.0 (tones_from (tables_of self.entry) from to) period.0) }
    {
        let sounding = &self.sounding()[from..to];
        decode::system_of(anchor, period, sounding, &self.tones()[from..to])
    }

    // The positions of a tones retuning whose changes are those from `from` to `to`.
    pub fn changes_from(self, from: usize, to: usize) -> ToneChanges
        requires { Part (tables_of self).kinds (tables_of self).changes from to }
        ensures { result ≡ listed (changes_from (tables_of self.entry) from to) }
    {
        decode::changes_of(&self.kinds()[from..to], &self.changes()[from..to])
    }
}
