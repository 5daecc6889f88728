// Tables to be lent, as one value, so that what is damaged is a copy.
ghost use Rattle.std.specs.Prelude.{◌≡◌, length};

use cents::{Interval, KeyNumber, Pitch};
use hexadecimal::bits_of;
use tables::{
    CHANGES_AT, CODES, Counts, HARMONY_BASE, KINDS_AT, NUMBERS, ORDER_WIDTH, ORDERS_AT, ROW_WIDTH,
    ROWS, Row, SOUNDING_AT, TONES_AT, encode,
};
use tuning::{Amount, Operator, PeriodChange, Retuning, Tone, ToneChange};

pub const ROW_NUMBERS: usize = ROW_WIDTH * ROWS;

// The rows of the sample: one of each form, and besides a tone system and a tones retuning with as many positions as a list may have.
pub const INTERVAL: usize = 0;

pub const TONE: usize = 1;

pub const SHORT_SYSTEM: usize = 2;

pub const LONG_SYSTEM: usize = 3;

pub const ANCHOR: usize = 4;

pub const WIDTH: usize = 5;

pub const PERIOD: usize = 6;

pub const SHORT_TONES: usize = 7;

pub const LONG_TONES: usize = 8;

pub const HARMONY: usize = 9;

pub const PATTERN: usize = 10;

pub const LOGIC: usize = 11;

pub const USED_ROWS: usize = 12;

// How many positions the short list has, and how many both lists have, in tones as in changes. The last one is muted.
pub const SHORT: usize = 2;

pub const POSITIONS: usize = 62;

pub const MUTED: usize = POSITIONS - 1;

pub const USED_ORDERS: usize = 3;

const OCTAVE: i32 = 1_200_000;

const FIFTH: i32 = 701_955;

const A: i32 = 6_900_000;

// Sets of key numbers: bit k for number k.
const ZERO_AND_LAST: u64 = 1 + (1 << 59);

const ZERO_FOUR_AND_LAST: u64 = ZERO_AND_LAST + (1 << 4);

// The tables that the two slices hold.
#[derive(Clone, Copy)]
pub enum Table {
    Rows,
    Sounding,
    Tones,
    Kinds,
    Changes,
    Triggers,
    Calls,
    Counts,
}

const SLICES: usize = 2;

pub const FULL_SIZES: [usize; SLICES] = [NUMBERS, CODES];

// Each slice has a place more than its full size, so that it can be lent too long: `sizes` says how much of each is lent.
#[derive(Clone, Copy)]
pub struct Lent {
    pub numbers: [i32; NUMBERS + 1],
    pub codes: [u16; CODES + 1],
    pub sizes: [usize; SLICES],
}

// An interval, a tone, and the two tone systems.
fn store_scales(rows: &mut [i32]) {
    encode::store_row(rows, INTERVAL, Row::Interval(Interval(FIFTH)));
    encode::store_row(rows, TONE, Row::Tone(Pitch(A)));
    let short = Row::System {
        anchor: KeyNumber(69),
        period: Interval(OCTAVE),
        from: 0,
        to: SHORT as u32,
    };
    let long = Row::System {
        anchor: KeyNumber(60),
        period: Interval(OCTAVE),
        from: SHORT as u32,
        to: POSITIONS as u32,
    };
    encode::store_row(rows, SHORT_SYSTEM, short);
    encode::store_row(rows, LONG_SYSTEM, long);
}

// Anchor `@ + 1`, width `@ / 2`, period `@ + Octave`.
fn store_retunings(rows: &mut [i32]) {
    let anchor = Row::Retuning {
        retuning: Retuning::Anchor(Amount::Relative(Operator::Plus, 1)),
        from: 0,
        to: 0,
    };
    let width = Row::Retuning {
        retuning: Retuning::Width(Amount::Relative(Operator::Divide, 2)),
        from: 0,
        to: 0,
    };
    let period = Row::Retuning {
        retuning: Retuning::Period(PeriodChange::Onward(Interval(OCTAVE))),
        from: 0,
        to: 0,
    };
    encode::store_row(rows, ANCHOR, anchor);
    encode::store_row(rows, WIDTH, width);
    encode::store_row(rows, PERIOD, period);
}

// The two tones retunings, a harmony { 0, *4, 59 }, a retuning whose n is a placeholder, which nothing calls, and a logic with a start and three orders.
fn store_lists(rows: &mut [i32]) {
    let short = Row::Retuning {
        retuning: Retuning::Tones,
        from: 0,
        to: SHORT as u32,
    };
    let long = Row::Retuning {
        retuning: Retuning::Tones,
        from: SHORT as u32,
        to: POSITIONS as u32,
    };
    let harmony = Row::Harmony {
        needed: ZERO_AND_LAST,
        named: ZERO_FOUR_AND_LAST,
    };
    let logic = Row::Logic {
        trigger: b'M' as u16,
        start: SHORT_SYSTEM as u32 + 1,
        from: 0,
        to: USED_ORDERS as u32,
    };
    encode::store_row(rows, SHORT_TONES, short);
    encode::store_row(rows, LONG_TONES, long);
    encode::store_row(rows, HARMONY, harmony);
    encode::store_row(rows, PATTERN, Row::Pattern);
    encode::store_row(rows, LOGIC, logic);
}

fn store_tones(sounding: &mut [u16], tones: &mut [i32]) {
    for i in 0..MUTED {
        encode::store_tone(sounding, tones, i, Tone::At(Pitch(A)));
    }
}

fn store_changes(kinds: &mut [u16], changes: &mut [i32]) {
    encode::store_change(kinds, changes, 0, ToneChange::Set(Pitch(A)));
    for i in 1..MUTED {
        encode::store_change(kinds, changes, i, ToneChange::Move(Interval(FIFTH)));
    }
}

fn store_orders(orders: &mut [u16]) {
    encode::store_order(orders, 0, b'U' as u16, ANCHOR as u16);
    encode::store_order(orders, 1, b'W' as u16, WIDTH as u16);
    encode::store_order(orders, 2, HARMONY_BASE + HARMONY as u16, PERIOD as u16);
}

fn store_used(counts: &mut [u16])
    requires { length counts.old ≡ 4 }
{
    let used = Counts {
        rows: USED_ROWS as u32,
        tones: POSITIONS as u32,
        changes: POSITIONS as u32,
        orders: USED_ORDERS as u32,
    };
    encode::store_counts(counts, used);
}

// What belongs to the rows, each list in its section.
fn store_positions(numbers: &mut [i32], codes: &mut [u16])
    requires { (length numbers.old ≡ 16_161) × (length codes.old ≡ 10_629) }
{
    store_tones(
        &mut codes[SOUNDING_AT..KINDS_AT],
        &mut numbers[TONES_AT..CHANGES_AT],
    );
    store_changes(
        &mut codes[KINDS_AT..ORDERS_AT],
        &mut numbers[CHANGES_AT..NUMBERS],
    );
}

fn store_codes(codes: &mut [u16])
    requires { length codes.old ≡ 10_629 }
{
    store_orders(&mut codes[ORDERS_AT..CODES]);
    store_used(&mut codes[0..SOUNDING_AT]);
}

// Past the end nothing is put.
fn put<T: Copy>(table: &mut [T], at: usize, x: T) {
    if at < table.len() {
        table[at] = x;
    }
}

// Where code k of an order stands among the codes of orders.
fn place_of_order(at: usize, k: usize) -> usize {
    at.saturating_mul(ORDER_WIDTH).saturating_add(k)
}

impl Lent {
    // Valid tables, of full size.
    pub fn sample() -> Lent {
        let mut numbers = [0i32; NUMBERS + 1];
        let mut codes = [0u16; CODES + 1];
        store_scales(&mut numbers);
        store_retunings(&mut numbers);
        store_lists(&mut numbers);
        store_positions(&mut numbers, &mut codes);
        store_codes(&mut codes);
        Lent {
            numbers,
            codes,
            sizes: FULL_SIZES,
        }
    }

    // A slice of another size.
    pub fn with_size(mut self, slice: usize, wrong: usize) -> Lent {
        put(&mut self.sizes, slice, wrong);
        self
    }

    // One number of a table replaced, a code by the lowest bits of `wrong` in two's complement.
    pub fn with_number(mut self, table: Table, at: usize, wrong: i32) -> Lent {
        let code = (bits_of(wrong) % 0x1_0000) as u16;
        match table {
            Table::Rows => put(&mut self.numbers[0..TONES_AT], at, wrong),
            Table::Sounding => put(&mut self.codes[SOUNDING_AT..KINDS_AT], at, code),
            Table::Tones => put(&mut self.numbers[TONES_AT..CHANGES_AT], at, wrong),
            Table::Kinds => put(&mut self.codes[KINDS_AT..ORDERS_AT], at, code),
            Table::Changes => put(&mut self.numbers[CHANGES_AT..NUMBERS], at, wrong),
            Table::Triggers => put(
                &mut self.codes[ORDERS_AT..CODES],
                place_of_order(at, 0),
                code,
            ),
            Table::Calls => put(
                &mut self.codes[ORDERS_AT..CODES],
                place_of_order(at, 1),
                code,
            ),
            Table::Counts => put(&mut self.codes[0..SOUNDING_AT], at, code),
        }
        self
    }

    // The sample with its first number wrong: a used row of no form.
    pub fn damaged() -> Lent {
        Lent::sample().with_number(Table::Rows, 0, 0)
    }
}
