// Rows, tones, changes and orders as numbers of the tables. What does not fit into a table is not written.
ghost use Rattle.std.specs.Prelude.{◌≡◌, [], ◌∷◌, ◌*◌, pos, length, set};
ghost use Rattle.std.proofs.lemmas.List.Edits.{sets};
ghost use Rattle.tables.specs.Layout.{counts_size, amount_code, amount_number, period_code, period_sum, retuning_numbers, numbers_of, written, row_width, sounding_of, pitch_of, change_code, change_number, triggers_in, calls_in};
ghost use Rattle.tables.specs.Values.{NumbersFit, CountsFit};

use crate::{
    ABSOLUTE_CODE, ANCHOR_FORM, Counts, DIVIDE_CODE, FRESH_CODE, HALF_SET, HARMONY_FORM,
    INTERVAL_FORM, KEPT_CODE, LOGIC_FORM, MINUS_CODE, MOVE_CODE, MUTE_CODE, MUTED_CODE, Numbers,
    ONWARD_CODE, ORDER_WIDTH, PATTERN_FORM, PERIOD_FORM, PLUS_CODE, ROW_WIDTH, Row, SET_CODE,
    SOUNDS_CODE, SYSTEM_FORM, TIMES_CODE, TONE_FORM, TONES_FORM, UNUSED_FORM, WIDTH_FORM,
};
use tuning::{Amount, Operator, PeriodChange, Retuning, Tone, ToneChange};

// The code of an anchor or width, and its number.
fn amount_numbers(amount: Amount) -> (i32, i32)
    ensures { result ≡ (pos (amount_code amount), pos (amount_number amount)) }
{
    let (code, n) = match amount {
        Amount::Kept => (KEPT_CODE, 0),
        Amount::Absolute(n) => (ABSOLUTE_CODE, n),
        Amount::Relative(Operator::Plus, n) => (PLUS_CODE, n),
        Amount::Relative(Operator::Minus, n) => (MINUS_CODE, n),
        Amount::Relative(Operator::Times, n) => (TIMES_CODE, n),
        Amount::Relative(Operator::Divide, n) => (DIVIDE_CODE, n),
    };
    (code as i32, n as i32)
}

// The code of a period, and its sum.
fn period_numbers(change: PeriodChange) -> (i32, i32)
    ensures { result ≡ (pos (period_code change), period_sum change) }
{
    match change {
        PeriodChange::Fresh(d) => (FRESH_CODE as i32, d.0),
        PeriodChange::Onward(d) => (ONWARD_CODE as i32, d.0),
    }
}

// The numbers of a retuning but for what belongs to it.
fn retuning_numbers(retuning: Retuning) -> Numbers
    ensures { result ≡ retuning_numbers retuning 0 0 }
{
    let (form, (first, second)) = match retuning {
        Retuning::Anchor(amount) => (ANCHOR_FORM, amount_numbers(amount)),
        Retuning::Width(amount) => (WIDTH_FORM, amount_numbers(amount)),
        Retuning::Period(change) => (PERIOD_FORM, period_numbers(change)),
        Retuning::Tones => (TONES_FORM, (0, 0)),
    };
    Numbers::new(form, first, second)
}

fn numbers_of(row: Row) -> Numbers
    requires { NumbersFit (numbers_of row) }
    ensures { result ≡ numbers_of row }
{
    match row {
        Row::Unused => Numbers::new(UNUSED_FORM, 0, 0),
        Row::Interval(d) => Numbers::new(INTERVAL_FORM, d.0, 0),
        Row::Tone(p) => Numbers::new(TONE_FORM, p.0, 0),
        Row::System {
            anchor,
            period,
            from,
            to,
        } => Numbers::new(SYSTEM_FORM, anchor.0 as i32, period.0).with_part(from, to),
        Row::Retuning { retuning, from, to } => retuning_numbers(retuning).with_part(from, to),
        Row::Logic {
            trigger,
            start,
            from,
            to,
        } => Numbers::new(LOGIC_FORM, trigger as i32, start as i32).with_part(from, to),
        Row::Harmony { needed, named } => {
            let low = (needed % HALF_SET) as i32;
            let high = (needed / HALF_SET) as i32;
            Numbers::new(HARMONY_FORM, low, high).with_part(
                (named % HALF_SET) as u32,
                (named / HALF_SET) as u32,
            )
        }
        Row::Pattern => Numbers::new(PATTERN_FORM, 0, 0),
    }
}

fn put<T: Copy>(table: &mut [T], at: usize, x: T)
    ensures { table.new ≡ set table.old at x }
{
    if at < table.len() {
        table[at] = x;
    }
}

// Stores a row as the i-th.
pub fn store_row(rows: &mut [i32], i: usize, row: Row)
    requires { NumbersFit (numbers_of row) }
    ensures { rows.new ≡ sets rows.old (row_width * i) (written (numbers_of row)) }
{
    if rows.len() <= i {
        return;
    }
    let n = numbers_of(row);
    let at = ROW_WIDTH * i;
    put(rows, at, n.form as i32);
    put(rows, at + 1, n.first);
    put(rows, at + 2, n.second);
    put(rows, at + 3, n.from as i32);
    put(rows, at + 4, n.to as i32);
}

// Whether a tone sounds, and its pitch.
fn tone_numbers(tone: Tone) -> (u16, i32)
    ensures { result ≡ (sounding_of tone, pitch_of tone) }
{
    match tone {
        Tone::Muted => (MUTED_CODE, 0),
        Tone::At(p) => (SOUNDS_CODE, p.0),
    }
}

// Stores a tone of a tone system as the i-th.
pub fn store_tone(sounding: &mut [u16], tones: &mut [i32], i: usize, tone: Tone)
    ensures { (sounding.new ≡ set sounding.old i (sounding_of tone)) × (tones.new ≡ set tones.old i (pitch_of tone)) }
{
    let (sounds, pitch) = tone_numbers(tone);
    put(sounding, i, sounds);
    put(tones, i, pitch);
}

// The kind of a change, and its interval or pitch.
fn change_numbers(change: ToneChange) -> (u16, i32)
    ensures { result ≡ (change_code change, change_number change) }
{
    match change {
        ToneChange::Mute => (MUTE_CODE, 0),
        ToneChange::Move(d) => (MOVE_CODE, d.0),
        ToneChange::Set(p) => (SET_CODE, p.0),
    }
}

// Stores a change of a tones retuning as the i-th.
pub fn store_change(kinds: &mut [u16], changes: &mut [i32], i: usize, change: ToneChange)
    ensures { (kinds.new ≡ set kinds.old i (change_code change)) × (changes.new ≡ set changes.old i (change_number change)) }
{
    let (kind, number) = change_numbers(change);
    put(kinds, i, kind);
    put(changes, i, number);
}

// Stores an order as the i-th: its trigger, and the number of the declaration that it calls.
pub fn store_order(orders: &mut [u16], i: usize, trigger: u16, called: u16)
    ensures { (triggers_in orders.new ≡ set (triggers_in orders.old) i trigger) × (calls_in orders.new ≡ set (calls_in orders.old) i called) }
{
    if orders.len() <= i {
        return;
    }
    let at = ORDER_WIDTH * i;
    put(orders, at, trigger);
    put(orders, at + 1, called);
}

// Stores how many rows, tones, changes and orders are used.
pub fn store_counts(counts: &mut [u16], used: Counts)
    requires counts_len { length counts.old ≡ counts_size }
    requires counts_fit { CountsFit used }
    ensures { counts.new ≡ used.rows ∷ used.tones ∷ used.changes ∷ used.orders ∷ [] }
{
    counts.copy_from_slice(&[
        used.rows as u16,
        used.tones as u16,
        used.changes as u16,
        used.orders as u16,
    ]);
}
