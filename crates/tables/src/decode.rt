// Numbers of the tables as a row, a tone, a change, a tone system's state and a retuning's positions. What stands past a table's end is read as zero.
ghost use Rattle.std.specs.Prelude.{◌≡◌, ◌+◌, ◌*◌, ◌≤◌, ℕ, ℤ, pos, length, get_or};
ghost use Rattle.integers.specs.Parts.{up};
ghost use Rattle.tuning.specs.State.{coded, places};
ghost use Rattle.tables.specs.Layout.{half_set, amount_of, period_of, row_of, read_at, tone_of, change_of, joined, full};
ghost use Rattle.tables.specs.Values.{system, listed, FieldsFit};

use crate::{
    ABSOLUTE_CODE, ANCHOR_FORM, FRESH_CODE, HALF_SET, HARMONY_FORM, INTERVAL_FORM, KEPT_CODE,
    LOGIC_FORM, MINUS_CODE, MOVE_CODE, MUTE_CODE, MUTED_CODE, Numbers, PATTERN_FORM, PERIOD_FORM,
    PLUS_CODE, ROW_WIDTH, Row, SYSTEM_FORM, TIMES_CODE, TONE_FORM, TONES_FORM, UNUSED_FORM,
    WIDTH_FORM,
};
use cents::{Interval, KeyNumber, Pitch};
use tuning::{
    Amount, Operator, PLACES, PeriodChange, Retuning, State, Tone, ToneChange, ToneChanges,
};

// z, or 0 where it is negative.
pub fn natural(z: i32) -> u32
    ensures { result ≡ up z }
{
    u32::try_from(z).unwrap_or(0)
}

// The number at a place, or 0 past the end.
pub fn number_at(table: &[i32], at: usize) -> i32
    ensures { result ≡ get_or table.now at (pos 0) }
{
    table.get(at).copied().unwrap_or(0)
}

fn code_at(table: &[u16], at: usize) -> u16
    ensures { result ≡ get_or table.now at 0 }
{
    table.get(at).copied().unwrap_or(0)
}

// The numbers of row i.
pub fn numbers_at(rows: &[i32], i: usize) -> Numbers
    ensures { result ≡ read_at rows.now i }
{
    if rows.len() <= i {
        return Numbers::new(UNUSED_FORM, 0, 0);
    }
    let at = ROW_WIDTH * i;
    Numbers {
        form: natural(number_at(rows, at)),
        first: number_at(rows, at + 1),
        second: number_at(rows, at + 2),
        from: natural(number_at(rows, at + 3)),
        to: natural(number_at(rows, at + 4)),
    }
}

fn amount_of(code: u32, n: u16) -> Amount
    ensures { result ≡ amount_of code n }
{
    match code {
        KEPT_CODE => Amount::Kept,
        ABSOLUTE_CODE => Amount::Absolute(n),
        PLUS_CODE => Amount::Relative(Operator::Plus, n),
        MINUS_CODE => Amount::Relative(Operator::Minus, n),
        TIMES_CODE => Amount::Relative(Operator::Times, n),
        _ => Amount::Relative(Operator::Divide, n),
    }
}

fn period_of(code: u32, sum: Interval) -> PeriodChange
    ensures { result ≡ period_of code sum.0 }
{
    match code {
        FRESH_CODE => PeriodChange::Fresh(sum),
        _ => PeriodChange::Onward(sum),
    }
}

fn retuning_row(retuning: Retuning, from: u32, to: u32) -> Row
    ensures { result ≡ Row.Retuning retuning from to }
{
    Row::Retuning { retuning, from, to }
}

// A set of key numbers by its lower thirty bits and the others.
pub fn set_of(low: u32, high: u32) -> u64
    ensures { result ≡ low + high * half_set }
{
    low as u64 + high as u64 * HALF_SET
}

// A row by its form.
#[tactic(auto, unfolding(crate::specs::Layout::row_of))]
pub(crate) fn row_of(n: Numbers) -> Row
    requires { FieldsFit n }
    ensures { result ≡ row_of n }
{
    let Numbers {
        form,
        first,
        second,
        from,
        to,
    } = n;
    let a = natural(first);
    let b = natural(second);
    match form {
        INTERVAL_FORM => Row::Interval(Interval(first)),
        TONE_FORM => Row::Tone(Pitch(first)),
        SYSTEM_FORM => Row::System {
            anchor: KeyNumber(a as u8),
            period: Interval(second),
            from,
            to,
        },
        ANCHOR_FORM => retuning_row(Retuning::Anchor(amount_of(a, b as u16)), from, to),
        WIDTH_FORM => retuning_row(Retuning::Width(amount_of(a, b as u16)), from, to),
        PERIOD_FORM => retuning_row(Retuning::Period(period_of(a, Interval(second))), from, to),
        TONES_FORM => retuning_row(Retuning::Tones, from, to),
        LOGIC_FORM => Row::Logic {
            trigger: a as u16,
            start: b,
            from,
            to,
        },
        HARMONY_FORM => Row::Harmony {
            needed: set_of(a, b),
            named: set_of(from, to),
        },
        PATTERN_FORM => Row::Pattern,
        _ => Row::Unused,
    }
}

fn tone_of(code: u16, z: i32) -> Tone
    ensures { result ≡ tone_of code z }
{
    match code {
        MUTED_CODE => Tone::Muted,
        _ => Tone::At(Pitch(z)),
    }
}

fn change_of(code: u16, z: i32) -> ToneChange
    ensures { result ≡ change_of code z }
{
    match code {
        MUTE_CODE => ToneChange::Mute,
        MOVE_CODE => ToneChange::Move(Interval(z)),
        _ => ToneChange::Set(Pitch(z)),
    }
}

// Tone i of the tone systems.
pub fn tone_at(sounding: &[u16], tones: &[i32], i: usize) -> Tone
    ensures { result ≡ tone_of (get_or sounding.now i 0) (get_or tones.now i (pos 0)) }
{
    tone_of(code_at(sounding, i), number_at(tones, i))
}

// Change i of the tones retunings.
pub fn change_at(kinds: &[u16], changes: &[i32], i: usize) -> ToneChange
    ensures { result ≡ change_of (get_or kinds.now i 0) (get_or changes.now i (pos 0)) }
{
    change_of(code_at(kinds, i), number_at(changes, i))
}

// What kinds and numbers stand for, at the start of an array; its other places are unused.
fn places_of<T: Copy, F: Fn(u16, i32) -> T>(
    kinds: &[u16],
    numbers: &[i32],
    unused: T,
    read: F,
) -> [T; PLACES]
    requires lengths { (length kinds.now ≡ length numbers.now) × (length kinds.now ≤ places) }
    requires callable { F.IsAlwaysCallable read }
    ensures { (f : ℕ → ℤ → T) → ((k : ℕ) (z : ℤ) (x : T) → F.post read k z x → x ≡ f k z) → result ≡ full unused places (joined f kinds.now numbers.now) }
{
    let mut all = [unused; PLACES];
    for (i, kind) in kinds.iter().enumerate() {
        all[i] = read(*kind, numbers[i]);
    }
    all
}

// The state of a tone system with these tones.
pub(crate) fn system_of(
    anchor: KeyNumber,
    period: Interval,
    sounding: &[u16],
    tones: &[i32],
) -> State
    requires { (length sounding.now ≡ length tones.now) × (length tones.now ≤ places) }
    ensures { result ≡ coded (system anchor.0 (joined tone_of sounding.now tones.now) period.0) }
{
    State {
        anchor,
        width: tones.len() as u8,
        tones: places_of(sounding, tones, Tone::Muted, tone_of),
        period,
    }
}

// The positions of a tones retuning with these changes.
pub(crate) fn changes_of(kinds: &[u16], changes: &[i32]) -> ToneChanges
    requires { (length kinds.now ≡ length changes.now) × (length changes.now ≤ places) }
    ensures { result ≡ listed (joined change_of kinds.now changes.now) }
{
    ToneChanges {
        count: changes.len() as u8,
        positions: places_of(kinds, changes, ToneChange::Mute, change_of),
    }
}
