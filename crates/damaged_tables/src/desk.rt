// A damaged desk, and damage beside a small buffer or a bad frame.
ghost use Rattle.std.specs.Prelude.{◌≤◌};

use crate::lent::{LOGIC, USED_ROWS};
use crate::ranges::{ABOVE_KEYS, ABOVE_PERIODS, ABOVE_TONES, BELOW_TONES};
use crate::report::report;
use crate::tally::Tally;
use cents::{Interval, KeyNumber, Pitch};
use keys::{HeldKeys, KEYS};
use std::io;
use tuning::{PLACES, State, Tone};

const WIDTH_AT_START: u8 = 12;

fn start_at(key: u8) -> State {
    State {
        anchor: KeyNumber(key),
        ..State::start()
    }
}

fn start_of_width(width: u8) -> State {
    State {
        width,
        ..State::start()
    }
}

fn start_of_period(thousandths: i32) -> State {
    State {
        period: Interval(thousandths),
        ..State::start()
    }
}

// One position, and the longest period.
fn far_state(anchor: KeyNumber, tone: Tone) -> State {
    let mut tones = [Tone::Muted; PLACES];
    tones[0] = tone;
    State {
        anchor,
        width: 1,
        tones,
        period: Interval(ABOVE_PERIODS - 1),
    }
}

// The farthest tones of a state, at both ends of the keyboard: keys 127 and 0 as far above and below as a key can be, at 1,624,000,000 either way, and
// keys 0 and 127 at the tones themselves.
pub fn report_unplayable(rt: &impl Print) -> io::Result<()> {
    let first = KeyNumber(0);
    let last = KeyNumber(KEYS as u8 - 1);
    let high = Tone::At(Pitch(ABOVE_TONES - 1));
    let low = Tone::At(Pitch(BELOW_TONES + 1));
    let keys = Tally::new()
        .try_unplayable(far_state(first, high), b"01027F")
        .try_unplayable(far_state(last, low), b"010200")
        .try_unplayable(far_state(first, low), b"020200")
        .try_unplayable(far_state(last, high), b"02027F");
    report(rt, "unplayable keys", keys)
}

// At width 11 the last tone of the start is one past the width.
pub fn report_state(rt: &impl Print) -> io::Result<()> {
    let anchors = Tally::new()
        .try_tuning(start_at(ABOVE_KEYS as u8))
        .try_tuning(start_at(u8::MAX));
    let widths = Tally::new()
        .try_tuning(start_of_width(0))
        .try_tuning(start_of_width(WIDTH_AT_START - 1))
        .try_tuning(start_of_width(PLACES as u8 + 1))
        .try_tuning(start_of_width(u8::MAX));
    let periods = Tally::new()
        .try_tuning(start_of_period(-1))
        .try_tuning(start_of_period(ABOVE_PERIODS))
        .try_tuning(start_of_period(i32::MIN))
        .try_tuning(start_of_period(i32::MAX));
    let used = WIDTH_AT_START as usize;
    let tones = Tally::new()
        .try_tones(0, used, Tone::At(Pitch(BELOW_TONES)))
        .try_tones(0, used, Tone::At(Pitch(ABOVE_TONES)));
    let past = Tally::new().try_tones(used, PLACES, Tone::At(Pitch(0)));
    report(rt, "state, anchor out of range", anchors)?;
    report(rt, "state, width out of range", widths)?;
    report(rt, "state, period out of range", periods)?;
    report(rt, "state, tone out of range", tones)?;
    report(rt, "state, tone past the width", past)
}

// A row that is no logic, the first one past the count, and the greatest number.
pub fn report_active(rt: &impl Print) -> io::Result<()> {
    let active = Tally::new()
        .try_first_active(LOGIC as u32)
        .try_active(USED_ROWS as u32)
        .try_active(u32::MAX);
    report(rt, "active logic", active)
}

// All keys of a house go down.
fn press_all(held: HeldKeys, house: u8) -> HeldKeys
    requires { (1 ≤ house) × (house ≤ 2) }
{
    let mut keys = held;
    for k in 0..KEYS as u8 {
        keys = keys.press(house, KeyNumber(k)).unwrap_or(keys);
    }
    keys
}

// Held keys cannot be out of range: none, all of the one house, of the other, and of both are right.
pub fn report_keys(rt: &impl Print) -> io::Result<()> {
    let none = HeldKeys::none();
    let first = press_all(none, 1);
    let held = Tally::new()
        .try_held(none)
        .try_held(first)
        .try_held(press_all(none, 2))
        .try_held(press_all(first, 2));
    report(rt, "held keys", held)
}

// "For a frame: 19, 23, 22, then the rest." With the keys of house 1 held, one of either house goes down or up: 23 before 17 and 18, and the same
// keys are held.
pub fn report_order_of_checks(rt: &impl Print) -> io::Result<()> {
    report(
        rt,
        "damaged tables, buffer under 512 bytes",
        Tally::new().try_buffers(),
    )?;
    report(
        rt,
        "damaged tables, bad frame",
        Tally::new().try_beginnings(b"010245"),
    )?;
    let first = press_all(HeldKeys::none(), 1);
    let moves = Tally::new()
        .try_move(first, b"01053C")
        .try_move(first, b"01063C")
        .try_move(first, b"02053C")
        .try_move(first, b"02063C");
    report(rt, "damaged tables, key down or up", moves)
}

// Rows of one letter and of 32, from either house. M is the sample's logic and U its order: a row that is bad behind them has pressed neither.
pub fn report_letter_rows(rt: &impl Print) -> io::Result<()> {
    let damaged = start_at(ABOVE_KEYS as u8);
    let longest = b"0204204D55555555555555555555555555555555555555555555555555555555555555";
    let rows = Tally::new()
        .try_letter_row(damaged, b"0104014D")
        .try_letter_row(damaged, b"0204024D55")
        .try_letter_row(damaged, longest);
    let bad = Tally::new()
        .try_bad_letter_row(b"0104")
        .try_bad_letter_row(b"010400")
        .try_bad_letter_row(b"0104014D55")
        .try_bad_letter_row(b"0104034D55")
        .try_bad_letter_row(b"0104034D5540")
        .try_bad_letter_row(b"0104034D555B")
        .try_bad_letter_row(b"0104034D554d")
        .try_bad_letter_row(b"0104034D554")
        .try_bad_letter_row(b"0304024D55")
        .try_bad_letter_row(
            b"0104214D5555555555555555555555555555555555555555555555555555555555555555",
        );
    report(rt, "rows of letters, damage or a small buffer", rows)?;
    report(rt, "rows of letters, bad", bad)
}
