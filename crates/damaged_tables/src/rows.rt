// Damaged rows.
use crate::lent::{
    ANCHOR, HARMONY, INTERVAL, LOGIC, LONG_SYSTEM, LONG_TONES, PATTERN, PERIOD, ROW_NUMBERS,
    SHORT_SYSTEM, SHORT_TONES, TONE, Table, USED_ORDERS, USED_ROWS, WIDTH,
};
use crate::ranges::{
    ABOVE_AMOUNTS, ABOVE_ANCHORS, ABOVE_CHANGES, ABOVE_KEYS, ABOVE_LETTERS, ABOVE_PERIODS,
    ABOVE_SETS, ABOVE_SUMS, ABOVE_TONES, ABOVE_WIDTHS, BELOW_LETTERS, BELOW_SUMS, BELOW_TONES,
    LONG_END, SHORT_END, SIXTY_ONE,
};
use crate::report::{report, report_row};
use crate::tally::Tally;
use std::io;
use tables::ROW_WIDTH;

// Where a row has its two own numbers and its bounds.
const FIRST: usize = 1;

const SECOND: usize = 2;

const FROM: usize = 3;

const TO: usize = 4;

pub fn report_values(rt: &impl Print) -> io::Result<()> {
    let wrong = [BELOW_TONES, ABOVE_TONES, -1, 1, -1, 1, -1, 1];
    report_row(rt, "interval", INTERVAL, wrong)?;
    report_row(rt, "tone", TONE, wrong)
}

// Bounds of lists: below 0, at no positions, at 61 of them, and past the used ones.
pub fn report_systems(rt: &impl Print) -> io::Result<()> {
    let short = [
        -1,
        ABOVE_KEYS,
        -1,
        ABOVE_PERIODS,
        -1,
        SHORT_END,
        0,
        SIXTY_ONE,
    ];
    let long = [
        -1,
        ABOVE_KEYS,
        -1,
        ABOVE_PERIODS,
        SHORT_END - 1,
        LONG_END,
        SHORT_END,
        LONG_END + 1,
    ];
    report_row(rt, "tone system of 2 tones", SHORT_SYSTEM, short)?;
    report_row(rt, "tone system of 60 tones", LONG_SYSTEM, long)
}

pub fn report_retunings(rt: &impl Print) -> io::Result<()> {
    let anchor = [-1, ABOVE_ANCHORS, -1, ABOVE_AMOUNTS, -1, 1, -1, 1];
    let width = [-1, ABOVE_WIDTHS, -1, ABOVE_AMOUNTS, -1, 1, -1, 1];
    let period = [-1, ABOVE_CHANGES, BELOW_SUMS, ABOVE_SUMS, -1, 1, -1, 1];
    let short = [-1, 1, -1, 1, -1, SHORT_END, 0, SIXTY_ONE];
    let long = [
        -1,
        1,
        -1,
        1,
        SHORT_END - 1,
        LONG_END,
        SHORT_END,
        LONG_END + 1,
    ];
    report_row(rt, "anchor retuning", ANCHOR, anchor)?;
    report_row(rt, "width retuning", WIDTH, width)?;
    report_row(rt, "period retuning", PERIOD, period)?;
    report_row(rt, "tones retuning of 2 positions", SHORT_TONES, short)?;
    report_row(rt, "tones retuning of 60 positions", LONG_TONES, long)
}

// A retuning whose n is a placeholder has no numbers. Where a call hands 0 to `/`, the width's row has it, and the call gets 25.
pub fn report_placeholders(rt: &impl Print) -> io::Result<()> {
    let wrong = [-1, 1, -1, 1, -1, 1, -1, 1];
    let n = ROW_WIDTH * WIDTH + SECOND;
    let divided = Tally::new().try_right_places(Table::Rows, n, n + 1, 0);
    report_row(rt, "retuning with a placeholder", PATTERN, wrong)?;
    report(rt, "width divided by 0", divided)
}

// A harmony's four numbers are its needed key numbers, and all that it names, each in two halves: one with a number past the half's last.
pub fn report_harmony(rt: &impl Print) -> io::Result<()> {
    let wrong = [
        -1, ABOVE_SETS, -1, ABOVE_SETS, -1, ABOVE_SETS, -1, ABOVE_SETS,
    ];
    let at = ROW_WIDTH * HARMONY + FIRST;
    let all = Tally::new()
        .try_right_places(Table::Rows, at, at + 4, 0)
        .try_right_places(Table::Rows, at, at + 4, ABOVE_SETS - 1);
    report_row(rt, "harmony", HARMONY, wrong)?;
    report(rt, "harmony, sets with no key number and with all", all)
}

// A start past the count; orders turned round, and past the used ones.
pub fn report_logic(rt: &impl Print) -> io::Result<()> {
    let past = USED_ORDERS as i32 + 1;
    let wrong = [
        BELOW_LETTERS,
        ABOVE_LETTERS,
        -1,
        USED_ROWS as i32 + 1,
        -1,
        past,
        -1,
        past,
    ];
    report_row(rt, "logic", LOGIC, wrong)
}

// Bounds turned round.
fn try_turned() -> Tally {
    Tally::new()
        .try_number(Table::Rows, ROW_WIDTH * SHORT_SYSTEM + FROM, SHORT_END + 1)
        .try_number(Table::Rows, ROW_WIDTH * LONG_SYSTEM + TO, SHORT_END - 1)
        .try_number(Table::Rows, ROW_WIDTH * SHORT_TONES + FROM, SHORT_END + 1)
        .try_number(Table::Rows, ROW_WIDTH * LONG_TONES + TO, SHORT_END - 1)
}

// A start that is an interval, a tone, a harmony, a retuning with a placeholder, or the logic itself.
fn try_starts() -> Tally {
    let at = ROW_WIDTH * LOGIC + SECOND;
    Tally::new()
        .try_number(Table::Rows, at, INTERVAL as i32 + 1)
        .try_number(Table::Rows, at, TONE as i32 + 1)
        .try_number(Table::Rows, at, HARMONY as i32 + 1)
        .try_number(Table::Rows, at, PATTERN as i32 + 1)
        .try_number(Table::Rows, at, LOGIC as i32 + 1)
}

// A bare `@` with an n.
fn try_bare() -> Tally {
    Tally::new()
        .try_number(Table::Rows, ROW_WIDTH * ANCHOR + FIRST, 0)
        .try_number(Table::Rows, ROW_WIDTH * WIDTH + FIRST, 0)
}

// The logic's trigger that is no letter, and no harmony.
fn try_logic_triggers() -> Tally {
    Tally::new().try_triggers(Table::Rows, ROW_WIDTH * LOGIC + FIRST)
}

pub fn report_rows(rt: &impl Print) -> io::Result<()> {
    let used = ROW_WIDTH * USED_ROWS;
    let extremes = Tally::new()
        .try_places(Table::Rows, 0, used, i32::MIN)
        .try_places(Table::Rows, 0, used, i32::MAX);
    let unused = Tally::new().try_places(Table::Rows, used, ROW_NUMBERS, 1);
    report(rt, "rows, least and greatest number", extremes)?;
    report(rt, "rows, bounds turned round", try_turned())?;
    report(rt, "rows, start at what no start may call", try_starts())?;
    report(
        rt,
        "rows, trigger of no letter and no harmony",
        try_logic_triggers(),
    )?;
    report(rt, "rows, bare @ with a number", try_bare())?;
    report(rt, "rows, unused places", unused)
}
