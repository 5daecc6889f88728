// Damaged lists of tones, changes and orders, and damaged counts.
use crate::lent::{
    HARMONY, INTERVAL, MUTED, PATTERN, POSITIONS, TONE, Table, USED_ORDERS, USED_ROWS,
};
use crate::ranges::{
    ABOVE_KINDS, ABOVE_LETTERS, ABOVE_SOUNDING, ABOVE_SUMS, ABOVE_TONES, BELOW_LETTERS, BELOW_SUMS,
    BELOW_TONES,
};
use crate::report::report;
use crate::tally::Tally;
use std::io;
use tables::{CHANGES, COUNTS, ORDERS, ROWS, TONES};

// Where the counts stand.
const ROW_COUNT: usize = 0;

const TONE_COUNT: usize = 1;

const CHANGE_COUNT: usize = 2;

const ORDER_COUNT: usize = 3;

pub fn report_tones(rt: &impl Print) -> io::Result<()> {
    let codes = Tally::new().try_places(Table::Sounding, 0, POSITIONS, ABOVE_SOUNDING);
    let pitches = Tally::new()
        .try_places(Table::Tones, 0, POSITIONS, BELOW_TONES)
        .try_places(Table::Tones, 0, POSITIONS, ABOVE_TONES);
    let muted = Tally::new()
        .try_places(Table::Sounding, 0, MUTED, 0)
        .try_number(Table::Tones, MUTED, 1)
        .try_number(Table::Tones, MUTED, -1);
    let unused = Tally::new()
        .try_places(Table::Sounding, POSITIONS, TONES, 1)
        .try_places(Table::Tones, POSITIONS, TONES, 1);
    report(rt, "tones, neither muted nor sounding", codes)?;
    report(rt, "tones, pitch out of range", pitches)?;
    report(rt, "tones, muted with a pitch", muted)?;
    report(rt, "tones, unused places", unused)
}

pub fn report_changes(rt: &impl Print) -> io::Result<()> {
    let kinds = Tally::new().try_places(Table::Kinds, 0, POSITIONS, ABOVE_KINDS);
    let sums = Tally::new()
        .try_places(Table::Changes, 0, POSITIONS, BELOW_SUMS)
        .try_places(Table::Changes, 0, POSITIONS, ABOVE_SUMS);
    let muted = Tally::new()
        .try_places(Table::Kinds, 0, MUTED, 0)
        .try_number(Table::Changes, MUTED, 1)
        .try_number(Table::Changes, MUTED, -1);
    let unused = Tally::new()
        .try_places(Table::Kinds, POSITIONS, CHANGES, 1)
        .try_places(Table::Changes, POSITIONS, CHANGES, 1);
    report(rt, "changes, kind out of range", kinds)?;
    report(rt, "changes, sum out of range", sums)?;
    report(rt, "changes, muted with a number", muted)?;
    report(rt, "changes, unused places", unused)
}

pub fn report_orders(rt: &impl Print) -> io::Result<()> {
    let letters = Tally::new()
        .try_places(Table::Triggers, 0, USED_ORDERS, BELOW_LETTERS)
        .try_places(Table::Triggers, 0, USED_ORDERS, ABOVE_LETTERS);
    let triggers = Tally::new()
        .try_triggers(Table::Triggers, 0)
        .try_triggers(Table::Triggers, USED_ORDERS - 1);
    let calls = Tally::new()
        .try_places(Table::Calls, 0, USED_ORDERS, INTERVAL as i32)
        .try_places(Table::Calls, 0, USED_ORDERS, TONE as i32)
        .try_places(Table::Calls, 0, USED_ORDERS, HARMONY as i32)
        .try_places(Table::Calls, 0, USED_ORDERS, PATTERN as i32)
        .try_places(Table::Calls, 0, USED_ORDERS, USED_ROWS as i32)
        .try_places(Table::Calls, 0, USED_ORDERS, -1);
    let unused = Tally::new()
        .try_places(Table::Triggers, USED_ORDERS, ORDERS, 1)
        .try_places(Table::Calls, USED_ORDERS, ORDERS, 1);
    report(rt, "orders, letter out of range", letters)?;
    report(rt, "orders, trigger of no letter and no harmony", triggers)?;
    report(
        rt,
        "orders, call of nothing, of an interval, a tone, a harmony or a retuning with a placeholder",
        calls,
    )?;
    report(rt, "orders, unused places", unused)
}

// One more than there is room for, one less than is referred to, and the greatest number; a row or an order more than there are is an unused one.
pub fn report_counts(rt: &impl Print) -> io::Result<()> {
    let counts = Tally::new()
        .try_number(Table::Counts, ROW_COUNT, ROWS as i32 + 1)
        .try_number(Table::Counts, ROW_COUNT, USED_ROWS as i32 - 1)
        .try_number(Table::Counts, ROW_COUNT, USED_ROWS as i32 + 1)
        .try_number(Table::Counts, TONE_COUNT, TONES as i32 + 1)
        .try_number(Table::Counts, TONE_COUNT, POSITIONS as i32 - 1)
        .try_number(Table::Counts, CHANGE_COUNT, CHANGES as i32 + 1)
        .try_number(Table::Counts, CHANGE_COUNT, POSITIONS as i32 - 1)
        .try_number(Table::Counts, ORDER_COUNT, ORDERS as i32 + 1)
        .try_number(Table::Counts, ORDER_COUNT, USED_ORDERS as i32 - 1)
        .try_number(Table::Counts, ORDER_COUNT, USED_ORDERS as i32 + 1)
        .try_places(Table::Counts, 0, COUNTS, -1);
    report(rt, "counts", counts)?;
    report(rt, "slices too short or too long", Tally::new().try_sizes())
}
