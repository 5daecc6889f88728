// As many rows of a kind as are allowed, and one more; and lists whose parts do not follow one another.
ghost use Rattle.std.specs.Prelude.{◌<◌, ◌≤◌};
ghost use Rattle.tables.specs.Layout.{most_rows, most_changes};

use crate::lent::{LOGIC, LONG_SYSTEM, LONG_TONES, Lent, POSITIONS, Table, USED_ORDERS, USED_ROWS};
use crate::report::report;
use crate::tally::Tally;
use cents::{Interval, KeyNumber, Pitch};
use std::io;
use tables::{ROW_WIDTH, Row, encode};
use tuning::{Amount, Retuning};

// How many of each the sample has, and how many are allowed: those of "Numbers allowed", and of retunings one more for each of 512 orders and 32 starts.
const INTERVALS: usize = 1;

const TONES: usize = 1;

const SYSTEMS: usize = 2;

const RETUNINGS: usize = 6;

const LOGICS: usize = 1;

const HARMONIES: usize = 1;

const MOST_INTERVALS: usize = 256;

const MOST_TONES: usize = 256;

const MOST_SYSTEMS: usize = 32;

const MOST_RETUNINGS: usize = 128 + 512 + 32;

const MOST_LOGICS: usize = 32;

const MOST_HARMONIES: usize = 64;

// Where a row's bounds stand.
const FROM: usize = 3;

const TO: usize = 4;

// Where the counts of rows and of tones stand.
const ROW_COUNT: usize = 0;

const TONE_COUNT: usize = 1;

#[derive(Clone, Copy)]
enum Kind {
    Interval,
    Tone,
    System,
    Retuning,
    Logic,
    Harmony,
}

// The n-th tone system that is added has a muted position of its own.
fn store_system(rows: &mut [i32], at: usize, n: usize)
    requires { n ≤ most_rows }
{
    let from = (POSITIONS + n) as u32;
    let system = Row::System {
        anchor: KeyNumber(60),
        period: Interval(0),
        from,
        to: from + 1,
    };
    encode::store_row(rows, at, system);
}

// Stores the n-th row that is added: a logic has no orders, a harmony only number 0.
fn store_added(rows: &mut [i32], kind: Kind, n: usize)
    requires { n ≤ most_rows }
{
    let at = USED_ROWS + n;
    match kind {
        Kind::Interval => encode::store_row(rows, at, Row::Interval(Interval(0))),
        Kind::Tone => encode::store_row(rows, at, Row::Tone(Pitch(0))),
        Kind::System => store_system(rows, at, n),
        Kind::Retuning => {
            let retuning = Row::Retuning {
                retuning: Retuning::Anchor(Amount::Kept),
                from: 0,
                to: 0,
            };
            encode::store_row(rows, at, retuning)
        }
        Kind::Logic => {
            let logic = Row::Logic {
                trigger: b'Z' as u16,
                start: 0,
                from: USED_ORDERS as u32,
                to: USED_ORDERS as u32,
            };
            encode::store_row(rows, at, logic)
        }
        Kind::Harmony => {
            let harmony = Row::Harmony {
                needed: 1,
                named: 1,
            };
            encode::store_row(rows, at, harmony)
        }
    }
}

fn store_more(rows: &mut [i32], kind: Kind, more: usize)
    requires { more ≤ most_rows }
{
    for n in 0..more {
        store_added(rows, kind, n);
    }
}

// How many positions the added rows of a kind have.
fn added_tones(kind: Kind, more: usize) -> usize
    ensures { result ≤ more }
{
    match kind {
        Kind::System => more,
        _ => 0,
    }
}

// The sample with so many rows more of a kind.
fn with_rows(kind: Kind, more: usize) -> Lent
    requires { more ≤ most_rows }
{
    let mut t = Lent::sample();
    store_more(&mut t.numbers, kind, more);
    let rows = (USED_ROWS + more) as i32;
    let tones = (POSITIONS + added_tones(kind, more)) as i32;
    t.with_number(Table::Counts, ROW_COUNT, rows)
        .with_number(Table::Counts, TONE_COUNT, tones)
}

// So many more are right, and one more than that is damage.
fn report_kind(rt: &impl Print, name: &str, kind: Kind, more: usize) -> io::Result<()>
    requires { more < most_rows }
{
    let tally = Tally::new()
        .try_right(with_rows(kind, more))
        .try_damaged(with_rows(kind, more + 1));
    report(rt, name, tally)
}

pub fn report_kinds(rt: &impl Print) -> io::Result<()> {
    report_kind(
        rt,
        "intervals, 256 and 257",
        Kind::Interval,
        MOST_INTERVALS - INTERVALS,
    )?;
    report_kind(rt, "tones, 256 and 257", Kind::Tone, MOST_TONES - TONES)?;
    report_kind(
        rt,
        "tone systems, 32 and 33",
        Kind::System,
        MOST_SYSTEMS - SYSTEMS,
    )?;
    report_kind(
        rt,
        "retunings, 672 and 673",
        Kind::Retuning,
        MOST_RETUNINGS - RETUNINGS,
    )?;
    report_kind(rt, "logics, 32 and 33", Kind::Logic, MOST_LOGICS - LOGICS)?;
    report_kind(
        rt,
        "harmonies, 64 and 65",
        Kind::Harmony,
        MOST_HARMONIES - HARMONIES,
    )
}

// A row whose part stands elsewhere.
fn with_part(row: usize, from: usize, to: usize) -> Lent
    requires { (row ≤ most_rows) × (from ≤ most_changes) × (to ≤ most_changes) }
{
    Lent::sample()
        .with_number(Table::Rows, ROW_WIDTH * row + FROM, from as i32)
        .with_number(Table::Rows, ROW_WIDTH * row + TO, to as i32)
}

// Positions that two rows share, positions between two rows that belong to none, and a last one that does.
fn try_parts(row: usize) -> Tally
    requires { row ≤ most_rows }
{
    Tally::new()
        .try_damaged(with_part(row, 1, POSITIONS - 1))
        .try_damaged(with_part(row, 3, POSITIONS))
        .try_damaged(with_part(row, 2, POSITIONS - 1))
}

// A second logic with the orders of the first.
fn with_shared_orders() -> Lent {
    let at = ROW_WIDTH * USED_ROWS;
    with_rows(Kind::Logic, 1)
        .with_number(Table::Rows, at + FROM, 0)
        .with_number(Table::Rows, at + TO, USED_ORDERS as i32)
}

pub fn report_parts(rt: &impl Print) -> io::Result<()> {
    report(
        rt,
        "tone systems, positions shared or left over",
        try_parts(LONG_SYSTEM),
    )?;
    report(
        rt,
        "tones retunings, positions shared or left over",
        try_parts(LONG_TONES),
    )?;
    let orders = Tally::new()
        .try_damaged(with_shared_orders())
        .try_damaged(with_part(LOGIC, 1, USED_ORDERS))
        .try_damaged(with_part(LOGIC, 0, USED_ORDERS - 1));
    report(rt, "logics, orders shared or left over", orders)
}
