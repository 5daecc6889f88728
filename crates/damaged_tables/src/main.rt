// A test program: valid tables and the desk at its start, then one number of them wrong at a time. Document 01: "23: a table's or state's number out
// of range, or a reference beyond its count", which leaves "buffer, state unchanged"; "Unused places of tables and states are zero, else 23"; "For a
// frame: 19, 23, 22, then the rest". A line has a group's name, how many damages were answered so, with the desk and the buffer as they were, and how
// many were tried. Where the numbers in `stdout` come from:
// - right tables: no damage, two frames, a key's that gets 0 and a bad one that gets 22;
// - a line for each of the 12 rows: 5 numbers, each one below and one above its range; a harmony's 4 numbers, each 0 and the greatest, are right, and so is
//   a width divided by 0;
// - rows: 12 · 5 numbers, each the least and the greatest of 32 bits; the bounds of 4 lists; a start at an interval, a tone, a harmony, a retuning with a
//   placeholder, a logic; 1,312 - 1 triggers of rows that are no harmony, and 3 of no row; an anchor and a width; (1,312 - 12) · 5 unused places;
// - tones: 62 are used, the last one muted; 62 codes; 62 · 2 pitches; 61 tones muted, and 2 pitches for the muted one; (32 · 60 - 62) · 2
//   unused places;
// - changes: the same, and (128 · 60 - 62) · 2 unused places;
// - orders: 3 · 2 letters; 2 · 1,314 triggers as above, of an order with a letter and of one with a harmony; 3 · 6 calls; (512 - 3) · 2 unused places;
// - counts: 4 too great, 4 too small for what is referred to, 4 the greatest of 16 bits, and a row and an order too many; 2 slices, 2 sizes each;
// - each kind: as many as "Numbers allowed" has are right, one more is damage; of retunings 128 + 512 + 32, since 1/13 has a row for each order's and each
//   start's call; parts: each list's 3 ways not to follow one another;
// - state: 2 anchors, 4 widths, 4 periods, 12 · 2 tones, 60 - 12 tones past the width;
// - active logic: 11 rows that are no logic, the first one past the count, the greatest number of 32 bits;
// - held keys: no damage, those of no house, of either and of both; each is answered;
// - buffers of 0 to 511 bytes, which get 19; the 6 beginnings of a frame of 6 digits; a key of 2 houses down and up;
// - unplayable keys: 4 states at the ends of what a state may hold, each with 15, 23 and 19;
// - rows of letters: 3 rows, each with damaged tables, a damaged state and a small buffer; 10 bad ones, which leave the desk as it was.
#![tactic(auto)]

mod desk;
mod kinds;
mod lent;
mod lists;
mod ranges;
mod report;
mod rows;
mod tally;
mod trial;

use answers::SMALLEST_BUFFER;
use desk::{
    report_active, report_keys, report_letter_rows, report_order_of_checks, report_state,
    report_unplayable,
};
use kinds::{report_kinds, report_parts};
use lent::Lent;
use lists::{report_changes, report_counts, report_orders, report_tones};
use protocol::Desk;
use report::report;
use rows::{
    report_harmony, report_logic, report_placeholders, report_retunings, report_rows,
    report_systems, report_values,
};
use status::{BAD_FRAME, DONE};
use std::io;
use tally::Tally;
use trial::send_frame;

// Nothing damaged: a key's frame is answered 0, a bad one 22.
fn try_right() -> Tally {
    let key = send_frame(Lent::sample(), Desk::start(), b"010245", SMALLEST_BUFFER);
    let bad = send_frame(Lent::sample(), Desk::start(), b"01024", SMALLEST_BUFFER);
    Tally::new()
        .add(key.number == DONE)
        .add(bad.number == BAD_FRAME)
}

fn main(rt: HostRuntime) -> io::Result<()> {
    report(&rt, "right tables", try_right())?;
    report_values(&rt)?;
    report_systems(&rt)?;
    report_retunings(&rt)?;
    report_placeholders(&rt)?;
    report_harmony(&rt)?;
    report_logic(&rt)?;
    report_rows(&rt)?;
    report_tones(&rt)?;
    report_changes(&rt)?;
    report_orders(&rt)?;
    report_counts(&rt)?;
    report_kinds(&rt)?;
    report_parts(&rt)?;
    report_state(&rt)?;
    report_active(&rt)?;
    report_keys(&rt)?;
    report_order_of_checks(&rt)?;
    report_unplayable(&rt)?;
    report_letter_rows(&rt)
}
