// Damages tried, and how many of them were answered as they must be. Each is made in the sample, one number at a time.
ghost use Rattle.std.specs.Prelude.{◌≤◌};
ghost use Rattle.tuning.specs.State.{places};
ghost use Rattle.tables.specs.Layout.{most_rows};

use crate::lent::{FULL_SIZES, HARMONY, Lent, Table};
use crate::trial::send_frame;
use answers::SMALLEST_BUFFER;
use keys::HeldKeys;
use protocol::Desk;
use status::{BAD_FRAME, BUFFER_TOO_SMALL, DONE, KEY_UNPLAYABLE, TABLE_DAMAGED};
use tables::{HARMONY_BASE, PATTERN_FORM, ROW_WIDTH, ROWS, UNUSED_FORM};
use tuning::{State, Tone};

// The forms go from 1 to 10.
const BELOW_FORMS: i32 = UNUSED_FORM as i32;

const ABOVE_FORMS: i32 = PATTERN_FORM as i32 + 1;

// How many wrong numbers a row is given besides those of its form: two for each of its other four numbers.
const WRONG: usize = 8;

#[derive(Clone, Copy)]
pub struct Tally {
    pub right: u64,
    pub tried: u64,
}

// Such a tuning, no logic active, no key held.
fn tuned(tuning: State) -> Desk {
    Desk {
        tuning,
        ..Desk::start()
    }
}

// The start, with such keys held.
fn holding(keys: HeldKeys) -> Desk {
    Desk {
        keys,
        ..Desk::start()
    }
}

impl Tally {
    pub fn new() -> Tally {
        Tally { right: 0, tried: 0 }
    }

    // One more; no run comes near 2^64.
    pub fn add(self, right: bool) -> Tally {
        Tally {
            right: self.right.wrapping_add(u64::from(right)),
            tried: self.tried.wrapping_add(1),
        }
    }

    // A frame that has to get this number, and change nothing.
    fn try_frame(self, t: Lent, desk: Desk, frame: &[u8], room: usize, number: u8) -> Tally {
        let outcome = send_frame(t, desk, frame, room);
        self.add(outcome.number == number && outcome.unchanged)
    }

    // A key's frame that has to get 23.
    fn try_key(self, t: Lent, desk: Desk) -> Tally {
        self.try_frame(t, desk, b"010245", SMALLEST_BUFFER, TABLE_DAMAGED)
    }

    // Tables that have to get 23, and tables that have to be answered.
    pub fn try_damaged(self, t: Lent) -> Tally {
        self.try_key(t, Desk::start())
    }

    pub fn try_right(self, t: Lent) -> Tally {
        let outcome = send_frame(t, Desk::start(), b"010245", SMALLEST_BUFFER);
        self.add(outcome.number == DONE)
    }

    pub fn try_number(self, table: Table, at: usize, wrong: i32) -> Tally {
        self.try_damaged(Lent::sample().with_number(table, at, wrong))
    }

    // The same wrong number at each place from `from` to `to`.
    pub fn try_places(self, table: Table, from: usize, to: usize, wrong: i32) -> Tally {
        (from..to).fold(self, |tally, at| tally.try_number(table, at, wrong))
    }

    // Another number at each place from `from` to `to` that is right there.
    pub fn try_right_places(self, table: Table, from: usize, to: usize, number: i32) -> Tally {
        (from..to).fold(self, |tally, at| {
            tally.try_right(Lent::sample().with_number(table, at, number))
        })
    }

    // Each number from `from` to `to` at one place.
    fn try_numbers(self, table: Table, at: usize, from: u16, to: u16) -> Tally {
        (from..to).fold(self, |tally, wrong| {
            tally.try_number(table, at, i32::from(wrong))
        })
    }

    // Triggers that are no letter and name no harmony: the one below those of all rows, each but the harmony's, the one above, and the greatest.
    pub fn try_triggers(self, table: Table, at: usize) -> Tally {
        let harmony = HARMONY_BASE + HARMONY as u16;
        let end = HARMONY_BASE + ROWS as u16;
        self.try_numbers(table, at, HARMONY_BASE - 1, harmony)
            .try_numbers(table, at, harmony + 1, end + 1)
            .try_number(table, at, u16::MAX as i32)
    }

    // Two wrong numbers for each number of a row: its form's, then those given for the first, the second, `from` and `to`.
    pub fn try_row(self, row: usize, wrong: [i32; WRONG]) -> Tally
        requires { row ≤ most_rows }
    {
        let form = ROW_WIDTH * row;
        let mut tally = self
            .try_number(Table::Rows, form, BELOW_FORMS)
            .try_number(Table::Rows, form, ABOVE_FORMS);
        for (k, number) in wrong.into_iter().enumerate() {
            tally = tally.try_number(Table::Rows, form + 1 + k / 2, number);
        }
        tally
    }

    fn try_size(self, slice: usize, wrong: usize) -> Tally {
        self.try_damaged(Lent::sample().with_size(slice, wrong))
    }

    // Each slice a number shorter, and a number longer.
    pub fn try_sizes(self) -> Tally {
        let mut tally = self;
        for (slice, size) in FULL_SIZES.into_iter().enumerate() {
            tally = tally.try_size(slice, size - 1).try_size(slice, size + 1);
        }
        tally
    }

    pub fn try_tuning(self, tuning: State) -> Tally {
        self.try_key(Lent::sample(), tuned(tuning))
    }

    // A key that is unplayable on such a tuning: 15, and the desk is as it was; 23 with damaged tables, 19 with a buffer under 512 bytes.
    pub fn try_unplayable(self, tuning: State, frame: &[u8]) -> Tally {
        let desk = tuned(tuning);
        let asked = send_frame(Lent::sample(), desk, frame, SMALLEST_BUFFER);
        let right = Lent::sample();
        let damaged = Lent::damaged();
        self.add(asked.number == KEY_UNPLAYABLE && asked.kept)
            .try_frame(damaged, desk, frame, SMALLEST_BUFFER, TABLE_DAMAGED)
            .try_frame(right, desk, frame, SMALLEST_BUFFER - 1, BUFFER_TOO_SMALL)
    }

    // A key's frame with such keys held, which has to be answered.
    pub fn try_held(self, keys: HeldKeys) -> Tally {
        let outcome = send_frame(Lent::sample(), holding(keys), b"010245", SMALLEST_BUFFER);
        self.add(outcome.number == DONE)
    }

    // Damaged tables, and a key that goes down or up: 23, and the same keys are held.
    pub fn try_move(self, keys: HeldKeys, frame: &[u8]) -> Tally {
        let t = Lent::damaged();
        self.try_frame(t, holding(keys), frame, SMALLEST_BUFFER, TABLE_DAMAGED)
    }

    // A row of letters with damaged tables, and with a damaged state: 23; with a small buffer: 19. Nothing is pressed.
    pub fn try_letter_row(self, damaged: State, frame: &[u8]) -> Tally {
        let t = Lent::damaged();
        let right = Lent::sample();
        self.try_frame(t, Desk::start(), frame, SMALLEST_BUFFER, TABLE_DAMAGED)
            .try_frame(right, tuned(damaged), frame, SMALLEST_BUFFER, TABLE_DAMAGED)
            .try_frame(
                right,
                Desk::start(),
                frame,
                SMALLEST_BUFFER - 1,
                BUFFER_TOO_SMALL,
            )
    }

    // A row that is bad: 22, and the desk is as it was.
    pub fn try_bad_letter_row(self, frame: &[u8]) -> Tally {
        let outcome = send_frame(Lent::sample(), Desk::start(), frame, SMALLEST_BUFFER);
        self.add(outcome.number == BAD_FRAME && outcome.kept)
    }

    // The start with another tone at each position from `from` to `to`.
    pub fn try_tones(self, from: usize, to: usize, tone: Tone) -> Tally
        requires { to ≤ places }
    {
        let mut tally = self;
        for i in from..to {
            let mut s = State::start();
            s.tones[i] = tone;
            tally = tally.try_tuning(s);
        }
        tally
    }

    // Declaration i as the active logic.
    pub fn try_active(self, i: u32) -> Tally {
        let desk = Desk {
            active: Some(i),
            ..Desk::start()
        };
        self.try_key(Lent::sample(), desk)
    }

    // Each of the first `n` declarations as the active logic.
    pub fn try_first_active(self, n: u32) -> Tally {
        (0..n).fold(self, |tally, i| tally.try_active(i))
    }

    // Damaged tables with buffers of less than 512 bytes: 19.
    pub fn try_buffers(self) -> Tally {
        (0..SMALLEST_BUFFER).fold(self, |tally, room| {
            tally.try_frame(
                Lent::damaged(),
                Desk::start(),
                b"010245",
                room,
                BUFFER_TOO_SMALL,
            )
        })
    }

    // Damaged tables with the beginnings of a frame, which are bad frames: 23.
    pub fn try_beginnings(self, frame: &[u8]) -> Tally {
        let mut tally = self;
        for n in 0..frame.len() {
            tally = tally.try_frame(
                Lent::damaged(),
                Desk::start(),
                &frame[..n],
                SMALLEST_BUFFER,
                TABLE_DAMAGED,
            );
        }
        tally
    }
}
