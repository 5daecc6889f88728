// Numbers that are just out of their ranges.
use crate::lent::{POSITIONS, SHORT};
use tables::{DIVIDE_CODE, HALF_SET, MINUS_CODE, ONWARD_CODE, SET_CODE, SOUNDS_CODE};
use tuning::PLACES;

// One below and one above what document 01 allows ("Numbers allowed"), and for the sums of retunings what the tables allow.
pub const BELOW_TONES: i32 = -100_000_001;

pub const ABOVE_TONES: i32 = 100_000_001;

pub const BELOW_SUMS: i32 = -200_000_002;

pub const ABOVE_SUMS: i32 = 200_000_002;

pub const ABOVE_PERIODS: i32 = 12_000_001;

pub const ABOVE_KEYS: i32 = 128;

pub const ABOVE_AMOUNTS: i32 = 10_000;

pub const BELOW_LETTERS: i32 = 0x40;

pub const ABOVE_LETTERS: i32 = 0x5B;

// One above half a set of key numbers: it would have number 30 or 60.
pub const ABOVE_SETS: i32 = HALF_SET as i32;

// One above the codes of anchors, widths, periods, tones and changes.
pub const ABOVE_ANCHORS: i32 = MINUS_CODE as i32 + 1;

pub const ABOVE_WIDTHS: i32 = DIVIDE_CODE as i32 + 1;

pub const ABOVE_CHANGES: i32 = ONWARD_CODE as i32 + 1;

pub const ABOVE_SOUNDING: i32 = SOUNDS_CODE as i32 + 1;

pub const ABOVE_KINDS: i32 = SET_CODE as i32 + 1;

// Where the positions of the short lists and of the long ones end, and one more than a list may have.
pub const SHORT_END: i32 = SHORT as i32;

pub const LONG_END: i32 = POSITIONS as i32;

pub const SIXTY_ONE: i32 = PLACES as i32 + 1;
