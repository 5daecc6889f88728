// Document 01's table "Numbers allowed", in its order, and then what a request allows: each number once for the code. specs/Limits.antt has the same
// numbers for definitions, and the contracts of those who read them here tie the two.
#![tactic(auto)]

pub const MOST_BYTES: usize = 32_768;

// Ratio parts, radicands and frequencies, in ten-thousandths.
pub const LEAST_PART: u32 = 1;

pub const MOST_PART: u32 = 4_294_967_295;

pub const MOST_PLACES: usize = 4;

pub const LEAST_DEGREE: u32 = 1;

pub const MOST_DEGREE: u32 = 65_535;

pub const MOST_FACTOR: u32 = 999;

// An anchor, and so the highest key that one can be moved to.
pub const MOST_ANCHOR: u8 = 127;

// n in anchor and width retunings; after `/` from 1.
pub const MOST_AMOUNT: u32 = 9_999;

pub const LEAST_DIVISOR: u32 = 1;

pub const MOST_TERMS: u32 = 16;

// Positions of a list, and so the widest state.
pub const MOST_POSITIONS: u8 = 60;

pub const MOST_INTERVALS: u16 = 256;

pub const MOST_TONE_NAMES: u16 = 256;

pub const MOST_SYSTEMS: u16 = 32;

pub const MOST_LOGICS: u16 = 32;

pub const MOST_RETUNINGS: u16 = 128;

pub const MOST_ORDERS: u16 = 512;

pub const FARTHEST_TONE: i32 = 100_000_000;

pub const LONGEST_PERIOD: i32 = 12_000_000;

// Letters of logics and orders, as their capitals.
pub const FIRST_LETTER: u8 = 0x41;

pub const LAST_LETTER: u8 = 0x5A;

// Document 02, 5/13: harmonies, the keys that one names, and the numbers of these, from 0.
pub const MOST_HARMONIES: u16 = 64;

pub const MOST_HARMONY_KEYS: u8 = 60;

pub const MOST_HARMONY_KEY: u8 = 59;

// Document 02, 6/13: the highest pitch that an instrument has; the lowest is 0.
pub const HIGHEST_PITCH: i32 = 12_799_999;

// So many declarations of all kinds.
pub const MOST_DECLARATIONS: usize = MOST_INTERVALS as usize
    + MOST_TONE_NAMES as usize
    + MOST_SYSTEMS as usize
    + MOST_LOGICS as usize
    + MOST_RETUNINGS as usize
    + MOST_HARMONIES as usize;

// Document 02, 1/13: placeholders of a retuning, and numbers of a call.
pub const MOST_PLACEHOLDERS: u8 = 4;

// One call for each order and each logic's start.
pub const MOST_CALLS: usize = MOST_ORDERS as usize + MOST_LOGICS as usize;

// So many rows has a program: one for each declaration, and one for each call, whose numbers may be written in.
pub const MOST_ROWS: usize = MOST_DECLARATIONS + MOST_CALLS;
