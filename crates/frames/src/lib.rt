// Frames: a line of capital hexadecimal digits, and what it asks of the desk.
#![tactic(auto)]

ghost use Rattle.std.specs.Prelude.{◌≡◌, true, [], ◌∷◌, ◌*◌, ◌≤◌, length, MatchOption, option_map, take};
ghost use Rattle.frames.specs.Frames.{way_kind, is_house, kind_frame, letter_row_frame, frame_of, decoded_as, inside, most_presses, bad};
ghost use Rattle.frames.specs.Inner.{HeadOf, head_digits, row_behind, capitals_only, HasLetters};

use cents::KeyNumber;
use hexadecimal::digits::byte_value;

// The first byte of a frame: the house that sends it.
pub const FIRST_HOUSE: u8 = 1;

pub const SECOND_HOUSE: u8 = 2;

// The second byte: the kind of the frame.
// Kept as it is: an enum of kinds would write each number a second time, in its conversion from a byte.
pub const LETTER_KIND: u8 = 1;

pub const KEY_KIND: u8 = 2;

pub const DUMP_KIND: u8 = 3;

pub const LETTER_ROW_KIND: u8 = 4;

pub const DOWN_KIND: u8 = Way::Down as u8;

pub const UP_KIND: u8 = Way::Up as u8;

// The third byte of a frame that asks for a dump.
pub const DUMP_DATA: u8 = 0;

const LAST_KEY: u8 = 127;

// The digits of house, kind, and value or count.
const HEAD_DIGITS: usize = 6;

// How many letters a row has.
const FEWEST_PRESSES: usize = 1;

pub const MOST_PRESSES: usize = 32;

// Of a line no more than these bytes matter: one more than the longest frame has makes it too long.
pub const ENOUGH: usize = HEAD_DIGITS + 2 * MOST_PRESSES + 1;

// How a key moves, and the kind of the frame that says so.
#[derive(Clone, Copy)]
pub enum Way {
    Down = 5,
    Up = 6,
}

// The first three bytes of a frame: of a row of letters, the value is how many it has.
#[derive(Clone, Copy)]
pub struct Head {
    pub house: u8,
    pub kind: u8,
    pub value: u8,
}

// What a line asks: its frame, as far as code needs it.
// Kept as it is: a bad frame is one of six kinds, and is answered as the others are.
#[derive(Clone, Copy)]
pub enum Decoded {
    Bad,
    Letter { house: u8, letter: u8 },
    Key { house: u8, key: KeyNumber },
    Dump { house: u8 },
    Move { way: Way, house: u8, key: KeyNumber },
    LetterRow { house: u8, count: u8 },
}

// The kind of the frame that says so.
pub fn kind_of(way: Way) -> u8
    ensures { result ≡ way_kind way }
{
    way as u8
}

fn is_house(b: u8) -> bool
    ensures { result ≡ is_house b }
{
    matches!(b, FIRST_HOUSE..=SECOND_HOUSE)
}

#[tactic(auto, using(crate::proofs::Lines::heads))]
fn read_head(line: &[u8]) -> Option<Head>
    ensures { MatchOption result (frame_of line.now ≡ bad) (λ head. HeadOf head line.now) }
{
    if line.len() < HEAD_DIGITS {
        return None;
    }
    let house = byte_value(line[0], line[1])?;
    let kind = byte_value(line[2], line[3])?;
    let value = byte_value(line[4], line[5])?;
    Some(Head { house, kind, value })
}

// Reads so many letters, of two digits each.
#[tactic(auto, using(crate::proofs::Reading::readings))]
fn read_letters(digits: &[u8], count: usize) -> Option<[u8; MOST_PRESSES]>
    requires { (length digits.now ≡ 2 * count) × (count ≤ most_presses) }
    ensures { option_map (take count) result ≡ capitals_only digits.now }
{
    let mut codes = [0u8; MOST_PRESSES];
    for i in 0..count {
        let letter = byte_value(digits[2 * i], digits[2 * i + 1])?;
        if !letter.is_ascii_uppercase() {
            return None;
        }
        codes[i] = letter;
    }
    Some(codes)
}

// What a row of a house asks, by its count and the digits behind that.
#[tactic(auto, using(crate::proofs::LetterRows::other_length))]
fn read_row(house: u8, count: u8, digits: &[u8]) -> Decoded
    ensures { result ≡ decoded_as (row_behind house count digits.now) }
{
    let letters = count as usize;
    if !matches!(letters, FEWEST_PRESSES..=MOST_PRESSES) {
        return Decoded::Bad;
    }
    if digits.len() != 2 * letters {
        return Decoded::Bad;
    }
    if read_letters(digits, letters).is_none() {
        return Decoded::Bad;
    }
    Decoded::LetterRow { house, count }
}

// The letters of a row, and zeros behind them; of any other frame, zeros.
pub fn letters_of(frame: Decoded, line: &[u8]) -> [u8; MOST_PRESSES]
    requires { frame ≡ decoded_as (frame_of line.now) }
    ensures { HasLetters result (frame_of line.now) }
{
    let Decoded::LetterRow { count, .. } = frame else {
        return [0u8; MOST_PRESSES];
    };
    read_letters(&line[HEAD_DIGITS..], count as usize).unwrap()
}

// What three bytes of a house ask.
fn read_frame(head: Head) -> Decoded
    ensures { result ≡ decoded_as (kind_frame head.house head.kind (head.value ∷ [])) }
{
    let Head { house, kind, value } = head;
    let key = KeyNumber(value);
    match kind {
        LETTER_KIND if value.is_ascii_uppercase() => Decoded::Letter {
            house,
            letter: value,
        },
        KEY_KIND if value <= LAST_KEY => Decoded::Key { house, key },
        DUMP_KIND if value == DUMP_DATA => Decoded::Dump { house },
        DOWN_KIND if value <= LAST_KEY => Decoded::Move {
            way: Way::Down,
            house,
            key,
        },
        UP_KIND if value <= LAST_KEY => Decoded::Move {
            way: Way::Up,
            house,
            key,
        },
        _ => Decoded::Bad,
    }
}

// What a line of any length asks.
pub fn decode(line: &[u8]) -> Decoded
    ensures { (result ≡ decoded_as (frame_of line.now)) × (inside (frame_of line.now) ≡ true) }
{
    let Some(head) = read_head(line) else {
        return Decoded::Bad;
    };
    if !is_house(head.house) {
        return Decoded::Bad;
    }
    if head.kind == LETTER_ROW_KIND {
        return read_row(head.house, head.value, &line[HEAD_DIGITS..]);
    }
    if line.len() != HEAD_DIGITS {
        return Decoded::Bad;
    }
    read_frame(head)
}
