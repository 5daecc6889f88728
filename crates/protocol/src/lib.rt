// The frame call: a frame, the tables, the desk and a lent buffer give an answer and the next desk.
#![tactic(auto)]

mod board;
mod chords;
mod presses;
mod triggers;

ghost use Rattle.std.specs.Prelude.{◌≡◌, true, ◌≤◌, length, Some};
ghost use Rattle.tuning.specs.State.{heard, valid_state};
ghost use Rattle.tables.specs.Layout.{tables_in};
ghost use Rattle.tables.specs.Lent.{tables_of};
ghost use Rattle.validity.specs.Valid.{valid_tables};
ghost use Rattle.frames.specs.Frames.{frame_of, decoded_as};
ghost use Rattle.answers.specs.Answer.{smallest_buffer};
ghost use Rattle.protocol.specs.Steps.{with_tuning, with_active, with_keys};
ghost use Rattle.protocol.specs.Answers.{start_desk, key_number, frame_outcome, active_right, valid_desk, answer_of, Gives};
ghost use Rattle.protocol.specs.Inner.{Ready, FrameInside, may_change, told_outcome, Tells};
ghost use Rattle.protocol.specs.OnBoard.{tables_on};

use answers::SMALLEST_BUFFER;
pub use board::Board;
use frames::Decoded;
use keys::HeldKeys;
use status::{BAD_FRAME, BUFFER_TOO_SMALL, DONE, KEY_SILENT, KEY_UNPLAYABLE, TABLE_DAMAGED};
use tables::{LOGIC_FORM, Tables, decode};
use triggers::Called;
use tuning::{State, Tone, is_playable};
use validity::valid_tables;

// What the desk holds from frame to frame, for both houses: the tuning, the active logic, by the number of its declaration, and the held keys.
#[derive(Clone, Copy, PartialEq, Eq)]
pub struct Desk {
    pub tuning: State,
    pub active: Option<u32>,
    pub keys: HeldKeys,
}

// The held keys as triggers see them: the positions that they are projected to, and the width.
#[derive(Clone, Copy)]
pub struct Chord {
    pub positions: u64,
    pub width: u8,
}

// The desk after a frame, the number, and how many bytes of the buffer are the answer.
// Kept as it is, with `Told` and `Stepped`: whatever its number, a frame has an answer and a desk after it (`Gives`), so no Result says it.
#[derive(Clone, Copy)]
pub struct Answered {
    pub desk: Desk,
    pub number: u8,
    pub length: usize,
}

// The number of an answer that changes nothing, and how many bytes of the buffer it is.
#[derive(Clone, Copy)]
pub struct Told {
    pub number: u8,
    pub length: usize,
}

// The desk after a call or a step, and its number.
#[derive(Clone, Copy)]
pub struct Stepped {
    pub desk: Desk,
    pub number: u8,
}

// What a frame finds, before that is called: the keys that are held then, and what is called, or the number where that is nothing.
#[derive(Clone, Copy)]
pub struct Search {
    pub keys: HeldKeys,
    pub found: Result<Called, u8>,
}

impl Desk {
    // The start's tuning, no logic active, and no key held.
    pub fn start() -> Desk
        ensures { result ≡ start_desk }
    {
        Desk {
            tuning: State::start(),
            active: None,
            keys: HeldKeys::none(),
        }
    }

    // Another tuning, all else as it was.
    fn with_tuning(self, tuning: State) -> Desk
        ensures { result ≡ with_tuning tuning self }
    {
        Desk { tuning, ..self }
    }

    // Another active logic, or none; all else as it was.
    fn with_active(self, active: Option<u32>) -> Desk
        ensures { result ≡ with_active active self }
    {
        Desk { active, ..self }
    }

    // Other held keys, all else as it was.
    fn with_keys(self, keys: HeldKeys) -> Desk
        ensures { result ≡ with_keys keys self }
    {
        Desk { keys, ..self }
    }
}

// Whether declaration i is a logic, and one of the rows that are used.
fn has_logic(tables: Tables, i: u32) -> bool
    ensures { result ≡ active_right (tables_of tables.entry) (Some i) }
{
    let n = decode::numbers_at(tables.rows(), i as usize);
    (i < tables.counts().rows) & (n.form == LOGIC_FORM)
}

// Whether the tables and the desk are right.
pub fn is_valid(numbers: &[i32], codes: &[u16], desk: Desk) -> bool
    ensures { result ≡ valid_desk (tables_in numbers.now codes.now) desk }
{
    if !valid_tables(numbers, codes) {
        return false;
    }
    if !desk.tuning.is_valid() {
        return false;
    }
    let tables = Tables { numbers, codes };
    match desk.active {
        None => true,
        Some(i) => has_logic(tables, i),
    }
}

// Nothing is answered but a number.
fn refuse(desk: Desk, number: u8) -> Answered
    ensures { (result.desk ≡ desk) × (result.number ≡ number) × (result.length ≡ 0) }
{
    Answered {
        desk,
        number,
        length: 0,
    }
}

// Whether a frame may change the desk: a letter, a row of them, or a key that goes down or up.
pub fn may_change(frame: Decoded) -> bool
    ensures { result ≡ may_change frame }
{
    matches!(
        frame,
        Decoded::Letter { .. } | Decoded::Move { .. } | Decoded::LetterRow { .. }
    )
}

impl Board<'_> {
    // The answer to a line whose frame may change the desk.
    // Not inlined: inlined into a call of `answer`, it has the board that is made there copied first.
    #[inline(never)]
    pub fn answer_changing(
        &self,
        desk: Desk,
        line: &[u8],
        frame: Decoded,
        buffer: &mut [u8],
    ) -> Answered
        requires desk_value { valid_desk (tables_on self.now) desk ≡ true }
        requires room { smallest_buffer ≤ length buffer.old }
        requires frame_value { (frame ≡ decoded_as (frame_of line.now)) × (may_change frame ≡ true) }
        ensures gives { Gives (frame_outcome (tables_on self.now) desk (frame_of line.now)) result buffer.old buffer.new }
        ensures stays { valid_desk (tables_on self.now) result.desk ≡ true }
    {
        let letters = frames::letters_of(frame, line);
        let pressed = self.press_all(desk, frame, letters);
        let number = pressed.number;
        let n = presses::press_count(frame);
        let length = presses::answer_presses(
            buffer,
            frame,
            &letters[..n],
            &pressed.numbers[..n],
            number,
            pressed.desk.tuning,
        );
        Answered {
            desk: pressed.desk,
            number,
            length,
        }
    }
}

fn key_number(tone: Tone) -> u8
    ensures { result ≡ key_number (heard tone) }
{
    let Tone::At(p) = tone else {
        return KEY_SILENT;
    };
    if !is_playable(p) {
        return KEY_UNPLAYABLE;
    }
    DONE
}

// The answer to a frame that changes nothing. One that may change the desk is told nothing.
pub fn tell(desk: Desk, frame: Decoded, buffer: &mut [u8]) -> Told
    requires { (valid_state desk.tuning ≡ true) × (smallest_buffer ≤ length buffer.old) × FrameInside frame }
    ensures { Tells (told_outcome desk frame) result buffer.old buffer.new }
{
    let s = desk.tuning;
    match frame {
        Decoded::Bad => Told {
            number: BAD_FRAME,
            length: answers::answer_bad(buffer),
        },
        Decoded::Letter { .. } | Decoded::Move { .. } | Decoded::LetterRow { .. } => Told {
            number: DONE,
            length: 0,
        },
        Decoded::Key { house, key } => {
            let tone = s.sound_of(key);
            let number = key_number(tone);
            let shown = tone.playable();
            let length = answers::answer_key(buffer, house, key, number, shown);
            Told { number, length }
        }
        Decoded::Dump { house } => Told {
            number: DONE,
            length: answers::answer_dump(buffer, house, s),
        },
    }
}

// What a frame does, once the buffer, the tables and the desk are known to be right.
fn take_frame(
    numbers: &[i32],
    codes: &[u16],
    desk: Desk,
    frame: &[u8],
    buffer: &mut [u8],
) -> Answered
    requires { Ready (tables_in numbers.now codes.now) desk buffer.old }
    ensures { Gives (frame_outcome (tables_in numbers.now codes.now) desk (frame_of frame.now)) result buffer.old buffer.new }
{
    let taken = frames::decode(frame);
    if may_change(taken) {
        let board = Board::new(numbers, codes);
        return board.answer_changing(desk, frame, taken, buffer);
    }
    let told = tell(desk, taken, buffer);
    Answered {
        desk,
        number: told.number,
        length: told.length,
    }
}

// The answer to a frame, whatever the tables, the desk, the frame and the buffer are.
pub fn answer(
    numbers: &[i32],
    codes: &[u16],
    desk: Desk,
    frame: &[u8],
    buffer: &mut [u8],
) -> Answered
    ensures { Gives (answer_of (tables_in numbers.now codes.now) desk frame.now (length buffer.old)) result buffer.old buffer.new }
{
    if buffer.len() < SMALLEST_BUFFER {
        return refuse(desk, BUFFER_TOO_SMALL);
    }
    if !is_valid(numbers, codes, desk) {
        return refuse(desk, TABLE_DAMAGED);
    }
    take_frame(numbers, codes, desk, frame, buffer)
}
