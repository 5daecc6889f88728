// The presses of a frame: what each finds is called, one after the other, and the answer to all of them.
ghost use Rattle.std.specs.Prelude.{◌≡◌, true, ◌≤◌, ◌<◌, length};
ghost use Rattle.tuning.specs.State.{held, valid_state};
ghost use Rattle.frames.specs.Frames.{most_presses};
ghost use Rattle.hexadecimal.specs.Lines.{line_of, begun_with};
ghost use Rattle.answers.specs.Answer.{smallest_buffer};
ghost use Rattle.protocol.specs.Answers.{valid_desk};
ghost use Rattle.protocol.specs.Inner.{FrameInside, head_of, step_of, step_leaves, Finds, press_count, press_at, presses_of, steps_from, Presses, pressed_bytes};
ghost use Rattle.protocol.specs.OnBoard.{tables_on};

use crate::{Board, Desk, Search, Stepped};
use frames::{Decoded, Head, LETTER_KIND, MOST_PRESSES};
use status::DONE;
use tuning::State;

// The desk after the presses of a frame, the last one's number, and the numbers of all of them.
#[derive(Clone, Copy)]
pub struct PressedAll {
    pub desk: Desk,
    pub number: u8,
    pub numbers: [u8; MOST_PRESSES],
}

// The bytes of a press as a frame, a letter or a key that moves, which its answer repeats; of any other, zeros.
fn head_of(frame: Decoded) -> Head
    ensures { result ≡ head_of frame }
{
    if let Decoded::Letter { house, letter } = frame {
        return Head {
            house,
            kind: LETTER_KIND,
            value: letter,
        };
    }
    if let Decoded::Move { way, house, key } = frame {
        return Head {
            house,
            kind: frames::kind_of(way),
            value: key.0,
        };
    }
    Head {
        house: 0,
        kind: 0,
        value: 0,
    }
}

// How many presses a frame has.
pub fn press_count(frame: Decoded) -> usize
    ensures { result ≡ press_count frame }
{
    if let Decoded::LetterRow { count, .. } = frame {
        return count as usize;
    }
    1
}

// A press of a frame: of a row its letter at place i, of any other the frame itself.
fn press_at(frame: Decoded, letters: [u8; MOST_PRESSES], i: usize) -> Decoded
    requires { (i < most_presses) × FrameInside frame }
    ensures { (result ≡ press_at frame letters i) × FrameInside result }
{
    let Decoded::LetterRow { house, .. } = frame else {
        return frame;
    };
    let letter = letters[i];
    Decoded::Letter { house, letter }
}

// The answer to a frame that may change the desk: a row's with each of its numbers, any other's with its own, and the state after it. Its length.
pub fn answer_presses(
    buffer: &mut [u8],
    frame: Decoded,
    letters: &[u8],
    numbers: &[u8],
    number: u8,
    s: State,
) -> usize
    requires smallest_buffer_in_bounds { (smallest_buffer ≤ length buffer.old) × (valid_state s ≡ true) × FrameInside frame }
    requires letters_len { (length letters.now ≡ press_count frame) × (length numbers.now ≡ press_count frame) }
    ensures { (result ≡ length (line_of (pressed_bytes frame letters.now numbers.now number (held s)))) × (buffer.new ≡ begun_with (line_of (pressed_bytes frame letters.now numbers.now number (held s))) buffer.old) }
{
    if let Decoded::LetterRow { house, .. } = frame {
        return answers::answer_row(buffer, house, letters, numbers, s);
    }
    answers::answer_change(buffer, head_of(frame), number, s)
}

impl Board<'_> {
    // What a press finds: a letter, or a key that moves. Any other frame finds nothing.
    fn search_frame(&self, desk: Desk, frame: Decoded) -> Search
        requires desk_value { valid_desk (tables_on self.now) desk ≡ true }
        requires frame_inside { FrameInside frame }
        ensures { Finds (tables_on self.now) (head_of frame).house desk (step_of (tables_on self.now) desk frame) result }
    {
        match frame {
            Decoded::Letter { letter, .. } => self.search_letter(desk, letter),
            Decoded::Move { way, house, key } => self.search_key(desk, way, house, key),
            _ => Search {
                keys: desk.keys,
                found: Err(DONE),
            },
        }
    }

    // A press: what it finds is called.
    fn take_press(&self, desk: Desk, press: Decoded) -> Stepped
        requires desk_value { valid_desk (tables_on self.now) desk ≡ true }
        requires frame_inside { FrameInside press }
        ensures leaves { result ≡ step_leaves (step_of (tables_on self.now) desk press) }
        ensures stays { valid_desk (tables_on self.now) result.desk ≡ true }
    {
        let Search { keys, found } = self.search_frame(desk, press);
        let head = head_of(press);
        self.strike(desk.with_keys(keys), head.house, found)
    }

    // The presses of a frame one after the other, each from the desk that the one before it left. (One way for a letter, a key and a row: with two the
    // compiler copies the desk at every call.)
    pub fn press_all(&self, desk: Desk, frame: Decoded, letters: [u8; MOST_PRESSES]) -> PressedAll
        requires desk_value { valid_desk (tables_on self.now) desk ≡ true }
        requires frame_inside { FrameInside frame }
        ensures pressed { Presses (steps_from (tables_on self.now) desk (presses_of frame letters)) (press_count frame) result }
        ensures stays { valid_desk (tables_on self.now) result.desk ≡ true }
    {
        let mut d = desk;
        let mut last = DONE;
        let mut all = [0u8; MOST_PRESSES];
        for i in 0..press_count(frame) {
            let press = press_at(frame, letters, i);
            let step = self.take_press(d, press);
            d = step.desk;
            last = step.number;
            all[i] = last;
        }
        PressedAll {
            desk: d,
            number: last,
            numbers: all,
        }
    }
}
