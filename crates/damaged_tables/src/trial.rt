// One frame, on lent tables, a desk and a buffer.
use crate::lent::Lent;
use answers::SMALLEST_BUFFER;
use protocol::Desk;

// The number that a frame gets, whether the desk is as it was, and whether the buffer is, too.
#[derive(Clone, Copy)]
pub struct Outcome {
    pub number: u8,
    pub kept: bool,
    pub unchanged: bool,
}

// The pattern that the buffer holds repeats after so many bytes.
const CYCLE: usize = 251;

fn pattern(i: usize) -> u8 {
    (i % CYCLE) as u8
}

fn fill(buffer: &mut [u8]) {
    for (i, byte) in buffer.iter_mut().enumerate() {
        *byte = pattern(i);
    }
}

fn is_filled(buffer: &[u8]) -> bool {
    buffer
        .iter()
        .enumerate()
        .all(|(i, byte)| *byte == pattern(i))
}

// A frame with a buffer of `room` bytes. As much of each slice is lent as `sizes` says.
pub fn send_frame(t: Lent, desk: Desk, frame: &[u8], room: usize) -> Outcome {
    let mut buffer = [0u8; SMALLEST_BUFFER];
    fill(&mut buffer);
    let numbers = &t.numbers[..t.sizes[0].min(t.numbers.len())];
    let codes = &t.codes[..t.sizes[1].min(t.codes.len())];
    let room = room.min(SMALLEST_BUFFER);
    let answered = protocol::answer(numbers, codes, desk, frame, &mut buffer[..room]);
    let kept = desk == answered.desk;
    Outcome {
        number: answered.number,
        kept,
        unchanged: answered.length == 0 && kept && is_filled(&buffer),
    }
}
