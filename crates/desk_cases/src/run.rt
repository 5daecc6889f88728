// A text read into fresh tables, and frames answered one after the other.
use answers::{SMALLEST_BUFFER, answer_refusal};
use mutabor::read_text;
use protocol::{Desk, answer};
use status::Refusal;
use std::io;
use tables::{CODES, NUMBERS};

const BLANK: u8 = b' ';

// Writes the first n bytes of a buffer, or all of it.
fn send(rt: &impl Print, buffer: &[u8], n: usize) -> io::Result<()> {
    rt.write_all(&buffer[..n.min(buffer.len())])
}

// Answers a frame, and hands back the desk after it.
fn answer_frame(
    rt: &impl Print,
    numbers: &[i32],
    codes: &[u16],
    desk: Desk,
    frame: &[u8],
) -> io::Result<Desk> {
    let mut buffer = [0u8; SMALLEST_BUFFER];
    let answered = answer(numbers, codes, desk, frame, &mut buffer);
    send(rt, &buffer, answered.length)?;
    Ok(answered.desk)
}

fn answer_frames(rt: &impl Print, frames: &[u8], numbers: &[i32], codes: &[u16]) -> io::Result<()> {
    let mut desk = Desk::start();
    for frame in frames.split(|b| *b == BLANK) {
        desk = answer_frame(rt, numbers, codes, desk, frame)?;
    }
    Ok(())
}

fn write_refusal(rt: &impl Print, refusal: Refusal) -> io::Result<()> {
    let mut buffer = [0u8; SMALLEST_BUFFER];
    let length = answer_refusal(&mut buffer, refusal.reason.number(), refusal.place);
    send(rt, &buffer, length)
}

// Writes a case's name, then what its text and its frames, which blanks part, are answered, from the start on.
pub fn run_case(rt: &impl Print, name: &[u8], text: &[u8], frames: &[u8]) -> io::Result<()> {
    rt.write_all(name)?;
    rt.write_all(b"\n")?;
    let mut numbers = [0i32; NUMBERS];
    let mut codes = [0u16; CODES];
    match read_text(text, &mut numbers, &mut codes) {
        Ok(()) => answer_frames(rt, frames, &numbers, &codes),
        Err(refusal) => write_refusal(rt, refusal),
    }
}
