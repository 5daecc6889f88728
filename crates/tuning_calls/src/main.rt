// A test program: tuning calls of the cases on standard input, to be compared with those of the second program.
// A case is 552 bytes: opcode (1), n (2), value (8), count of positions (1), and 60 positions of kind (1) and value (8).
// Its answer is 308 bytes: number (1), anchor (1), width (1), period (4), 60 positions of sounding (1 or 0) and pitch (4), line feed.
// All numbers are high byte first, negative ones in two's complement.
// Opcodes: 0 the start state again; 1 to 4 anchor `n`, `@`, `@+n`, `@-n`; 5 to 10 width `n`, `@`, `@+n`, `@-n`, `@*n`, `@/n`;
// 11 period, 12 period `@` plus the value; 13 tones; 14 a tone system, its anchor as n, its period as value.
// Kinds of a position: 0 muted, 1 a tone at the value, 2 `@` plus the value.
#![tactic(auto)]

ghost use Rattle.std.specs.Prelude.{◌≡◌, true, ◌≤◌};
ghost use Rattle.tuning.specs.State.{valid_state};

use cents::{Interval, KeyNumber, Pitch};
use std::io::{ErrorKind, Read, Write};
use std::{array, io};
use tuning::{
    Amount, Operator, PeriodChange, Reply, Retuning, State, Tone, ToneChange, ToneChanges,
};

const CASE: usize = 552;

// Where the parts of a case begin; then how long each position is.
const VALUE: usize = 3;

const COUNT: usize = 11;

const POSITIONS: usize = 12;

const POSITION: usize = 9;

const ANSWER: usize = 308;

// Where the positions of an answer begin, and how long each is.
const TONES: usize = 7;

const TONE: usize = 5;

const RESET: u8 = 0;

const TONE_SYSTEM: u8 = 14;

const LINE_FEED: u8 = 10;

// A sum of a text has up to 41 bits. One that 32 bits can't hold is out of every range, and so is the farthest that they can,
// which stands for it.
const FARTHEST: i64 = 2_147_483_647;

// Eight bytes of two's complement as a number of at most `FARTHEST` either way.
fn value_at(case: &[u8; CASE], at: usize) -> i32
    requires { at ≤ 544 }
{
    let bytes = array::from_fn(|i| case[at + i]);
    i64::from_be_bytes(bytes).clamp(-FARTHEST, FARTHEST) as i32
}

fn change_at(case: &[u8; CASE], at: usize) -> ToneChange
    requires { at ≤ 543 }
{
    let value = value_at(case, at + 1);
    match case[at] {
        0 => ToneChange::Mute,
        1 => ToneChange::Set(Pitch(value)),
        _ => ToneChange::Move(Interval(value)),
    }
}

fn changes_of(case: &[u8; CASE]) -> ToneChanges {
    ToneChanges {
        count: case[COUNT],
        positions: array::from_fn(|i| change_at(case, POSITIONS + POSITION * i)),
    }
}

fn amount_asked(opcode: u8, n: u16) -> Amount {
    match opcode {
        1 | 5 => Amount::Absolute(n),
        2 | 6 => Amount::Kept,
        3 | 7 => Amount::Relative(Operator::Plus, n),
        4 | 8 => Amount::Relative(Operator::Minus, n),
        9 => Amount::Relative(Operator::Times, n),
        _ => Amount::Relative(Operator::Divide, n),
    }
}

fn retuning_of(case: &[u8; CASE]) -> Retuning {
    let opcode = case[0];
    let n = u16::from_be_bytes([case[1], case[2]]);
    let value = Interval(value_at(case, VALUE));
    match opcode {
        1..=4 => Retuning::Anchor(amount_asked(opcode, n)),
        5..=10 => Retuning::Width(amount_asked(opcode, n)),
        11 => Retuning::Period(PeriodChange::Fresh(value)),
        12 => Retuning::Period(PeriodChange::Onward(value)),
        _ => Retuning::Tones,
    }
}

fn tone_at(case: &[u8; CASE], at: usize) -> Tone
    requires { at ≤ 543 }
{
    match case[at] {
        0 => Tone::Muted,
        _ => Tone::At(Pitch(value_at(case, at + 1))),
    }
}

// The state of a tone system, valid or not; an anchor is one byte.
fn system_of(case: &[u8; CASE]) -> State {
    State {
        anchor: KeyNumber(case[2]),
        width: case[COUNT],
        tones: array::from_fn(|i| tone_at(case, POSITIONS + POSITION * i)),
        period: Interval(value_at(case, VALUE)),
    }
}

fn call(state: State, case: &[u8; CASE]) -> Reply
    requires { valid_state state ≡ true }
{
    match case[0] {
        RESET => Reply {
            state: State::start(),
            number: status::DONE,
        },
        TONE_SYSTEM => take_system(state, system_of(case)),
        _ => state.retune(retuning_of(case), changes_of(case)),
    }
}

fn take_system(state: State, system: State) -> Reply {
    if system.is_valid() {
        return state.take_system(system);
    }
    Reply {
        state,
        number: status::TABLE_DAMAGED,
    }
}

fn put_four(answer: &mut [u8; ANSWER], at: usize, v: i32)
    requires { at ≤ 304 }
{
    answer[at..at + 4].copy_from_slice(&v.to_be_bytes());
}

fn put_tone(answer: &mut [u8; ANSWER], at: usize, tone: Tone)
    requires { at ≤ 303 }
{
    if let Tone::At(p) = tone {
        answer[at] = 1;
        put_four(answer, at + 1, p.0);
    }
}

fn write_reply(output: &mut impl Write, reply: Reply) -> io::Result<()> {
    let state = reply.state;
    let mut answer = [0u8; ANSWER];
    answer[0] = reply.number;
    answer[1] = state.anchor.0;
    answer[2] = state.width;
    put_four(&mut answer, 3, state.period.0);
    for (i, tone) in state.tones.iter().enumerate() {
        put_tone(&mut answer, TONES + TONE * i, *tone);
    }
    answer[ANSWER - 1] = LINE_FEED;
    output.write_all(&answer)
}

// Takes the next case; false where the input ends before its last byte.
fn take_case(input: &mut impl Read, case: &mut [u8; CASE]) -> io::Result<bool> {
    match input.read_exact(case) {
        Ok(()) => Ok(true),
        Err(e) if e.kind() == ErrorKind::UnexpectedEof => Ok(false),
        Err(e) => Err(e),
    }
}

fn main(rt: HostRuntime) -> io::Result<()> {
    let mut input = rt.stdin();
    let mut output = rt.stdout();
    let mut state = State::start();
    for _ in 0..u64::MAX {
        let mut case = [0u8; CASE];
        if !take_case(&mut input, &mut case)? {
            break;
        }
        // A call asks for a valid state, and leaves one.
        if !state.is_valid() {
            break;
        }
        let reply = call(state, &case);
        state = reply.state;
        write_reply(&mut output, reply)?;
    }
    Ok(())
}
