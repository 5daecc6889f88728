// A test program: measures of the cases on standard input, to be compared with those of the second program.
// A case is nine bytes: 0 for L(n), 1 for a ratio, 2 for a root, 3 for a frequency, and two numbers of four bytes, high first.
// Its value is eight bytes, high first, two's complement.
#![tactic(auto)]

use cents::{logarithm, measure};
use std::io;
use std::io::{ErrorKind, Read, Write};

const CASE: usize = 9;

// The measure, or 0 where the numbers have none.
fn value_of(kind: u8, first: u32, second: u32) -> i64 {
    if first == 0 {
        return 0;
    }
    match kind {
        0 => logarithm::logarithm_of(first) as i64,
        1 | 2 if second == 0 => 0,
        1 => i64::from(measure::measure_ratio(first, second).0),
        2 if first > 65_535 => 0,
        2 => i64::from(measure::measure_root(first, second).0),
        _ => i64::from(measure::measure_frequency(first).0),
    }
}

// One case; false at the end of the input.
fn answer_case(input: &mut impl Read, output: &mut impl Write) -> io::Result<bool> {
    let mut case = [0u8; CASE];
    match input.read_exact(&mut case) {
        Ok(()) => {}
        Err(e) if e.kind() == ErrorKind::UnexpectedEof => return Ok(false),
        Err(e) => return Err(e),
    }
    let [kind, a, b, c, d, e, f, g, h] = case;
    let first = u32::from_be_bytes([a, b, c, d]);
    let second = u32::from_be_bytes([e, f, g, h]);
    output.write_all(&value_of(kind, first, second).to_be_bytes())?;
    Ok(true)
}

fn main(rt: HostRuntime) -> io::Result<()> {
    let mut input = rt.stdin();
    let mut output = rt.stdout();
    for _ in 0..u64::MAX {
        if !answer_case(&mut input, &mut output)? {
            break;
        }
    }
    Ok(())
}
