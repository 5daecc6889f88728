// The program: the text of `logic.mut`, then frames from standard input, one a line, and their answers on standard output.
// What is answered is written before more input is waited for.
#![tactic(auto)]

mod server;

ghost use Rattle.std.specs.Prelude.{◌≡◌};
ghost use Rattle.std.specs.Io.{ReadsAtMost};
ghost use Rattle.std.specs.Io.KnownBytes.{ReadConsumes};
ghost use Rattle.sitedesk.specs.Serving.{Within};

use answers::SMALLEST_BUFFER;
use opening::open_text;
use server::Server;
use std::fs::File;
use std::io::{ErrorKind, Read, Write};
use std::rt::Files;
use std::{fmt, io};
use tables::{CODES, NUMBERS};

// The longest text, and a byte more, which shows that a text is too long.
const TEXT_ROOM: usize = 32_769;

// What could not be read or written, and why.
#[derive(Drop)]
pub struct Failure {
    what: &'static str,
    error: io::Error,
}

impl fmt::Display for Failure {
    fn fmt<W: fmt::Write>(&self, f: &mut fmt::Formatter<W>) -> fmt::Result {
        write!(f, "{}: {}", self.what, self.error)
    }
}

// A read, again where a signal broke it off. A proved loop has to end, so it counts up to a number that no run comes to.
fn read_some<R: Read>(file: &mut R, buffer: &mut [u8]) -> io::Result<usize>
    ensures bound { ReadsAtMost result buffer.new }
    ensures bytes { ReadConsumes (R.remaining file.old) (R.remaining file.new) result buffer.new }
{
    for _ in 0..u64::MAX {
        match file.read(buffer) {
            Err(e) if e.kind() == ErrorKind::Interrupted => {}
            got => return got,
        }
    }
    Err(io::Error::from(ErrorKind::Interrupted))
}

fn write_output(output: &mut impl Write, bytes: &[u8]) -> Result<(), Failure> {
    output.write_all(bytes).map_err(|error| Failure {
        what: "standard output",
        error,
    })
}

// Reads the file to its end, or until the room is full. How many bytes there are.
fn load_from(file: &mut impl Read, text: &mut [u8]) -> io::Result<usize>
    ensures { Within result text.old }
{
    let mut n: usize = 0;
    // Kept as it is: each read brings as many bytes as it can.
    while n < text.len() {
        let more = read_some(file, &mut text[n..])?;
        if more == 0 {
            break;
        }
        n += more;
    }
    Ok(n)
}

// "reads the text from `logic.mut` (if absent, empty)"
fn load(rt: &impl Files, text: &mut [u8]) -> io::Result<usize>
    ensures { Within result text.old }
{
    match File::open(rt, "logic.mut") {
        Ok(mut file) => load_from(&mut file, text),
        Err(e) if e.kind() == ErrorKind::NotFound => Ok(0),
        Err(e) => Err(e),
    }
}

// Opens the text, and serves the input by its tables, or writes the line of its refusal.
fn serve_text(text: &[u8], input: &mut impl Read, output: &mut impl Write) -> Result<(), Failure> {
    let mut numbers = [0i32; NUMBERS];
    let mut codes = [0u16; CODES];
    let mut line = [0u8; SMALLEST_BUFFER];
    match open_text(text, &mut numbers, &mut codes, &mut line) {
        Ok(desk) => match Server::new(&numbers, &codes, desk) {
            Some(mut server) => server.serve_all(input, output),
            None => Ok(()),
        },
        Err(refused) => write_output(output, &line[..refused.length]),
    }
}

fn run(rt: &impl Files, input: &mut impl Read, output: &mut impl Write) -> Result<(), Failure> {
    let mut text = [0u8; TEXT_ROOM];
    let n = load(rt, &mut text).map_err(|error| Failure {
        what: "logic.mut",
        error,
    })?;
    serve_text(&text[..n], input, output)
}

fn main(rt: HostRuntime) {
    if let Err(failure) = run(&rt, &mut rt.stdin(), &mut rt.stdout()) {
        let _ = eprintln!(rt; "{failure}");
    }
}
