// A stream of frames, from the input to the output.
ghost use Rattle.std.specs.Prelude.{◌≡◌, true, [], ◌≤◌, length, OnOk, IsSome, IfSome, ◌↔◌};
ghost use Rattle.answers.specs.Answer.{smallest_buffer};
ghost use Rattle.tables.specs.Layout.{tables_in};
ghost use Rattle.protocol.specs.Answers.{valid_desk};
ghost use Rattle.protocol.specs.OnBoard.{tables_on};
ghost use Rattle.stream.specs.Line.{held_in};
ghost use Rattle.sitedesk.specs.Serving.{Ending, Came};

use crate::{Failure, read_some, write_output};
use hexadecimal::LINE_FEED;
use protocol::{Board, Desk, is_valid};
use std::io::{Read, Write};
use stream::{Line, fill_ready};

// The room for a chunk of the input, and for answers that are written together.
const CHUNK_ROOM: usize = 65_536;

// Where a stream stands: the desk, which is right on its board, and what is held of a line that has not ended.
#[derive(Drop)]
pub struct Server<'a> {
    board: Board<'a>,
    desk: Desk,
    line: Line,
    ghost right: { valid_desk (tables_on board) desk ≡ true },
}

impl<'a> Server<'a> {
    // Tables and desk are tested once, before the first frame.
    pub(crate) fn new(numbers: &'a [i32], codes: &'a [u16], desk: Desk) -> Option<Server<'a>>
        ensures right { IsSome result ↔ (valid_desk (tables_in numbers.now codes.now) desk ≡ true) }
        ensures made { IfSome result (λ s. (tables_on s.board ≡ tables_in numbers.now codes.now) × (s.desk ≡ desk) × (held_in s.line ≡ [])) }
    {
        if !is_valid(numbers, codes, desk) {
            return None;
        }
        Some(Server {
            board: Board::new(numbers, codes),
            desk,
            line: Line::new(),
        })
    }

    // Serves a chunk to its end: answers are written whenever the output has no more room, and at the end.
    fn serve_chunk(
        &mut self,
        output: &mut impl Write,
        chunk: &[u8],
        out: &mut [u8],
    ) -> Result<(), Failure>
        requires { smallest_buffer ≤ length out.old }
        ensures same_tables { tables_on self.new.board ≡ tables_on self.old.board }
        ensures came { OnOk result (Came (tables_on self.old.board) self.old.desk (held_in self.old.line) chunk.now self.new.desk (held_in self.new.line) []) }
    {
        let mut rest = chunk;
        while !rest.is_empty() {
            let filled = fill_ready(&self.board, self.desk, &mut self.line, rest, out);
            self.desk = filled.desk;
            write_output(output, &out[..filled.used])?;
            rest = &rest[filled.next..];
        }
        Ok(())
    }

    // "a last line without one counts, unless it is empty": at the end of the input a line that is held is given its line feed.
    fn closing(&self) -> &'static [u8]
        ensures { Ending (length (held_in self.now.line)) result.now }
    {
        if self.line.is_empty() {
            &[]
        } else {
            &[LINE_FEED]
        }
    }

    // Serves the input to its end. A proved loop has to end, and nothing says that the input does: it counts up to a number that no run comes to.
    pub(crate) fn serve_all(
        &mut self,
        input: &mut impl Read,
        output: &mut impl Write,
    ) -> Result<(), Failure> {
        let mut chunk = [0u8; CHUNK_ROOM];
        let mut out = [0u8; CHUNK_ROOM];
        for _ in 0..u64::MAX {
            let n = read_some(input, &mut chunk).map_err(|error| Failure {
                what: "standard input",
                error,
            })?;
            if n == 0 {
                return self.serve_chunk(output, self.closing(), &mut out);
            }
            self.serve_chunk(output, &chunk[..n], &mut out)?;
        }
        Ok(())
    }
}
