// Bytes of standard input cut into lines, each line a frame, and the answers to it.
#![tactic(auto)]

mod line;

ghost use Rattle.std.specs.Prelude.{◌≡◌, true, [], ◌≤◌, ◌<◌, length, take, drop, ◌==◌, IfSome};
ghost use Rattle.std.specs.List.{position_from};
ghost use Rattle.hexadecimal.specs.Lines.{line_feed};
ghost use Rattle.answers.specs.Answer.{smallest_buffer};
ghost use Rattle.tables.specs.Layout.{tables_in};
ghost use Rattle.protocol.specs.Answers.{valid_desk};
ghost use Rattle.protocol.specs.OnBoard.{tables_on};
ghost use Rattle.stream.specs.Feed.{feed, SameStream};
ghost use Rattle.stream.specs.Line.{held_in};
ghost use Rattle.stream.specs.Inner.{SameSkipped};

use answers::SMALLEST_BUFFER;
use hexadecimal::LINE_FEED;
pub use line::Line;
use protocol::{Board, Desk, is_valid, may_change, tell};

// How far a chunk is served: the desk, the next byte of the chunk, and how many bytes of the output are answers.
#[derive(Clone, Copy)]
pub struct Filled {
    pub desk: Desk,
    pub next: usize,
    pub used: usize,
}

// Where the first line ends.
fn find_end(bytes: &[u8]) -> Option<usize>
    ensures first { result ≡ position_from (λ b. b == line_feed) 0 bytes.now }
    ensures within { IfSome result (λ i. i < length bytes.now) }
{
    bytes.iter().position(|&b| b == LINE_FEED)
}

// Passes over the lines of a chunk, which get no answer where the tables or the desk are damaged.
fn skip_lines(line: &mut Line, chunk: &[u8])
    ensures { SameSkipped (held_in line.old) chunk.now (held_in line.new) [] }
{
    let mut rest = chunk;
    while let Some(end) = find_end(rest) {
        line.clear();
        rest = &rest[end + 1..];
    }
    line.hold(rest);
}

// Answers the lines of a chunk, as far as the output has room, from a desk that is right. It makes no test: a program that knows this calls it again and
// again.
// Not inlined: inlined into `fill`, it has the board that is made there copied first.
#[inline(never)]
pub fn fill_ready(
    board: &Board,
    desk: Desk,
    line: &mut Line,
    chunk: &[u8],
    out: &mut [u8],
) -> Filled
    requires { valid_desk (tables_on board.now) desk ≡ true }
    ensures within { (result.next ≤ length chunk.now) × (result.used ≤ length out.old) }
    ensures onward { smallest_buffer ≤ length out.old → 0 < length chunk.now → 0 < result.next }
    ensures kept { drop result.used out.new ≡ drop result.used out.old }
    ensures same { SameStream (tables_on board.now) (feed desk (held_in line.old) []) chunk.now (feed result.desk (held_in line.new) (take result.used out.new)) (drop result.next chunk.now) }
    ensures stays { valid_desk (tables_on board.now) result.desk ≡ true }
{
    let mut d = desk;
    let mut rest = chunk;
    let mut used: usize = 0;
    while let Some(end) = find_end(rest) {
        if out.len() - used < SMALLEST_BUFFER {
            let next = chunk.len() - rest.len();
            return Filled {
                desk: d,
                next,
                used,
            };
        }
        line.hold(&rest[..end]);
        let bytes = line.as_slice();
        let frame = frames::decode(bytes);
        if may_change(frame) {
            let r = board.answer_changing(d, bytes, frame, &mut out[used..]);
            d = r.desk;
            used += r.length;
        } else {
            let r = tell(d, frame, &mut out[used..]);
            used += r.length;
        }
        line.clear();
        rest = &rest[end + 1..];
    }
    line.hold(rest);
    Filled {
        desk: d,
        next: chunk.len(),
        used,
    }
}

// Answers the lines of a chunk, as far as the output has room. The rules speak of the stream as a whole: how far one call comes is open but for `onward`.
// What is left to do then is what was to be done. Tables and desk are tested once, and the logics indexed once: no frame changes that.
pub fn fill(
    numbers: &[i32],
    codes: &[u16],
    desk: Desk,
    line: &mut Line,
    chunk: &[u8],
    out: &mut [u8],
) -> Filled
    ensures within { (result.next ≤ length chunk.now) × (result.used ≤ length out.old) }
    ensures onward { smallest_buffer ≤ length out.old → 0 < length chunk.now → 0 < result.next }
    ensures kept { drop result.used out.new ≡ drop result.used out.old }
    ensures same { SameStream (tables_in numbers.now codes.now) (feed desk (held_in line.old) []) chunk.now (feed result.desk (held_in line.new) (take result.used out.new)) (drop result.next chunk.now) }
{
    if !is_valid(numbers, codes, desk) {
        skip_lines(line, chunk);
        return Filled {
            desk,
            next: chunk.len(),
            used: 0,
        };
    }
    let board = Board::new(numbers, codes);
    fill_ready(&board, desk, line, chunk, out)
}
