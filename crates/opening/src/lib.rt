// What a program does with a text before its first frame.
#![tactic(auto)]

ghost use Rattle.std.specs.Prelude.{◌≡◌, true, length, IfOk};
ghost use Rattle.tables.specs.Layout.{tables_in};
ghost use Rattle.protocol.specs.Answers.{valid_desk};
ghost use Rattle.opening.specs.Opening.{opening, Opens};

use answers::SMALLEST_BUFFER;
use mutabor::read_text;
use protocol::Desk;
use status::BUFFER_TOO_SMALL;

// What a text gives that opens no desk: its number, the desk at its start all the same, and how many bytes of the buffer are its line.
#[derive(Clone, Copy)]
pub struct Refused {
    pub number: u8,
    pub desk: Desk,
    pub length: usize,
}

// Reads a text into the lent tables. Where it is accepted the desk for its frames is handed out, at its start, and tables and desk are right; where it is
// refused the buffer begins with its line, and the desk is handed out beside the number.
pub fn open_text(
    text: &[u8],
    numbers: &mut [i32],
    codes: &mut [u16],
    buffer: &mut [u8],
) -> Result<Desk, Refused>
    ensures opens { Opens (opening text.now (tables_in numbers.old codes.old) (length buffer.old)) result (tables_in numbers.new codes.new) buffer.old buffer.new }
    ensures right { IfOk result (λ desk. valid_desk (tables_in numbers.new codes.new) desk ≡ true) }
{
    let desk = Desk::start();
    if buffer.len() < SMALLEST_BUFFER {
        return Err(Refused {
            number: BUFFER_TOO_SMALL,
            desk,
            length: 0,
        });
    }
    let Err(refusal) = read_text(text, numbers, codes) else {
        return Ok(desk);
    };
    let number = refusal.reason.number();
    let length = answers::answer_refusal(buffer, number, refusal.place);
    Err(Refused {
        number,
        desk,
        length,
    })
}
