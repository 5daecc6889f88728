// Answers: the line that each kind of frame gets, written into a lent buffer.
#![tactic(auto)]

ghost use Rattle.std.specs.Prelude.{◌≡◌, true, ◌+◌, ◌*◌, ◌≤◌, length, set};
ghost use Rattle.tuning.specs.State.{held, heard, valid_state};
ghost use Rattle.frames.specs.Frames.{most_presses};
ghost use Rattle.hexadecimal.specs.Numbers.{four_of};
ghost use Rattle.hexadecimal.specs.Lines.{line_feed, line_of, begun_with};
ghost use Rattle.answers.specs.Answer.{bits_of, tones_bytes, head, state_bytes, change_bytes, letter_row_bytes, key_bytes, dump_bytes, bad_bytes, refusal_bytes, smallest_buffer};

use cents::KeyNumber;
use frames::{DUMP_DATA, DUMP_KIND, Head, KEY_KIND, LETTER_ROW_KIND};
use hexadecimal::{LINE_FEED, bits_of, put_bytes, put_four};
use status::{BAD_FRAME, DONE};
use tuning::{State, Tone};

// The shortest buffer that every answer fits into.
pub const SMALLEST_BUFFER: usize = 512;

// The bits of a muted tone or a silent key.
const MUTED_BITS: u32 = 0x8000_0000;

// The first byte of the answer to a bad frame.
const BAD_MARK: u8 = 0xFF;

// The first byte of the line that a refused text gets.
const REFUSAL_MARK: u8 = 0xEE;

fn sound_bits(tone: Tone) -> u32
    ensures { result ≡ bits_of (heard tone) }
{
    match tone {
        Tone::Muted => MUTED_BITS,
        Tone::At(p) => bits_of(p.0),
    }
}

// The line of an answer: a buffer that every answer fits into, and how many bytes of the answer are written there, two digits each.
struct Line<'a> {
    buf: &'a mut [u8],
    bytes: usize,
    ghost fits: { smallest_buffer ≤ length buf.now },
}

impl<'a> Line<'a> {
    ghost use Rattle.answers.specs.Inner.{Begins, Adds, Ends};

    fn new(buf: &'a mut [u8]) -> Line<'a>
        requires { smallest_buffer ≤ length buf.old }
        ensures same { result.buf.ghost_name ≡ buf.entry.ghost_name }
        ensures begins { Begins result buf.old }
    {
        Line { buf, bytes: 0 }
    }

    fn put(&mut self, bytes: &[u8])
        requires { self.old.bytes + length bytes.now ≤ 255 }
        ensures { Adds self.old self.new bytes.now }
    {
        put_bytes(self.buf, self.bytes, bytes);
        self.bytes += bytes.len();
    }

    #[tactic(auto, unfolding(hexadecimal::specs::Numbers::four_of))]
    fn put_four(&mut self, n: u32)
        requires { self.old.bytes ≤ 251 }
        ensures { Adds self.old self.new (four_of n) }
    {
        put_four(self.buf, self.bytes, n);
        self.bytes += 4;
    }

    // The frame, and the number.
    fn put_head(&mut self, frame: Head, number: u8)
        requires { self.old.bytes ≤ 251 }
        ensures { Adds self.old self.new (head frame.house frame.kind frame.value number) }
    {
        self.put(&[frame.house, frame.kind, frame.value, number]);
    }

    // Anchor, width and period.
    fn put_state(&mut self, s: State)
        requires { (self.old.bytes ≤ 249) × (valid_state s ≡ true) }
        ensures { Adds self.old self.new (state_bytes (held s)) }
    {
        self.put(&[s.anchor.0, s.width]);
        self.put_four(bits_of(s.period.0));
    }

    // Each tone.
    #[tactic(auto, using(crate::proofs::Lines::fits_places))]
    fn put_tones(&mut self, s: State)
        requires { (self.old.bytes ≤ 10) × (valid_state s ≡ true) }
        ensures { Adds self.old self.new (tones_bytes (held s).tones) }
    {
        let used = &s.tones[..s.width as usize];
        for tone in used {
            self.put_four(sound_bits(*tone));
        }
    }

    // Ends the line, and tells how long it is.
    fn end(self) -> usize
        requires { self.bytes ≤ 255 }
        ensures { Ends self.entry result self.exit.0.now }
    {
        let Line { buf, bytes } = self;
        buf[2 * bytes] = LINE_FEED;
        2 * bytes + 1
    }
}

// The answer to a letter, or to a key that goes down or up. Each of these tells how long the line is.
pub fn answer_change(buf: &mut [u8], frame: Head, number: u8, s: State) -> usize
    requires { (smallest_buffer ≤ length buf.old) × (valid_state s ≡ true) }
    ensures { (result ≡ length (line_of (change_bytes frame.house frame.kind frame.value number (held s)))) × (buf.new ≡ begun_with (line_of (change_bytes frame.house frame.kind frame.value number (held s))) buf.old) }
{
    let mut line = Line::new(buf);
    line.put_head(frame, number);
    line.put_state(s);
    line.end()
}

// The answer to a row of letters: the numbers are those of its presses.
pub fn answer_row(buf: &mut [u8], house: u8, letters: &[u8], numbers: &[u8], s: State) -> usize
    requires smallest_buffer_in_bounds { (smallest_buffer ≤ length buf.old) × (valid_state s ≡ true) }
    requires letters_len_bound { (length letters.now ≤ most_presses) × (length numbers.now ≤ most_presses) }
    ensures { (result ≡ length (line_of (letter_row_bytes house letters.now numbers.now (held s)))) × (buf.new ≡ begun_with (line_of (letter_row_bytes house letters.now numbers.now (held s))) buf.old) }
{
    let mut line = Line::new(buf);
    line.put(&[house, LETTER_ROW_KIND, letters.len() as u8]);
    line.put(letters);
    line.put(numbers);
    line.put_state(s);
    line.end()
}

pub fn answer_key(buf: &mut [u8], house: u8, key: KeyNumber, number: u8, tone: Tone) -> usize
    requires { smallest_buffer ≤ length buf.old }
    ensures { (result ≡ length (line_of (key_bytes house key.0 number (heard tone)))) × (buf.new ≡ begun_with (line_of (key_bytes house key.0 number (heard tone))) buf.old) }
{
    let frame = Head {
        house,
        kind: KEY_KIND,
        value: key.0,
    };
    let mut line = Line::new(buf);
    line.put_head(frame, number);
    line.put_four(sound_bits(tone));
    line.end()
}

pub fn answer_dump(buf: &mut [u8], house: u8, s: State) -> usize
    requires { (smallest_buffer ≤ length buf.old) × (valid_state s ≡ true) }
    ensures { (result ≡ length (line_of (dump_bytes house (held s)))) × (buf.new ≡ begun_with (line_of (dump_bytes house (held s))) buf.old) }
{
    let frame = Head {
        house,
        kind: DUMP_KIND,
        value: DUMP_DATA,
    };
    let mut line = Line::new(buf);
    line.put_head(frame, DONE);
    line.put_state(s);
    line.put_tones(s);
    line.end()
}

pub fn answer_bad(buf: &mut [u8]) -> usize
    requires { smallest_buffer ≤ length buf.old }
    ensures { (result ≡ length (line_of bad_bytes)) × (buf.new ≡ begun_with (line_of bad_bytes) buf.old) }
{
    let mut line = Line::new(buf);
    line.put(&[BAD_MARK, BAD_FRAME]);
    line.end()
}

// The line of a refused text.
pub fn answer_refusal(buf: &mut [u8], number: u8, place: u32) -> usize
    requires { smallest_buffer ≤ length buf.old }
    ensures { (result ≡ length (line_of (refusal_bytes number place))) × (buf.new ≡ begun_with (line_of (refusal_bytes number place)) buf.old) }
{
    let mut line = Line::new(buf);
    line.put(&[REFUSAL_MARK, number]);
    line.put_four(place);
    line.end()
}
