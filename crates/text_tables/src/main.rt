// A test program: texts on standard input, each after its length in four bytes, are read, and what is left in the tables is written to standard
// output, to be compared with what the second program reads: number (1), place (4), counts (4 each), then rows of form (1) and four numbers (4 each),
// tones of kind (1) and pitch (4), changes of kind (1) and sum (4), orders of trigger (2) and called declaration (2). High byte first, negative
// numbers in two's complement.
//
// `stdin` has five texts, and `stdout` what they leave, worked out by hand.
// HARMONY C = { 0, 4, *7 } RETUNING Up = @ + 7 [ ] LOGIC L C = Up [ ]
//   00 00000000, 3 rows and no more. C needs 0 and 4, bits 1 and 10, and names 7 as well, bit 80. Up adds 7. L waits for the harmony of row 0, which is
//   100 and 0, and its start is row 1, which is 2.
//   09 00000011 00000000 00000091 00000000, 04 00000002 00000007 00000000 00000000, 08 00000100 00000002 00000000 00000000
// RETUNING Up = @ + 1 [ ] LOGIC L KEY M = [ H -> Up Z -> L KEY U -> Up ] HARMONY H = { *0, 30, 31, *59 } Z = { *5 }
//   00 00000000, 4 rows and 3 orders. L waits for M, has no start, and its orders are 0 to 3. H needs 30 and 31, the lowest two of the upper thirty,
//   and names 0, the lowest of the lower, and 59, the highest of the upper; Z needs nothing. The orders wait for rows 2 and 3 and for U.
//   04 00000002 00000001 00000000 00000000, 08 0000004D 00000000 00000000 00000003,
//   09 00000000 00000003 00000001 20000003, 09 00000000 00000000 00000020 00000000, 0102 0000, 0103 0001, 0055 0000
// HARMONY C = { 0, *0 }
//   03 00000012: 0 is named twice, at byte 18; the tables are zero again.
// RETUNING Over ( a, b ) = [ << @ / b >> ] Down ( a ) = @ - 1 [ ] LOGIC L KEY L = Over ( 7, 0 ) [ KEY A -> Down ( 9 ) KEY B -> Over ( 0, 2 ) ]
//   00 00000000, 5 rows and 2 orders. The n of Over is a placeholder, so its row is 0A and zeros, and each of its calls has a row behind the three
//   declarations: L's start row 3, which is 4, with 0 for b, and B's row 4, with 2. Down has an n of its own, and A calls its row, which is 1.
//   0A and zeros, 04 00000003 00000001 00000000 00000000, 08 0000004C 00000004 00000000 00000002,
//   05 00000005 00000000 00000000 00000000, 05 00000005 00000002 00000000 00000000, 0041 0001, 0042 0004
// RETUNING a = x [ ]
//   18 0000000D: x is not named, at byte 13; the tables are zero again.
#![tactic(auto)]

ghost use Rattle.std.specs.Prelude.{◌≡◌, ◌+◌, ◌*◌, ◌/◌, ◌≤◌, min, length, IfOk, IfSome};

use mutabor::read_text;
use status::DONE;
use std::io::{ErrorKind, Read, Write};
use std::{io, mem};
use tables::{
    CHANGES_AT, CODES, Counts, KINDS_AT, NUMBERS, ORDER_WIDTH, ORDERS_AT, ROW_WIDTH, SOUNDING_AT,
    TONES_AT,
};

const LENGTH_BYTES: usize = 4;

// The room for a text.
const TEXT_ROOM: usize = 65_536;

// The room for an answer.
const ROOM: usize = 73_728;

// Puts bytes at the front of the room, of which what is behind them is left.
fn put(out: &mut &mut [u8], bytes: &[u8])
    requires { length bytes.now ≤ length out.old.now }
    ensures { length out.new.now + length bytes.now ≡ length out.old.now }
{
    let (front, rest) = mem::take(out).split_at_mut(bytes.len());
    front.copy_from_slice(bytes);
    *out = rest;
}

// Each of so many rows: its form as one byte, then its other numbers.
fn put_rows(out: &mut &mut [u8], rows: &[i32], count: u32)
    requires { 17 * min count (length rows.now / 5) ≤ length out.old.now }
    ensures { length out.new.now + 17 * min count (length rows.now / 5) ≡ length out.old.now }
{
    for row in rows.chunks_exact(ROW_WIDTH).take(count as usize) {
        put_row(out, row);
    }
}

fn put_row(out: &mut &mut [u8], row: &[i32])
    requires { (length row.now ≡ 5) × (17 ≤ length out.old.now) }
    ensures { length out.new.now + 17 ≡ length out.old.now }
{
    let Some((form, values)) = row.split_first() else {
        return;
    };
    put(out, &form.to_be_bytes()[3..]);
    for value in values {
        put(out, &value.to_be_bytes());
    }
}

// So many tones or changes: each a byte and a number.
fn put_pairs(out: &mut &mut [u8], kinds: &[u16], numbers: &[i32], count: u32)
    requires lengths { length kinds.now ≡ length numbers.now }
    requires room { 5 * min count (length kinds.now) ≤ length out.old.now }
    ensures { length out.new.now + 5 * min count (length kinds.now) ≡ length out.old.now }
{
    for (kind, number) in kinds.iter().zip(numbers).take(count as usize) {
        put(out, &kind.to_be_bytes()[1..]);
        put(out, &number.to_be_bytes());
    }
}

fn put_orders(out: &mut &mut [u8], orders: &[u16], count: u32)
    requires { 4 * min count (length orders.now / 2) ≤ length out.old.now }
    ensures { length out.new.now + 4 * min count (length orders.now / 2) ≡ length out.old.now }
{
    for order in orders.chunks_exact(ORDER_WIDTH).take(count as usize) {
        for code in order {
            put(out, &code.to_be_bytes());
        }
    }
}

// What the tables hold. Full tables take 72,368 bytes.
fn put_tables(out: &mut &mut [u8], numbers: &[i32; NUMBERS], codes: &[u16; CODES])
    requires { 72_368 ≤ length out.old.now }
    ensures { length out.old.now ≤ length out.new.now + 72_368 }
{
    let used = Counts::read(&codes[..SOUNDING_AT]);
    put(out, &used.rows.to_be_bytes());
    put(out, &used.tones.to_be_bytes());
    put(out, &used.changes.to_be_bytes());
    put(out, &used.orders.to_be_bytes());
    let sounding = &codes[SOUNDING_AT..KINDS_AT];
    let kinds = &codes[KINDS_AT..ORDERS_AT];
    put_rows(out, &numbers[..TONES_AT], used.rows);
    put_pairs(out, sounding, &numbers[TONES_AT..CHANGES_AT], used.tones);
    put_pairs(out, kinds, &numbers[CHANGES_AT..], used.changes);
    put_orders(out, &codes[ORDERS_AT..], used.orders);
}

// Fills the bytes from the input; false where the input ends before.
fn take_bytes(input: &mut impl Read, bytes: &mut [u8]) -> io::Result<bool> {
    match input.read_exact(bytes) {
        Ok(()) => Ok(true),
        Err(e) if e.kind() == ErrorKind::UnexpectedEof => Ok(false),
        Err(e) => Err(e),
    }
}

// Takes the next text from the input, as far as it is there whole and there is room for it, and tells how long it is.
fn take_text(input: &mut impl Read, text: &mut [u8]) -> io::Result<Option<usize>>
    ensures { IfOk result (λ next. IfSome next (λ n. n ≤ length text.old)) }
{
    let mut bytes = [0u8; LENGTH_BYTES];
    if !take_bytes(input, &mut bytes)? {
        return Ok(None);
    }
    let n = u32::from_be_bytes(bytes) as usize;
    if text.len() < n || !take_bytes(input, &mut text[..n])? {
        return Ok(None);
    }
    Ok(Some(n))
}

// Reads a text, and writes what is left in the tables.
fn answer_text(
    output: &mut impl Write,
    text: &[u8],
    room: &mut [u8; ROOM],
    numbers: &mut [i32; NUMBERS],
    codes: &mut [u16; CODES],
) -> io::Result<()> {
    let (number, place) = match read_text(text, numbers, codes) {
        Ok(()) => (DONE, 0),
        Err(refusal) => (refusal.reason.number(), refusal.place),
    };
    let mut out = room.as_mut_slice();
    put(&mut out, &[number]);
    put(&mut out, &place.to_be_bytes());
    put_tables(&mut out, numbers, codes);
    let end = ROOM.saturating_sub(out.len());
    output.write_all(&room[..end])
}

// The tables are never cleared here: that is the reader's part.
fn main(rt: HostRuntime) -> io::Result<()> {
    let mut input = rt.stdin();
    let mut output = rt.stdout();
    let mut text = [0u8; TEXT_ROOM];
    let mut room = [0u8; ROOM];
    let mut numbers = [0i32; NUMBERS];
    let mut codes = [0u16; CODES];
    for _ in 0..u64::MAX {
        let Some(n) = take_text(&mut input, &mut text)? else {
            break;
        };
        answer_text(&mut output, &text[..n], &mut room, &mut numbers, &mut codes)?;
    }
    Ok(())
}
