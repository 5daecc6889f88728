// Bytes as capital hexadecimal digits, written into a lent buffer.
#![tactic(auto)]

pub mod digits;

ghost use Rattle.std.specs.Prelude.{◌≡◌, [], ◌∷◌, ◌+◌, ◌*◌, ◌≤◌, ◌<◌, length, set};
ghost use Rattle.hexadecimal.specs.Numbers.{twos, four_of};
ghost use Rattle.hexadecimal.specs.Lines.{written};

use digits::{RADIX, hex_digit};

pub const LINE_FEED: u8 = b'\n';

// Stores a byte, where the buffer has the place.
#[tactic(auto, using(std::proofs::lemmas::List::set_past))]
pub fn put(buf: &mut [u8], at: usize, b: u8)
    ensures { buf.new ≡ set buf.old at b }
{
    if at < buf.len() {
        buf[at] = b;
    }
}

// Writes byte `at` of an answer, as two digits.
#[tactic(auto, using(crate::proofs::Written::written_one))]
pub fn put_byte(buf: &mut [u8], at: usize, b: u8)
    requires { 2 * at + 1 < length buf.old }
    ensures { buf.new ≡ written buf.old at (b ∷ []) }
{
    buf[2 * at] = hex_digit(b / RADIX);
    buf[2 * at + 1] = hex_digit(b % RADIX);
}

// Writes bytes of an answer, from byte `at` on.
pub fn put_bytes(buf: &mut [u8], at: usize, bytes: &[u8])
    requires { 2 * (at + length bytes.now) ≤ length buf.old }
    ensures { buf.new ≡ written buf.old at bytes.now }
{
    for (i, b) in bytes.iter().enumerate() {
        put_byte(buf, at + i, *b);
    }
}

// Writes a number as four bytes of an answer, from byte `at` on.
pub fn put_four(buf: &mut [u8], at: usize, n: u32)
    requires { 2 * at + 7 < length buf.old }
    ensures { buf.new ≡ written buf.old at (four_of n) }
{
    // Kept as it is: by `put_bytes` an answer to a dump takes 7 in 100 more instructions.
    let [a, b, c, d] = n.to_be_bytes();
    put_byte(buf, at, a);
    put_byte(buf, at + 1, b);
    put_byte(buf, at + 2, c);
    put_byte(buf, at + 3, d);
}

// The two's complement of a signed number.
#[tactic(auto, using(crate::proofs::Complement::twos_is))]
pub fn bits_of(z: i32) -> u32
    ensures { result ≡ twos z }
{
    z.cast_unsigned()
}
