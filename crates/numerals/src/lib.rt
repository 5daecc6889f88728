// The values of numbers.
#![tactic(auto)]

ghost use Rattle.std.specs.Prelude.{◌≡◌, ◌≤◌, ◌<◌, min};
ghost use Rattle.std.proofs.Math.Seq.{slice};
ghost use Rattle.numerals.specs.Numbers.{digit_of, numeral, before_point, places, ranged, point_of, decimal_of, whole_of};

use limits::{LEAST_PART, MOST_PART, MOST_PLACES};
use symbols::bytes;

// A number that is greater than any allowed is kept at this while it is read.
const CAP: u64 = 4294967296;

// In ten-thousandths: 1, 0.0001 and 429496.7295.
const ONE: u64 = 10000;

const LEAST: u64 = LEAST_PART as u64;

const GREATEST: u64 = MOST_PART as u64;

// The number from `start` to `end` in ten-thousandths: a ratio part, a radicand or a frequency.
pub fn read_decimal(text: &[u8], start: usize, end: usize) -> Option<u32>
    ensures { result ≡ decimal_of (slice start end text.now) }
{
    match bytes::part(text, start, end) {
        [] => None,
        [b'#', digits @ ..] => within_range(LEAST, GREATEST, value_of(16, digits) * ONE),
        number => decimal_value(number),
    }
}

// The whole number from `start` to `end`, where it is `low` to `high`.
pub fn read_whole(text: &[u8], start: usize, end: usize, low: u32, high: u32) -> Option<u32>
    ensures { result ≡ whole_of low high (slice start end text.now) }
{
    match bytes::part(text, start, end) {
        [] => None,
        [b'#', digits @ ..] => within_range(low as u64, high as u64, value_of(16, digits)),
        number if number.iter().any(|&b| b == b'.') => None,
        number => within_range(low as u64, high as u64, value_of(10, number)),
    }
}

// The decimal number in ten-thousandths.
fn decimal_value(number: &[u8]) -> Option<u32>
    ensures { result ≡ point_of (before_point number.now) (places number.now) }
{
    let Some(point) = number.iter().position(|&b| b == b'.') else {
        return within_range(LEAST, GREATEST, value_of(10, number) * ONE);
    };
    let places = &number[point + 1..];
    if MOST_PLACES < places.len() {
        return None;
    }
    let part = value_of(10, places) * 10u64.pow((MOST_PLACES - places.len()) as u32);
    within_range(LEAST, GREATEST, value_of(10, &number[..point]) * ONE + part)
}

// The number that the digits spell, or the cap where it is more.
fn value_of(base: u64, digits: &[u8]) -> u64
    requires { (1 ≤ base) × (base ≤ 16) }
    ensures { result ≡ min (numeral base digits.now) 4294967296 }
{
    let mut value: u64 = 0;
    for &b in digits {
        value = (value * base + digit_value(b)).min(CAP);
    }
    value
}

fn digit_value(b: u8) -> u64
    ensures { (result ≡ digit_of b) × (result < 16) }
{
    char::from(b).to_digit(16).unwrap_or(0) as u64
}

fn within_range(low: u64, high: u64, x: u64) -> Option<u32>
    requires { high < 4294967296 }
    ensures { result ≡ ranged low high x }
{
    if !(low..=high).contains(&x) {
        return None;
    }
    Some(x as u32)
}
