// Capital hexadecimal digits.
ghost use Rattle.std.specs.Prelude.{◌≡◌, ◌<◌, IfSome};
ghost use Rattle.hexadecimal.specs.Digits.{radix, hex_of, digit_of, byte_of};

pub const RADIX: u8 = 16;

#[tactic(auto, unfolding(crate::specs::Digits::hex_of))]
pub fn hex_digit(n: u8) -> u8
    requires { n < radix }
    ensures { result ≡ hex_of n }
{
    match n {
        0..=9 => b'0' + n,
        _ => b'A' + (n - 10),
    }
}

#[tactic(auto, unfolding(crate::specs::Digits::digit_of))]
fn digit_value(b: u8) -> Option<u8>
    ensures value { result ≡ digit_of b }
    ensures small { IfSome result (λ d. d < radix) }
{
    if b.is_ascii_digit() {
        return Some(b - b'0');
    }
    if matches!(b, b'A'..=b'F') {
        return Some(b - b'A' + 10);
    }
    None
}

// The byte that two digits write.
#[tactic(auto, unfolding(crate::specs::Digits::byte_of))]
pub fn byte_value(high: u8, low: u8) -> Option<u8>
    ensures { result ≡ byte_of high low }
{
    let h = digit_value(high)?;
    let l = digit_value(low)?;
    Some(RADIX * h + l)
}
