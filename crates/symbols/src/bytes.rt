// The kinds of bytes.
#![tactic(auto, unfolding(crate::specs::Bytes::is_blank, crate::specs::Bytes::is_digit, crate::specs::Bytes::is_hex_digit, crate::specs::Bytes::is_capital, crate::specs::Bytes::is_letter, crate::specs::Bytes::in_name, crate::specs::Bytes::small))]

ghost use Rattle.std.specs.Prelude.{◌≡◌, min, length, drop};
ghost use Rattle.std.proofs.Math.Seq.{slice};
ghost use Rattle.symbols.specs.Bytes.{is_blank, is_digit, is_hex_digit, is_letter, in_name, small};

pub fn is_blank(b: u8) -> bool
    ensures { result ≡ is_blank b }
{
    matches!(b, b' ' | b'\t' | 11 | b'\n' | 12 | b'\r')
}

pub fn is_digit(b: u8) -> bool
    ensures { result ≡ is_digit b }
{
    b.is_ascii_digit()
}

pub fn is_hex_digit(b: u8) -> bool
    ensures { result ≡ is_hex_digit b }
{
    b.is_ascii_hexdigit()
}

pub fn is_letter(b: u8) -> bool
    ensures { result ≡ is_letter b }
{
    b.is_ascii_alphabetic() || b == b'_' || b == b'\''
}

pub fn in_name(b: u8) -> bool
    ensures { result ≡ in_name b }
{
    is_letter(b) || is_digit(b)
}

pub fn small(b: u8) -> u8
    ensures { result ≡ small b }
{
    b.to_ascii_lowercase()
}

// The bytes from `start` to `end`, as far as the text has them.
pub fn part(text: &[u8], start: usize, end: usize) -> &[u8]
    ensures { result.now ≡ slice start end text.now }
{
    text.get(start..end.min(text.len())).unwrap_or_default()
}

// The bytes from `start` on, as far as the text has them.
pub fn rest(text: &[u8], start: usize) -> &[u8]
    ensures { result.now ≡ drop start text.now }
{
    text.get(start..).unwrap_or_default()
}
