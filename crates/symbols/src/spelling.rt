// The spelling of names: told apart without regard to capitals.
ghost use Rattle.std.specs.Prelude.{◌≡◌, ◌&&◌, nat_eq, slice_index};
ghost use Rattle.std.proofs.Math.Seq.{slice};
ghost use Rattle.symbols.specs.Names.{name_at, letter_of};
ghost use Rattle.symbols.specs.Bytes.{in_name, small, same};

use crate::bytes;

// Whether two names go on with the same letter, `x` in the one and `y` in the other.
fn same_letter(x: u8, y: u8) -> bool
    ensures { result ≡ in_name x && nat_eq (small x) (small y) }
{
    bytes::in_name(x) && bytes::small(x) == bytes::small(y)
}

// Whether a name that has come to `n` goes on there; past the end none does.
fn goes_on(rest: &[u8], n: usize) -> bool
    ensures { result ≡ in_name (slice_index rest.now n) }
{
    rest.get(n).is_some_and(|&b| bytes::in_name(b))
}

// Whether the names that begin at `p` and at `q` are the same. They are read as far as they are the same, and no further.
pub fn same_name(text: &[u8], p: usize, q: usize) -> bool
    ensures { result ≡ same (name_at text.now p) (name_at text.now q) }
{
    let a = bytes::rest(text, p);
    let b = bytes::rest(text, q);
    let shorter = a.len().min(b.len());
    let common = a
        .iter()
        .zip(b)
        .position(|(&x, &y)| !same_letter(x, y))
        .unwrap_or(shorter);
    !goes_on(a, common) && !goes_on(b, common)
}

// The capital of the letter that the name from `start` to `end` is, `A` to `Z`.
pub fn letter_at(text: &[u8], start: usize, end: usize) -> Option<u8>
    ensures { result ≡ letter_of (slice start end text.now) }
{
    let &[b] = bytes::part(text, start, end) else {
        return None;
    };
    if !b.is_ascii_alphabetic() {
        return None;
    }
    Some(b.to_ascii_uppercase())
}
