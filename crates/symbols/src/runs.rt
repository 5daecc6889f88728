// How far bytes of a kind go.
ghost use Rattle.std.specs.Prelude.{◌≡◌, ℕ, Bool, drop};
ghost use Rattle.symbols.specs.Symbols.{run_end};

use crate::bytes;

// The first place from `at` on whose byte `is_in` does not take.
pub fn run_end<F: Fn(u8) -> bool>(text: &[u8], at: usize, is_in: F) -> usize
    requires callable { F.IsAlwaysCallable is_in }
    ensures { (p : ℕ → Bool) → ((b : ℕ) (r : Bool) → F.post is_in b r → r ≡ p b) → result ≡ run_end p at (drop at text.now) }
{
    let rest = bytes::rest(text, at);
    at + rest.iter().position(|&b| !is_in(b)).unwrap_or(rest.len())
}
