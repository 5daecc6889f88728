// A set of numbers 0 to 63 as a word: number r is in it when bit r is 1.
#![tactic(auto)]

ghost use Rattle.std.specs.Prelude.{◌≡◌, ◌<◌, ◌^◌};
ghost use Rattle.sets.specs.Sets.{has, added, removed};

// The set of `at` alone.
fn single(at: u8) -> u64
    requires { at < 64 }
    ensures { result ≡ 2 ^ at }
{
    1u64 << at
}

// Whether `at` is in the set.
pub fn has(set: u64, at: u8) -> bool
    requires { at < 64 }
    ensures { result ≡ has set at }
{
    (set >> at) % 2 == 1
}

// The set and `at`.
pub fn with(set: u64, at: u8) -> u64
    requires { at < 64 }
    ensures { result ≡ added set at }
{
    set | single(at)
}

// The set without `at`.
pub fn without(set: u64, at: u8) -> u64
    requires { at < 64 }
    ensures { result ≡ removed set at }
{
    with(set, at) - single(at)
}
