// The measures of `p : q`, `A ROOT B` and a frequency, each number in ten-thousandths.
ghost use Rattle.std.specs.Prelude.{◌≡◌, ◌*ℤ◌, ◌^◌, ◌<◌, ◌≤◌, nat_abs, pos};
ghost use Rattle.cents.specs.Measure.{measure, ratio, root, frequency};

use crate::logarithm::logarithm_of;
use crate::{Interval, Pitch};

// An octave in thousandths of a cent.
const OCTAVE: i64 = 1_200_000;

// 1, and 440 hertz, in ten-thousandths.
const ONE: u32 = 10000;

const HERTZ_440: u32 = 4400000;

// The pitch of 440 hertz.
const PITCH_440: Pitch = Pitch(6900000);

// An octave times a difference of logarithms.
fn scale(difference: i64) -> i64
    requires { nat_abs difference < 2 ^ 35 }
    ensures { result ≡ pos 1200000 *ℤ difference }
{
    OCTAVE * difference
}

// The measure of the a-th root of p / q, to the nearest, a half upward.
fn measure_of(a: u32, p: u32, q: u32) -> Interval
    requires { (0 < a) × (a < 65536) × (0 < p) × (0 < q) }
    ensures { (result.0 ≡ measure a p q) × (nat_abs result.0 ≤ 38400000) }
{
    let x = scale(logarithm_of(p) as i64 - logarithm_of(q) as i64);
    let d = a as i64 * 0x4000_0000;
    Interval((2 * x + d).div_euclid(2 * d) as i32)
}

// The interval `p : q`.
pub fn measure_ratio(p: u32, q: u32) -> Interval
    requires { (0 < p) × (0 < q) }
    ensures { (result.0 ≡ ratio p q) × (nat_abs result.0 ≤ 38400000) }
{
    measure_of(1, p, q)
}

// The interval `A ROOT B`.
pub fn measure_root(a: u32, b: u32) -> Interval
    requires { (0 < a) × (a < 65536) × (0 < b) }
    ensures { (result.0 ≡ root a b) × (nat_abs result.0 ≤ 38400000) }
{
    measure_of(a, b, ONE)
}

// The pitch of a frequency.
pub fn measure_frequency(f: u32) -> Pitch
    requires { 0 < f }
    ensures { (result.0 ≡ frequency f) × (nat_abs result.0 ≤ 45300000) }
{
    PITCH_440.shift(measure_of(1, f, HERTZ_440))
}
