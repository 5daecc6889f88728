// "Sequences add factor times measure": values, terms and ranges.
ghost use Rattle.std.specs.Prelude.{◌≡◌, ◌+◌, ◌*◌, ◌≤◌, nat_abs};
ghost use Rattle.values.specs.Values.{farthest_tone, within, ranged, plus, shifted, weight};
ghost use Rattle.values.specs.Rows.{meant};
ghost use Rattle.values.specs.Inner.{size, farthest_step, largest_measure, largest_product, largest_sum, begun, taken, Small};

use crate::uses::Use;
use crate::{Origin, Range, Term, Value};
use limits::{FARTHEST_TONE, LONGEST_PERIOD};

// What a value starts from, and the sum of its terms.
#[derive(Clone, Copy)]
pub struct Parts {
    pub start: Value,
    pub sum: Value,
}

const HIGHEST_TONE: i64 = FARTHEST_TONE as i64;

const LOWEST_TONE: i64 = -HIGHEST_TONE;

const HIGHEST_PERIOD: i64 = LONGEST_PERIOD as i64;

impl Range {
    fn contains(self, z: i64) -> bool
        ensures { result ≡ within self z }
    {
        match self {
            Range::Tone => (LOWEST_TONE..=HIGHEST_TONE).contains(&z),
            Range::Period => (0..=HIGHEST_PERIOD).contains(&z),
        }
    }

    // The value, unless it is out of range.
    #[tactic(auto, unfolding(crate::specs::Values::ranged))]
    pub(crate) fn limit(self, value: Value) -> Value
        ensures { result ≡ ranged self value }
    {
        value.filter(|z| self.contains(*z))
    }
}

// The factor of a term, with its sign.
fn weigh(term: Term) -> i64
    ensures { (result ≡ weight term) × (nat_abs result ≡ term.factor) }
{
    let factor = i64::from(term.factor);
    if term.minus { -factor } else { factor }
}

// The sum with one term more, whose declaration has this value.
#[tactic(auto, unfolding(crate::specs::Values::plus))]
fn add_term(sum: Value, term: Term, value: Value) -> Value
    requires { (size sum ≤ largest_sum) × (size value ≤ farthest_tone) }
    ensures { (result ≡ plus sum term value) × (size result ≤ size sum + term.factor * farthest_tone) }
{
    Some(sum? + value? * weigh(term))
}

// What a value starts from, and no sum yet; the value of a base is taken later.
pub fn begin(origin: Origin) -> Parts
    ensures { (result ≡ begun (meant origin)) × Small result largest_sum }
{
    let start = match origin {
        Origin::Interval(d) => i64::from(d.0),
        Origin::Pitch(p) => i64::from(p.0),
        Origin::Base(_) => 0,
    };
    Parts {
        start: Some(start),
        sum: Some(0),
    }
}

// With one use more, whose declaration has this value.
pub fn take(parts: Parts, used: Use, value: Value) -> Parts
    requires { Small parts largest_product × (size value ≤ farthest_tone) }
    ensures { (result ≡ taken parts used value) × (size result.start ≤ largest_measure) × (size result.sum ≤ size parts.sum + farthest_step used) }
{
    let Parts { start, sum } = parts;
    match used {
        Use::Base(_) => Parts { start: value, sum },
        Use::Term(term) => Parts {
            start,
            sum: add_term(sum, term, value),
        },
    }
}

// The start shifted by the sum.
#[tactic(auto, unfolding(crate::specs::Values::shifted))]
pub fn shift(parts: Parts) -> Value
    requires { Small parts 0 }
    ensures { result ≡ shifted parts.start parts.sum }
{
    Some(parts.start? + parts.sum?)
}
