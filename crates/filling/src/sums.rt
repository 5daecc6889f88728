// "Sequences add factor times measure": the sums of terms, over items.
ghost use Rattle.std.specs.Prelude.{◌≡◌, [], ◌*◌, ◌≤◌, nat_abs, ◌+ℤ◌, ◌*ℤ◌};
ghost use Rattle.grammar.specs.Reading.{most_terms};
ghost use Rattle.names.specs.Parts.{part};
ghost use Rattle.program.specs.Program.{term_then, terms_of};
ghost use Rattle.program.specs.Allowed.{Each};
ghost use Rattle.tuning.specs.Capped.{capped};
ghost use Rattle.filling.specs.Tables.{sum_of};
ghost use Rattle.filling.specs.Inner.{greatest_factor, largest_term, value_in, FitValue, FitTerm, Summable};

use crate::readers::interval_at;
use cents::{Interval, Pitch};
use grammar::Item;
use tuning::FARTHEST_SUM;

const LOWEST: i64 = -HIGHEST;

const HIGHEST: i64 = FARTHEST_SUM as i64;

// A sum of terms, in thousandths of a cent: it may be wider than an interval of the tables.
#[derive(Clone, Copy)]
pub struct Sum(pub i64);

impl Sum {
    // The interval, as the tables have it.
    pub fn to_interval(self) -> Interval
        ensures { result.0 ≡ capped self.0 }
    {
        Interval(cap(self.0))
    }

    // A pitch shifted by the sum, as the tables have it.
    pub fn shift(self, from: Pitch) -> Pitch
        requires { nat_abs self.0 ≤ most_terms * largest_term }
        ensures { result.0 ≡ capped (from.0 +ℤ self.0) }
    {
        Pitch(cap(from.0 as i64 + self.0))
    }
}

// The interval of a declaration, so many times.
fn multiply(values: &[i64], k: usize, times: i64) -> i64
    requires fit_value { FitValue values.now k }
    requires times_bound { nat_abs times ≤ greatest_factor }
    ensures { result ≡ value_in values.now k *ℤ times }
{
    interval_at(values, k).0 as i64 * times
}

// What an item adds to a sum: a factor times a value, if it is a term.
fn weigh(item: Item, values: &[i64]) -> i64
    requires { Each (FitTerm values.now) (term_then (part item) []) }
    ensures { result ≡ sum_of (value_in values.now) (term_then (part item) []) }
{
    match item {
        Item::Add(factor, of) => multiply(values, of as usize, factor as i64),
        Item::Subtract(factor, of) => multiply(values, of as usize, 0 - factor as i64),
        _ => 0,
    }
}

// The sum of the terms among the items.
pub fn sum_terms(items: &[Item], values: &[i64]) -> Sum
    requires { Summable values.now (terms_of items.now) }
    ensures { result.0 ≡ sum_of (value_in values.now) (terms_of items.now) }
{
    let mut sum = 0;
    for item in items {
        sum += weigh(*item, values);
    }
    Sum(sum)
}

// A number of thousandths of a cent, as the tables have it.
fn cap(z: i64) -> i32
    ensures { result ≡ capped z }
{
    if z <= LOWEST {
        return LOWEST as i32;
    }
    if HIGHEST <= z {
        return HIGHEST as i32;
    }
    z as i32
}
