// The value of a declaration: that of an interval, of a tone system as its period, or of a tone.
ghost use Rattle.std.specs.Prelude.{◌≡◌};
ghost use Rattle.filling.specs.Inner.{value_in, FitValue};

use cents::{Interval, Pitch};

pub fn interval_at(values: &[i64], k: usize) -> Interval
    requires { FitValue values.now k }
    ensures { result.0 ≡ value_in values.now k }
{
    Interval(values[k] as i32)
}

pub fn pitch_at(values: &[i64], k: usize) -> Pitch
    requires { FitValue values.now k }
    ensures { result.0 ≡ value_in values.now k }
{
    Pitch(values[k] as i32)
}
