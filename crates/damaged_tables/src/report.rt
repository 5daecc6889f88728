// A line for a group of damages.
ghost use Rattle.std.specs.Prelude.{◌≤◌};
ghost use Rattle.tables.specs.Layout.{most_rows};

use crate::tally::Tally;
use std::io;

pub fn report(rt: &impl Print, name: &str, tally: Tally) -> io::Result<()> {
    let right = tally.right;
    let tried = tally.tried;
    println!(rt; "{name}: {right} of {tried}")
}

// `wrong` has one number below and one above the range of the row's first, its second, `from` and `to`.
pub fn report_row(rt: &impl Print, name: &str, row: usize, wrong: [i32; 8]) -> io::Result<()>
    requires { row ≤ most_rows }
{
    report(rt, name, Tally::new().try_row(row, wrong))
}
