// The tables of a program, written row by row from the items of its text.
#![tactic(auto)]

mod harmony;
mod lists;
mod readers;
mod rows;
mod sums;
mod triggers;

ghost use Rattle.std.specs.Prelude.{◌≡◌};
ghost use Rattle.tables.specs.Layout.{tables_in};
ghost use Rattle.program.specs.Program.{program_of};
ghost use Rattle.valuation.specs.Inner.{Ready};
ghost use Rattle.filling.specs.Tables.{tables_of};
ghost use Rattle.filling.specs.Inner.{Valued, blank};

use grammar::Item;
use rows::write_declaration;
use tables::{Counts, SOUNDING_AT, encode};
use valuation::body_at;

// Writes the tables of all declarations into tables that are zero.
pub fn write_tables(
    items: &[Item],
    starts: &[u32],
    values: &[i64],
    numbers: &mut [i32],
    codes: &mut [u16],
)
    requires ready { Ready items.now starts.now }
    requires valued { Valued (program_of items.now) values.now }
    requires codes_value { tables_in numbers.old codes.old ≡ blank }
    ensures { tables_in numbers.new codes.new ≡ tables_of (program_of items.now) }
{
    let mut used = Counts {
        rows: 0,
        tones: 0,
        changes: 0,
        orders: 0,
    };
    for d in 0..starts.len() {
        let body = body_at(items, starts, d);
        used = write_declaration(body, values, used, numbers, codes);
    }
    encode::store_counts(&mut codes[0..SOUNDING_AT], used);
}
