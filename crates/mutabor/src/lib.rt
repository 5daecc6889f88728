// The reader: a text becomes tables, or a number and a place, with every lent table zero.
#![tactic(auto)]

ghost use Rattle.std.specs.Prelude.{◌≡◌, ◌≤◌, ◌<◌, length, take};
ghost use Rattle.status.specs.Status.{done};
ghost use Rattle.grammar.specs.Items.{most_items};
ghost use Rattle.grammar.specs.Reading.{read_items};
ghost use Rattle.names.specs.Names.{meanings};
ghost use Rattle.tables.specs.Layout.{tables_in};
ghost use Rattle.program.specs.Program.{program_of};
ghost use Rattle.program.specs.Meaning.{valued};
ghost use Rattle.placeholders.specs.Filling.{settled};
ghost use Rattle.program.specs.Text.{place_of, by_value, by_settling, by_meaning, read_text};
ghost use Rattle.valuation.specs.Inner.{Ready};
ghost use Rattle.filling.specs.Inner.{blank};
ghost use Rattle.mutabor.specs.Reading.{by_verdict, reading, Leaves};
ghost use Rattle.mutabor.specs.Inner.{Cleared, Resolved};

use filling::write_tables;
use grammar::reading::read_items;
use grammar::{Item, Kind};
use limits::MOST_DECLARATIONS;
use names::resolve_names;
use placeholders::settle;
use status::{Reason, Refusal};
use tables::{ROWS, has_full_size};
use valuation::value_declarations;
use values::Fault;

// Room for an item at every symbol of the longest text, its end too, and two at each call.
const MOST_ITEMS: usize = 33_857;

fn clear_tables(numbers: &mut [i32], codes: &mut [u16])
    ensures { Cleared (tables_in numbers.old codes.old) (tables_in numbers.new codes.new) }
{
    numbers.fill(0);
    codes.fill(0);
}

// The place of the name of declaration `d`.
fn place_of(items: &[Item], starts: &[u32], d: usize) -> u32
    requires ready { Ready items.now starts.now }
    requires d_in_bounds { d < length starts.now }
    ensures { result ≡ place_of (program_of items.now) d }
{
    let Item::Declared(_, place) = items[starts[d] as usize] else {
        unreachable!()
    };
    place
}

// Values the declarations and writes their tables, or refuses the text at the name of one (7, 8).
fn take_declarations(
    items: &[Item],
    starts: &[u32],
    numbers: &mut [i32],
    codes: &mut [u16],
) -> Result<(), Refusal>
    requires ready { Ready items.now starts.now }
    requires codes_value { tables_in numbers.old codes.old ≡ blank }
    ensures { Leaves (by_verdict blank (by_value (program_of items.now) (valued (program_of items.now)))) result (tables_in numbers.new codes.new) }
{
    let mut values = [0i64; ROWS];
    match value_declarations(items, starts, &mut values) {
        Err(Fault::Circular(d)) => Err(Refusal {
            reason: Reason::DependsOnItself,
            place: place_of(items, starts, d),
        }),
        Err(Fault::OutOfRange(d)) => Err(Refusal {
            reason: Reason::ValueOutOfRange,
            place: place_of(items, starts, d),
        }),
        Ok(()) => {
            write_tables(items, starts, &values, numbers, codes);
            Ok(())
        }
    }
}

// Settles the placeholders (24), and goes on with the declarations.
fn take_names(
    text: &[u8],
    items: &mut [Item],
    count: usize,
    starts: &mut [u32],
    n: usize,
    numbers: &mut [i32],
    codes: &mut [u16],
) -> Result<(), Refusal>
    requires counted { count ≤ length items.old }
    requires size { length items.old ≡ most_items }
    requires resolved { Resolved text.now (take count items.old) starts.old n }
    requires codes_value { tables_in numbers.old codes.old ≡ blank }
    ensures { Leaves (by_verdict blank (by_settling (settled text.now (take count items.old)))) result (tables_in numbers.new codes.new) }
{
    let settled = settle(text, items, count, starts, n)?;
    let items = &items[..settled.items];
    take_declarations(items, &starts[..settled.declarations], numbers, codes)
}

// Resolves the names (5, 6), and goes on with the placeholders.
fn take_items(
    text: &[u8],
    items: &mut [Item],
    count: usize,
    numbers: &mut [i32],
    codes: &mut [u16],
) -> Result<(), Refusal>
    requires counted { count ≤ length items.old }
    requires size { length items.old ≡ most_items }
    requires text_value { ((read_items text.now).items ≡ take count items.old) × ((read_items text.now).number ≡ done) }
    requires codes_value { tables_in numbers.old codes.old ≡ blank }
    ensures { Leaves (by_verdict blank (by_meaning text.now (meanings text.now (take count items.old)))) result (tables_in numbers.new codes.new) }
{
    let mut declared = [0u32; MOST_DECLARATIONS];
    let mut starts = [0u32; ROWS];
    let n = match resolve_names(text, &mut items[..count], &mut declared, &mut starts) {
        Ok(n) => n,
        Err(unresolved) => return Err(unresolved.refusal),
    };
    take_names(text, items, count, &mut starts, n, numbers, codes)
}

// Reads the symbols (2, 3, 4, 9), and goes on with the items.
fn take_symbols(text: &[u8], numbers: &mut [i32], codes: &mut [u16]) -> Result<(), Refusal>
    requires { tables_in numbers.old codes.old ≡ blank }
    ensures { Leaves (by_verdict blank (read_text text.now)) result (tables_in numbers.new codes.new) }
{
    // These items are zeros, as which the array is cleared at once.
    let mut items = [Item::Declared(Kind::Interval, 0); MOST_ITEMS];
    let count = match read_items(text, &mut items) {
        Ok(count) => count,
        Err(unread) => return Err(unread.refusal),
    };
    take_items(text, &mut items, count, numbers, codes)
}

// Reads a text into the tables. Where it is refused, or a table is not of full size, every table is zero.
pub fn read_text(text: &[u8], numbers: &mut [i32], codes: &mut [u16]) -> Result<(), Refusal>
    ensures { Leaves (reading text.now (tables_in numbers.old codes.old)) result (tables_in numbers.new codes.new) }
{
    clear_tables(numbers, codes);
    if !has_full_size(numbers, codes) {
        let reason = Reason::TextTooLong;
        return Err(Refusal { reason, place: 0 });
    }
    take_symbols(text, numbers, codes)
}
