// Retunings with placeholders: what is wrong with the names and numbers in brackets (24), and calls with their numbers written in.
#![tactic(auto)]

mod brackets;
mod faults;
pub mod writing;

ghost use Rattle.std.specs.Prelude.{◌≡◌, ◌≤◌, length, take};
ghost use Rattle.grammar.specs.Items.{most_items};
ghost use Rattle.placeholders.specs.Placeholders.{seen};
ghost use Rattle.placeholders.specs.Inner.{Begun, Roomy, Settles};

use crate::faults::find_fault;
use crate::writing::fill_calls;
use grammar::{Form, Item};
use status::{Reason, Refusal};

// An item as placeholders see it. A call has the place of the called name, and the number of its declaration.
// Kept as it is: `Other` is one of six kinds, and a match names it beside the others; in an Option each match would be two deep.
#[derive(Clone, Copy)]
pub enum Seen {
    Other,
    Declares,
    Names(u32),
    Wants(Form, u32),
    Calls(u32, u32),
    Hands(u32),
}

// The form of the n for which a placeholder stands, and the place of its name.
#[derive(Clone, Copy)]
pub struct Wanted {
    pub form: Form,
    pub name: u32,
}

// How many items and declarations there are once the numbers of the calls are written in.
#[derive(Clone, Copy)]
pub struct Settled {
    pub items: usize,
    pub declarations: usize,
}

fn see(item: Item) -> Seen
    ensures { result ≡ seen item }
{
    match item {
        Item::Declared(_, _) => Seen::Declares,
        Item::Placeholder(name) => Seen::Names(name),
        Item::AmountName(form, name) => Seen::Wants(form, name),
        Item::Start(name, called) => Seen::Calls(name, called),
        Item::Order(name, called) => Seen::Calls(name, called),
        Item::Argument(n) => Seen::Hands(n),
        _ => Seen::Other,
    }
}

// Refuses the text at the first name that is wrong, or writes in the numbers of its calls: each call of a retuning whose n is a placeholder
// names a declaration of its own then, behind the others.
pub fn settle(
    text: &[u8],
    items: &mut [Item],
    count: usize,
    starts: &mut [u32],
    n: usize,
) -> Result<Settled, Refusal>
    requires counted { count ≤ length items.old }
    requires size { length items.old ≡ most_items }
    requires begun { Begun (take count items.old) starts.old n }
    requires roomy { Roomy text.now (take count items.old) starts.old }
    ensures { Settles text.now (take count items.old) items.old result items.new starts.new }
{
    if let Some(place) = find_fault(text, &items[..count], &starts[..n]) {
        let reason = Reason::PlaceholderWrong;
        return Err(Refusal { reason, place });
    }
    Ok(fill_calls(text, items, count, starts, n))
}
