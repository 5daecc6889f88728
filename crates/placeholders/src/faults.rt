// The first name that is wrong: 24.
ghost use Rattle.std.specs.Prelude.{◌≡◌, []};
ghost use Rattle.placeholders.specs.Placeholders.{fault_from};
ghost use Rattle.placeholders.specs.Inner.{names_in, takes_by, fault_here};

use crate::brackets::{body_of, count_handed, count_named, is_among};
use crate::{Seen, see};
use grammar::Item;

// Where the first of the items from here on is wrong, if it is, where the declaration under way has those before.
fn fault_at(
    text: &[u8],
    items: &[Item],
    before: &[Item],
    here: &[Item],
    starts: &[u32],
) -> Option<u32>
    ensures { result ≡ fault_here text.now (takes_by starts.now items.now) (names_in before.now) here.now }
{
    let (item, after) = here.split_first()?;
    match see(*item) {
        Seen::Names(name) => {
            if is_among(text, before, name as usize) {
                return Some(name);
            }
        }
        Seen::Wants(_, name) => {
            if !is_among(text, before, name as usize) {
                return Some(name);
            }
        }
        Seen::Calls(name, called) => {
            if count_handed(after) != count_named(body_of(items, starts, called as usize)) {
                return Some(name);
            }
        }
        _ => {}
    }
    None
}

// The first fault of the items.
pub fn find_fault(text: &[u8], items: &[Item], starts: &[u32]) -> Option<u32>
    ensures { result ≡ fault_from text.now (takes_by starts.now items.now) [] items.now }
{
    let mut from = 0;
    for i in 0..items.len() {
        if let Some(place) = fault_at(text, items, &items[from..i], &items[i..], starts) {
            return Some(place);
        }
        if let Seen::Declares = see(items[i]) {
            from = i + 1;
        }
    }
    None
}
