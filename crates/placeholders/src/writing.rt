// Calls with their numbers written in.
ghost use Rattle.std.specs.Prelude.{◌≡◌, ◌≤◌, length, take};
ghost use Rattle.grammar.specs.Items.{most_items};
ghost use Rattle.placeholders.specs.Filling.{wanted_by};
ghost use Rattle.placeholders.specs.Inner.{wanted_at, Begun, Roomy, Fills};

use crate::brackets::{body_of, find_number};
use crate::{Seen, Settled, Wanted, see};
use grammar::{Form, Item, Kind};

// A call to be written in: the place of the called name, the form of the n, and the number.
#[derive(Clone, Copy)]
pub struct WrittenCall {
    pub place: u32,
    pub form: Form,
    pub number: u32,
}

// What the retuning wants that has these items after its name.
fn find_wanted(items: &[Item]) -> Option<Wanted>
    ensures { result ≡ wanted_by items.now }
{
    for item in items {
        match see(*item) {
            Seen::Names(_) => {}
            Seen::Wants(form, name) => return Some(Wanted { form, name }),
            _ => return None,
        }
    }
    None
}

// What is to be written in for the first of the items from here on.
fn read_call(text: &[u8], items: &[Item], here: &[Item], starts: &[u32]) -> Option<WrittenCall>
    ensures { result ≡ wanted_at text.now starts.now items.now here.now }
{
    let (item, after) = here.split_first()?;
    let Seen::Calls(place, called) = see(*item) else {
        return None;
    };
    let body = body_of(items, starts, called as usize);
    let Wanted { form, name } = find_wanted(body)?;
    let number = find_number(text, body, after, name as usize);
    Some(WrittenCall {
        place,
        form,
        number,
    })
}

// Each call of a retuning whose n is a placeholder names a declaration of its own, behind the others.
pub fn fill_calls(
    text: &[u8],
    items: &mut [Item],
    count: usize,
    starts: &mut [u32],
    n: usize,
) -> Settled
    requires counted { count ≤ length items.old }
    requires size { length items.old ≡ most_items }
    requires begun { Begun (take count items.old) starts.old n }
    requires roomy { Roomy text.now (take count items.old) starts.old }
    ensures { Fills text.now (take count items.old) items.old result items.new starts.new }
{
    let mut end = count;
    let mut next = n;
    for i in 0..count {
        let own = &items[..count];
        let Some(call) = read_call(text, own, &own[i..], &starts[..n]) else {
            continue;
        };
        items[i] = items[i].with_place(next as u32);
        items[end] = Item::Declared(Kind::Retuning, call.place);
        items[end + 1] = Item::Amount(call.form, call.number);
        starts[next] = end as u32;
        end += 2;
        next += 1;
    }
    Settled {
        items: end,
        declarations: next,
    }
}
