// The names and numbers in brackets.
ghost use Rattle.std.specs.Prelude.{◌≡◌, length, get_or};
ghost use Rattle.symbols.specs.Names.{name_at};
ghost use Rattle.placeholders.specs.Placeholders.{named, handed, is_among};
ghost use Rattle.placeholders.specs.Filling.{given};
ghost use Rattle.placeholders.specs.Inner.{names_in, after_by};

use crate::{Seen, see};
use grammar::Item;
use symbols::spelling;

// The items after the name of declaration `k`; where there is none, those after the first.
pub fn body_of<'a>(items: &'a [Item], starts: &[u32], k: usize) -> &'a [Item]
    ensures { result.now ≡ after_by starts.now items.now k }
{
    let begin = starts.get(k).copied().unwrap_or(0) as usize;
    items.get(begin + 1..).unwrap_or(&[])
}

// How many placeholders the brackets name that the items begin with.
pub fn count_named(items: &[Item]) -> usize
    ensures { result ≡ length (named items.now) }
{
    items
        .iter()
        .take_while(|item| matches!(see(**item), Seen::Names(_)))
        .count()
}

// How many numbers the brackets give that the items begin with.
pub fn count_handed(items: &[Item]) -> usize
    ensures { result ≡ length (handed items.now) }
{
    items
        .iter()
        .take_while(|item| matches!(see(**item), Seen::Hands(_)))
        .count()
}

// Whether one of the placeholders that the items name has the name at `at`.
pub fn is_among(text: &[u8], items: &[Item], at: usize) -> bool
    ensures { result ≡ is_among text.now (names_in items.now) (name_at text.now at) }
{
    for item in items {
        if let Seen::Names(name) = see(*item) {
            if spelling::same_name(text, name as usize, at) {
                return true;
            }
        }
    }
    false
}

// The number that a call gives for the name at `at`, by the items after the called name and those after the call.
pub fn find_number(text: &[u8], body: &[Item], after: &[Item], at: usize) -> u32
    ensures { result ≡ given text.now (named body.now) (handed after.now) (name_at text.now at) }
{
    for (name, number) in body.iter().zip(after) {
        let Seen::Names(name) = see(*name) else {
            return 0;
        };
        let Seen::Hands(number) = see(*number) else {
            return 0;
        };
        if spelling::same_name(text, name as usize, at) {
            return number;
        }
    }
    0
}
