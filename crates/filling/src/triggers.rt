// What a logic or an order waits for, and its code in the tables.
ghost use Rattle.std.specs.Prelude.{◌≡◌, ◌<◌, ◌^◌};
ghost use Rattle.std.specs.Option.{option_map};
ghost use Rattle.names.specs.Parts.{part};
ghost use Rattle.program.specs.Program.{as_listed};
ghost use Rattle.filling.specs.Tables.{trigger_code};
ghost use Rattle.filling.specs.Inner.{as_trigger, trigger_by};

use grammar::Item;
use tables::HARMONY_BASE;

// A letter, as its capital, or a harmony, by the number of its declaration.
#[derive(Clone, Copy)]
pub enum Trigger {
    Letter(u32),
    Harmony(u32),
}

// The trigger that an item is, if it is one.
pub fn read_trigger(item: Item) -> Option<Trigger>
    ensures { option_map trigger_by result ≡ as_trigger (as_listed (part item)) }
{
    match item {
        Item::Letter(c) => Some(Trigger::Letter(c)),
        Item::Trigger(k) => Some(Trigger::Harmony(k)),
        _ => None,
    }
}

// The code of a trigger in the tables.
pub fn code_of(trigger: Trigger) -> u16
    requires { trigger_code (trigger_by trigger) < 2 ^ 16 }
    ensures { result ≡ trigger_code (trigger_by trigger) }
{
    match trigger {
        Trigger::Letter(c) => c as u16,
        Trigger::Harmony(k) => HARMONY_BASE + k as u16,
    }
}
