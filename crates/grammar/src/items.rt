// An item with another name's place.
ghost use Rattle.std.specs.Prelude.{◌≡◌};
ghost use Rattle.grammar.specs.Items.{with_place};

use crate::Item;

impl Item {
    // The item with this place in place of that of the name that it uses; one that uses none stays as it is.
    pub fn with_place(self, place: u32) -> Item
        ensures { result ≡ with_place self place }
    {
        match self {
            Item::Add(factor, _) => Item::Add(factor, place),
            Item::Subtract(factor, _) => Item::Subtract(factor, place),
            Item::Base(_) => Item::Base(place),
            Item::TonePosition(_) => Item::TonePosition(place),
            Item::Start(at, _) => Item::Start(at, place),
            Item::Order(at, _) => Item::Order(at, place),
            Item::Trigger(_) => Item::Trigger(place),
            _ => self,
        }
    }
}
