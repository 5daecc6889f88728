// Order records, and the search for the first with a trigger in a lent slice of them.
#![tactic(auto)]

ghost use Rattle.std.specs.Prelude.{◌≡◌};
ghost use Rattle.orders.specs.Orders.{first_match};

// The kind of a declaration that can be called.
#[derive(Clone, Copy)]
pub enum Kind {
    System,
    Retuning,
    Logic,
}

// A trigger, the kind of what it calls (none where that can't be called), and the number of the declaration that is called.
#[derive(Clone, Copy)]
pub struct Order {
    pub trigger: u16,
    pub kind: Option<Kind>,
    pub number: u16,
}

// The first of the `count` records from `first` on that has the trigger. The part may reach past the end.
pub fn find_match(orders: &[Order], trigger: u16, first: usize, count: usize) -> Option<usize>
    ensures { result ≡ first_match trigger orders.now first count }
{
    let mut part = orders.iter().skip(first).take(count);
    let i = part.position(|order| order.trigger == trigger)?;
    Some(first + i)
}
