// The uses of a row: its base, if it has one, and its terms.
ghost use Rattle.std.specs.Prelude.{◌≡◌, ◌≤◌, suc, length};
ghost use Rattle.values.specs.Rows.{terms_per_row, meant};
ghost use Rattle.values.specs.Inner.{used_in, base_of, use_in};

use crate::{Origin, Row, Term};

// One that a value refers to: the tone that it starts from, or a term.
#[derive(Clone, Copy)]
pub enum Use {
    Base(u16),
    Term(Term),
}

impl Use {
    // The declaration that it is of.
    pub fn of(self) -> usize
        ensures { result ≡ used_in self }
    {
        match self {
            Use::Base(k) => k as usize,
            Use::Term(term) => term.of as usize,
        }
    }
}

fn base_of(origin: Origin) -> Option<Use>
    ensures { result ≡ base_of (meant origin) }
{
    match origin {
        Origin::Base(k) => Some(Use::Base(k)),
        _ => None,
    }
}

impl Row {
    // The places that its uses have: one for the base, and one for each term.
    pub(crate) fn count_places(&self) -> usize
        ensures { (result ≡ suc (length self.now.terms)) × (result ≤ suc terms_per_row) }
    {
        1 + self.terms.len()
    }

    // The use at a place, where there is one: the base is at place 0.
    pub(crate) fn use_at(&self, place: usize) -> Option<Use>
        requires { place ≤ length self.now.terms }
        ensures { result ≡ use_in self.now place }
    {
        if place == 0 {
            return base_of(self.origin);
        }
        let term = self.terms[place - 1]?;
        Some(Use::Term(term))
    }
}
