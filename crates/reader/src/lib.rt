// A thin reader: it holds the text and a place, over the function on a slice and a number that finds the next symbol.
#![tactic(auto)]

ghost use Rattle.std.specs.Prelude.{◌≡◌};
ghost use Rattle.symbols.specs.Symbols.{next_symbol};

use symbols::Symbol;

// Kept as it is: a rule of the project wants a thin reader that holds the text and a place.
#[derive(Clone, Copy)]
pub struct Reader<'a> {
    pub text: &'a [u8],
    pub at: usize,
}

// A reader of the text, at a place.
pub fn open<'a>(text: &'a [u8], at: usize) -> Reader<'a>
    ensures { (result.text ≡ text.entry) × (result.at ≡ at) }
{
    Reader { text, at }
}

// The first symbol from the reader's place on.
pub fn find_next<'a>(r: Reader<'a>) -> Symbol
    ensures { result ≡ next_symbol r.entry.text.now r.entry.at }
{
    symbols::next_symbol(r.text, r.at)
}

// The same of a text and a place, for callers with plain parameters.
pub fn find_symbol(text: &[u8], at: usize) -> Symbol
    ensures { result ≡ next_symbol text.now at }
{
    find_next(open(text, at))
}
