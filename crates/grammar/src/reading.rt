// Reading a text: its symbols one by one, each a step of the syntax diagrams, into items.
ghost use Rattle.std.specs.Prelude.{◌≡◌, cond, ◌≤◌, ◌<◌, ◌^◌, length};
ghost use Rattle.std.proofs.Math.Seq.{slice};
ghost use Rattle.status.specs.declared.Reason.TheVariants.{NoSymbol, SymbolNotAllowed};
ghost use Rattle.grammar.specs.Terminals.{is_nothing, of_name, terminal_of, start_of, end_of, span_of};
ghost use Rattle.grammar.specs.Reading.{begun, most_bytes, read_items, Answered};
ghost use Rattle.grammar.specs.Moves.{Moves};
ghost use Rattle.grammar.specs.Items.{holding, most_items};

use crate::terminals::Terminal;
use crate::{Counts, FirstNumber, Item, NextTerm, Progress, Span, Stopped, actions, moves};
use limits::MOST_BYTES;
use status::{Reason, Refusal};
use symbols::{Symbol, spelling, words};

// The node at which a text begins, and the one at which it is complete.
const BEGIN: u8 = 0;

const FINISH: u8 = 1;

fn terminal_of_name(text: &[u8], start: usize, end: usize) -> Terminal
    ensures { result ≡ of_name (slice start end text.now) }
{
    if spelling::letter_at(text, start, end).is_some() {
        return Terminal::Letter;
    }
    Terminal::from(words::word_at(text, start, end))
}

#[tactic(auto, unfolding(crate::specs::Terminals::terminal_of))]
fn terminal_of(text: &[u8], symbol: Symbol) -> Terminal
    ensures { result ≡ terminal_of text.now symbol }
{
    match symbol {
        Symbol::Name { start, end } => terminal_of_name(text, start, end),
        Symbol::Number { .. } => Terminal::Number,
        Symbol::Mark { kind, .. } => Terminal::from(kind),
        Symbol::End(_) => Terminal::End,
        Symbol::Bad(_) => Terminal::Nothing,
    }
}

fn span_between(start: usize, end: usize) -> Span
    requires { (start < 2 ^ 32) × (end < 2 ^ 32) }
    ensures { result ≡ record { start = start; end = end } }
{
    Span {
        start: start as u32,
        end: end as u32,
    }
}

fn span_of(symbol: Symbol) -> Span
    requires { (start_of symbol < 2 ^ 32) × (end_of symbol < 2 ^ 32) }
    ensures { result ≡ span_of symbol }
{
    match symbol {
        Symbol::Name { start, end } => span_between(start, end),
        Symbol::Number { start, end } => span_between(start, end),
        Symbol::Mark { start, end, .. } => span_between(start, end),
        Symbol::End(place) => span_between(place, place),
        Symbol::Bad(place) => span_between(place, place),
    }
}

// Why a symbol that may not follow is refused, or a place where none begins.
fn reason_of(terminal: Terminal) -> Reason
    ensures { result ≡ cond (is_nothing terminal) NoSymbol SymbolNotAllowed }
{
    match terminal {
        Terminal::Nothing => Reason::NoSymbol,
        _ => Reason::SymbolNotAllowed,
    }
}

fn begin() -> Progress
    ensures { result ≡ begun.kept }
{
    Progress {
        first: FirstNumber {
            start: 0,
            end: 0,
            value: 0,
        },
        term: NextTerm {
            minus: false,
            factor: 1,
            before: 0,
        },
        positions: 0,
        keys: 0,
        bracketed: 0,
        counts: Counts {
            intervals: 0,
            tones: 0,
            systems: 0,
            retunings: 0,
            logics: 0,
            orders: 0,
            harmonies: 0,
        },
    }
}

// Reads a text of allowed length symbol by symbol; each item goes into the next place of the slice.
fn read_symbols(text: &[u8], next: &[u8], acts: &[u8], items: &mut [Item]) -> Result<usize, Stopped>
    requires text_len_bound { length text.now ≤ most_bytes }
    requires moves { Moves next.now acts.now }
    requires len { length items.old ≡ most_items }
    ensures answered { Answered (read_items text.now) result }
    ensures items { items.new ≡ holding (read_items text.now).items items.old }
{
    let mut s = begin();
    let mut node = BEGIN;
    let mut at = 0;
    let mut count = 0;
    // Kept as it is: it goes from node to node, and only some steps give an item.
    while node != FINISH {
        let symbol = reader::find_symbol(text, at);
        let terminal = terminal_of(text, symbol);
        let x = span_of(symbol);
        let Some((action, then)) = moves::move_at(next, acts, node, terminal) else {
            let refusal = Refusal {
                reason: reason_of(terminal),
                place: x.start,
            };
            return Err(Stopped { refusal, count });
        };
        let (more, item) = match actions::act(text, s, action, x) {
            Ok(step) => step,
            Err(refusal) => return Err(Stopped { refusal, count }),
        };
        s = more;
        node = then;
        at = x.end as usize;
        if let Some(item) = item {
            items[count] = item;
            count += 1;
        }
    }
    Ok(count)
}

// The items of a text go into the first places of the slice. How many there are, on a refusal too.
pub fn read_items(text: &[u8], items: &mut [Item]) -> Result<usize, Stopped>
    requires { length items.old ≡ most_items }
    ensures answered { Answered (read_items text.now) result }
    ensures items { items.new ≡ holding (read_items text.now).items items.old }
{
    if MOST_BYTES < text.len() {
        let refusal = Refusal {
            reason: Reason::TextTooLong,
            place: 0,
        };
        return Err(Stopped { refusal, count: 0 });
    }
    let next = moves::NEXT;
    let acts = moves::ACTIONS;
    read_symbols(text, &next, &acts, items)
}
