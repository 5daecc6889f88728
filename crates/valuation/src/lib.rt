// The values of a text's declarations: what each value starts from and its terms are gathered from the items, then resolved.
#![tactic(auto)]

ghost use Rattle.std.specs.Prelude.{◌≡◌, ◌+◌, ◌<◌, length, get_or, replicate, None, IfSome};
ghost use Rattle.names.specs.Parts.{part};
ghost use Rattle.limits.specs.Limits.{most_rows};
ghost use Rattle.values.specs.Rows.{terms_per_row, meant, row_terms, row_own, Resolved};
ghost use Rattle.program.specs.Program.{terms_of, form_of, unnamed, declaration_of, program_of};
ghost use Rattle.program.specs.Meaning.{declaration_at, own_of, own};
ghost use Rattle.valuation.specs.Inner.{Ready, content_of, content_at, range_by, origin_by, has_terms, term_in, Measurable, Small, Holdable, Gatherable, Gathered};

use cents::Interval;
use cents::measure::{measure_frequency, measure_ratio, measure_root};
use grammar::Item;
use values::{Fault, Origin, ROWS, Range, Row, TERMS_PER_ROW, Term};

// What an item has for the value of its declaration.
#[derive(Clone, Copy)]
enum Content {
    Ratio(u32, u32),
    Root(u32, u32),
    Frequency(u32),
    Period,
    Tone(u32),
    Term(bool, u32, u32),
}

// A row before its declaration is put in.
const BLANK: Row = Row {
    range: Range::Tone,
    origin: Origin::Interval(Interval(0)),
    terms: [None; TERMS_PER_ROW],
};

fn content_of(item: Item) -> Option<Content>
    ensures { result ≡ content_of (part item) }
{
    match item {
        Item::Ratio(p, q) => Some(Content::Ratio(p, q)),
        Item::Root(a, b) => Some(Content::Root(a, b)),
        Item::Frequency(f) => Some(Content::Frequency(f)),
        Item::AnchorKey(_) => Some(Content::Period),
        Item::Base(of) => Some(Content::Tone(of)),
        Item::Add(factor, of) => Some(Content::Term(false, factor, of)),
        Item::Subtract(factor, of) => Some(Content::Term(true, factor, of)),
        _ => None,
    }
}

// The content of the first of the items.
fn content_at(items: &[Item]) -> Option<Content>
    ensures { result ≡ content_at items.now }
{
    items.first().and_then(|item| content_of(*item))
}

// What the value of a declaration that begins with this content starts from.
fn origin_of(content: Option<Content>) -> Origin
    requires { Measurable content }
    ensures { meant result ≡ origin_by content }
{
    match content {
        Some(Content::Ratio(p, q)) => Origin::Interval(measure_ratio(p, q)),
        Some(Content::Root(a, b)) => Origin::Interval(measure_root(a, b)),
        Some(Content::Frequency(f)) => Origin::Pitch(measure_frequency(f)),
        Some(Content::Tone(of)) => Origin::Base(of as u16),
        _ => Origin::Interval(Interval(0)),
    }
}

// Only a tone system's value, its period, has a range of its own.
fn range_of(content: Option<Content>) -> Range
    ensures { result ≡ range_by content }
{
    match content {
        Some(Content::Period) => Range::Period,
        _ => Range::Tone,
    }
}

// Whether the terms among the items are those of the value.
fn has_terms(content: Option<Content>) -> bool
    ensures { result ≡ has_terms content }
{
    matches!(
        content,
        Some(Content::Period | Content::Tone(_) | Content::Term(_, _, _))
    )
}

// The term that an item is, if it is one.
fn term_of(item: Item) -> Option<Term>
    requires { IfSome (term_in (content_of (part item))) (Small most_rows) }
    ensures { result ≡ term_in (content_of (part item)) }
{
    let Some(Content::Term(minus, factor, of)) = content_of(item) else {
        return None;
    };
    Some(Term {
        minus,
        factor: factor as u16,
        of: of as u16,
    })
}

// Puts the terms among the items into the empty places of a row, one after the other.
fn gather_terms(items: &[Item], places: &mut [Option<Term>])
    requires holdable { Holdable (terms_of items.now) }
    requires empty { places.old ≡ replicate terms_per_row None }
    ensures { row_terms places.new ≡ terms_of items.now }
{
    let mut next = 0;
    for item in items {
        let Some(term) = term_of(*item) else {
            continue;
        };
        places[next] = Some(term);
        next += 1;
    }
}

// The parts of a declaration: its items after the names of its placeholders.
pub fn skip_names(items: &[Item]) -> &[Item]
    ensures { result.now ≡ unnamed items.now }
{
    let names = items
        .iter()
        .take_while(|item| matches!(item, Item::Placeholder(_)))
        .count();
    &items[names..]
}

// Puts the declaration that has these parts into a row: in its place, since a row handed over by value is copied term by term.
fn gather_parts(items: &[Item], row: &mut Row)
    requires { Gatherable items.now }
    ensures { row_own row.new ≡ own_of (form_of items.now) }
{
    let content = content_at(items);
    row.range = range_of(content);
    row.origin = origin_of(content);
    row.terms = [None; TERMS_PER_ROW];
    if has_terms(content) {
        gather_terms(items, &mut row.terms);
    }
}

// Where the items of declaration `d` end, of so many items.
fn end_of(starts: &[u32], count: usize, d: usize) -> usize
    requires { d < length starts.now }
    ensures { result ≡ get_or starts.now (d + 1) count }
{
    match starts.get(d + 1) {
        Some(next) => *next as usize,
        None => count,
    }
}

// The items of declaration `d`, after its name.
pub fn body_at<'a>(items: &'a [Item], starts: &[u32], d: usize) -> &'a [Item]
    requires ready { Ready items.now starts.now }
    requires d_in_bounds { d < length starts.now }
    ensures { declaration_of result.now ≡ declaration_at (program_of items.now) d }
{
    let from = starts[d] as usize + 1;
    let to = end_of(starts, items.len(), d);
    &items[from..to]
}

// Puts each declaration into its row.
fn gather_all(items: &[Item], starts: &[u32], rows: &mut [Row])
    requires ready { Ready items.now starts.now }
    requires rows_len { length rows.old ≡ length starts.now }
    ensures { Gathered (program_of items.now) rows.new }
{
    for d in 0..starts.len() {
        let parts = skip_names(body_at(items, starts, d));
        gather_parts(parts, &mut rows[d]);
    }
}

// What becomes of the declarations; where all is well, `values` has their values.
pub fn value_declarations(items: &[Item], starts: &[u32], values: &mut [i64]) -> Result<(), Fault>
    requires ready { Ready items.now starts.now }
    requires values_len { length values.old ≡ most_rows }
    ensures { Resolved (own (program_of items.now)) (length starts.now) result values.new }
{
    let mut rows = [BLANK; ROWS];
    let rows = &mut rows[..starts.len()];
    gather_all(items, starts, rows);
    values::resolve(rows, values)
}
