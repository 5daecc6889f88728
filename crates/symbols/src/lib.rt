// The symbols of a text: names, numbers and marks, each with its place.
#![tactic(auto)]

pub mod bytes;
mod runs;
pub mod spelling;
pub mod words;

ghost use Rattle.std.specs.Prelude.{◌≡◌, List, [], ◌∷◌, ℕ, ◌+◌, ◌<◌, ◌^◌, length, get_or, drop};
ghost use Rattle.symbols.specs.Symbols.{marks, mark_in, mark_or, mark_at, decimal_at, hex_at, symbol_at, next_symbol};
ghost use Rattle.symbols.specs.declared.Symbol.TheVariants.{Bad};

// The marks `= : + - * / [ ] , @ { } << >> ->`.
#[derive(Clone, Copy)]
pub enum MarkKind {
    Equals,
    Colon,
    Plus,
    Minus,
    Times,
    Divide,
    Open,
    Close,
    Comma,
    At,
    BraceOpen,
    BraceClose,
    BracketOpen,
    BracketClose,
    WidthOpen,
    WidthClose,
    Arrow,
}

// Places count the bytes of the text from 0; `end` is the place after the symbol.
#[derive(Clone, Copy)]
pub enum Symbol {
    // No symbol begins at the place, or a number or a comment there lacks its end.
    Bad(usize),
    // The text's length.
    End(usize),
    Name {
        start: usize,
        end: usize,
    },
    Number {
        start: usize,
        end: usize,
    },
    Mark {
        kind: MarkKind,
        start: usize,
        end: usize,
    },
}

// The first symbol from `at` on, past blanks and comments.
pub fn next_symbol(text: &[u8], at: usize) -> Symbol
    ensures { result ≡ next_symbol text.now at }
{
    // Kept as it is: a place that jumps past comments is no plainer as an iterator.
    let mut i = at;
    while i < text.len() {
        let b = text[i];
        if bytes::is_blank(b) {
            i += 1;
            continue;
        }
        if b != b'"' {
            return symbol_at(text, i);
        }
        let close = runs::run_end(text, i + 1, |b| b != b'"');
        if text.len() <= close {
            return Symbol::Bad(i);
        }
        i = close + 1;
    }
    Symbol::End(i)
}

// The symbol that begins at `at`.
fn symbol_at(text: &[u8], at: usize) -> Symbol
    requires { at < length text.now }
    ensures { result ≡ symbol_at at (get_or text.now at 0) (drop (at + 1) text.now) }
{
    let b = text[at];
    if bytes::is_letter(b) {
        let end = runs::run_end(text, at + 1, bytes::in_name);
        return Symbol::Name { start: at, end };
    }
    if bytes::is_digit(b) {
        return decimal_at(text, at);
    }
    if b == b'#' {
        return hex_at(text, at);
    }
    mark_at(text, at)
}

// Digits, and perhaps a point with digits after it.
fn decimal_at(text: &[u8], at: usize) -> Symbol
    requires { at < length text.now }
    ensures { result ≡ decimal_at at (drop at text.now) }
{
    let whole = runs::run_end(text, at, bytes::is_digit);
    let Some(b'.') = text.get(whole) else {
        return Symbol::Number {
            start: at,
            end: whole,
        };
    };
    let first = whole + 1;
    let end = runs::run_end(text, first, bytes::is_digit);
    if first < end {
        return Symbol::Number { start: at, end };
    }
    Symbol::Bad(at)
}

// Hexadecimal digits after the `#` at `at`.
fn hex_at(text: &[u8], at: usize) -> Symbol
    requires { at < length text.now }
    ensures { result ≡ hex_at at (drop (at + 1) text.now) }
{
    let first = at + 1;
    let end = runs::run_end(text, first, bytes::is_hex_digit);
    if first < end {
        return Symbol::Number { start: at, end };
    }
    Symbol::Bad(at)
}

// The longest mark that begins at `at`.
fn mark_at(text: &[u8], at: usize) -> Symbol
    requires { at < length text.now }
    ensures { result ≡ mark_at at (drop at text.now) }
{
    let first = text[at];
    let Some(&second) = text.get(at + 1) else {
        return short_mark(first, at);
    };
    let Some(kind) = double_mark(first, second) else {
        return short_mark(first, at);
    };
    Symbol::Mark {
        kind,
        start: at,
        end: at + 2,
    }
}

// The mark of one byte, which stands at `at`.
fn short_mark(b: u8, at: usize) -> Symbol
    requires { at + 1 < 2 ^ 64 }
    ensures { result ≡ mark_or at (b ∷ []) (Bad at) }
{
    let Some(kind) = single_mark(b) else {
        return Symbol::Bad(at);
    };
    Symbol::Mark {
        kind,
        start: at,
        end: at + 1,
    }
}

// The mark that two bytes are.
#[tactic(auto, unfolding(crate::specs::Symbols::marks, crate::specs::Symbols::mark_in, crate::specs::Bytes::same))]
fn double_mark(first: u8, second: u8) -> Option<MarkKind>
    ensures { result ≡ mark_in marks (first ∷ second ∷ []) }
{
    match (first, second) {
        (b'<', b'<') => Some(MarkKind::WidthOpen),
        (b'>', b'>') => Some(MarkKind::WidthClose),
        (b'-', b'>') => Some(MarkKind::Arrow),
        _ => None,
    }
}

// The mark that one byte is.
#[tactic(auto, unfolding(crate::specs::Symbols::marks, crate::specs::Symbols::mark_in, crate::specs::Bytes::same))]
fn single_mark(b: u8) -> Option<MarkKind>
    ensures { result ≡ mark_in marks (b ∷ []) }
{
    match b {
        b'=' => Some(MarkKind::Equals),
        b':' => Some(MarkKind::Colon),
        b'+' => Some(MarkKind::Plus),
        b'-' => Some(MarkKind::Minus),
        b'*' => Some(MarkKind::Times),
        b'/' => Some(MarkKind::Divide),
        b'[' => Some(MarkKind::Open),
        b']' => Some(MarkKind::Close),
        b',' => Some(MarkKind::Comma),
        b'@' => Some(MarkKind::At),
        b'{' => Some(MarkKind::BraceOpen),
        b'}' => Some(MarkKind::BraceClose),
        b'(' => Some(MarkKind::BracketOpen),
        b')' => Some(MarkKind::BracketClose),
        _ => None,
    }
}
