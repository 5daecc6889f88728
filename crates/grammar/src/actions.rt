// What is done at a symbol: each action answers more progress, perhaps with an item, or a refusal.
ghost use Rattle.std.specs.Prelude.{◌≡◌, ◌<◌, ◌≤◌, leb, Some, None, Ok};
ghost use Rattle.std.proofs.Math.Seq.{slice};
ghost use Rattle.status.specs.declared.Reason.TheVariants.{ItemTooMany};
ghost use Rattle.limits.specs.Limits.{most_harmony_key};
ghost use Rattle.grammar.specs.Terminals.{letter_at};
ghost use Rattle.grammar.specs.Reading.{refusal, allowed_amount, allowed, judged, limit, so_far, one_more, held_first, judged_first, no_term, next_term, counted, signed, termed, positioned, named, marked, used, numbered, order_counted, with_order, key_counted, key_named, in_brackets, called, acted};
ghost use Rattle.grammar.specs.Inner.{room_for_term, in_range};

use crate::{
    Action, Counts, FirstNumber, Form, Item, Kind, MarkUse, NameUse, NextTerm, NumberRange,
    NumberUse, Outcome, Progress, Span,
};
use limits::{
    LEAST_DEGREE, LEAST_DIVISOR, MOST_AMOUNT, MOST_ANCHOR, MOST_DEGREE, MOST_FACTOR,
    MOST_HARMONIES, MOST_HARMONY_KEY, MOST_HARMONY_KEYS, MOST_INTERVALS, MOST_LOGICS, MOST_ORDERS,
    MOST_PLACEHOLDERS, MOST_POSITIONS, MOST_RETUNINGS, MOST_SYSTEMS, MOST_TERMS, MOST_TONE_NAMES,
};
use status::{Reason, Refusal};
use symbols::spelling;

const MOST_ANCHOR_KEY: u32 = MOST_ANCHOR as u32;

const LAST_KEY: u32 = MOST_HARMONY_KEY as u32;

fn limit_of(kind: Kind) -> u16
    ensures { result ≡ limit kind }
{
    match kind {
        Kind::Interval => MOST_INTERVALS,
        Kind::Tone => MOST_TONE_NAMES,
        Kind::System => MOST_SYSTEMS,
        Kind::Retuning => MOST_RETUNINGS,
        Kind::Logic => MOST_LOGICS,
        Kind::Order => MOST_ORDERS,
        Kind::Harmony => MOST_HARMONIES,
    }
}

fn count_of(counts: Counts, kind: Kind) -> u16
    ensures { result ≡ so_far kind counts }
{
    match kind {
        Kind::Interval => counts.intervals,
        Kind::Tone => counts.tones,
        Kind::System => counts.systems,
        Kind::Retuning => counts.retunings,
        Kind::Logic => counts.logics,
        Kind::Order => counts.orders,
        Kind::Harmony => counts.harmonies,
    }
}

// Whether there are as many of a kind as there may be.
fn is_full(counts: Counts, kind: Kind) -> bool
    ensures { result ≡ leb (limit kind) (so_far kind counts) }
{
    limit_of(kind) <= count_of(counts, kind)
}

fn count_one_more(mut counts: Counts, kind: Kind) -> Counts
    requires { so_far kind counts < limit kind }
    ensures { result ≡ one_more kind counts }
{
    match kind {
        Kind::Interval => counts.intervals += 1,
        Kind::Tone => counts.tones += 1,
        Kind::System => counts.systems += 1,
        Kind::Retuning => counts.retunings += 1,
        Kind::Logic => counts.logics += 1,
        Kind::Order => counts.orders += 1,
        Kind::Harmony => counts.harmonies += 1,
    }
    counts
}

// One item more than allowed.
fn one_too_many(x: Span) -> Refusal
    ensures { result ≡ refusal ItemTooMany x.start }
{
    Refusal {
        reason: Reason::ItemTooMany,
        place: x.start,
    }
}

// The next term stands after `before` others.
fn await_term(mut s: Progress, minus: bool, factor: u32, before: u32) -> Progress
    ensures { result ≡ next_term minus factor before s }
{
    let term = NextTerm {
        minus,
        factor,
        before,
    };
    s.term = term;
    s
}

fn await_first_term(s: Progress) -> Progress
    ensures { result ≡ no_term s }
{
    await_term(s, false, 1, 0)
}

// A declaration begins with its name.
fn declare(s: Progress, kind: Kind, x: Span) -> Outcome
    ensures { result ≡ counted s kind (Item.Declared kind x.start) x }
{
    let counts = s.counts;
    if is_full(counts, kind) {
        return Err(one_too_many(x));
    }
    let mut next = await_first_term(s);
    next.positions = 0;
    next.keys = 0;
    next.bracketed = 0;
    next.counts = count_one_more(counts, kind);
    Ok((next, Some(Item::Declared(kind, x.start))))
}

// One order more.
fn add_order(mut s: Progress) -> Progress
    requires { so_far Kind.Order s.counts < limit Kind.Order }
    ensures { result ≡ with_order s }
{
    s.counts = count_one_more(s.counts, Kind::Order);
    s
}

// An order begins with KEY.
fn count_order(s: Progress, x: Span) -> Outcome
    ensures { result ≡ order_counted s x (Ok (with_order s, None)) }
{
    if is_full(s.counts, Kind::Order) {
        return Err(one_too_many(x));
    }
    Ok((add_order(s), None))
}

// An order begins with the name of its harmony.
fn begin_order(s: Progress, x: Span) -> Outcome
    ensures { result ≡ order_counted s x (Ok (with_order s, Some (Item.Trigger x.start))) }
{
    if is_full(s.counts, Kind::Order) {
        return Err(one_too_many(x));
    }
    Ok((add_order(s), Some(Item::Trigger(x.start))))
}

// A term begins with its sign.
fn begin_term(s: Progress, minus: bool, x: Span) -> Outcome
    ensures { result ≡ signed s minus x }
{
    let before = s.term.before;
    if MOST_TERMS <= before {
        return Err(one_too_many(x));
    }
    Ok((await_term(s, minus, 1, before), None))
}

// A term ends with its interval's name.
fn end_term(s: Progress, factor: u32, x: Span) -> Outcome
    requires { room_for_term s }
    ensures { result ≡ termed s factor x }
{
    let next = await_term(s, false, 1, s.term.before + 1);
    if s.term.minus {
        return Ok((next, Some(Item::Subtract(factor, x.start))));
    }
    Ok((next, Some(Item::Add(factor, x.start))))
}

fn add_position(s: Progress, item: Item, x: Span) -> Outcome
    ensures { result ≡ positioned s item x }
{
    let positions = s.positions;
    if MOST_POSITIONS <= positions {
        return Err(one_too_many(x));
    }
    let mut next = await_first_term(s);
    next.positions = positions + 1;
    Ok((next, Some(item)))
}

// A key of a harmony begins with its star.
fn await_key(s: Progress, x: Span) -> Outcome
    ensures { result ≡ key_counted s x (Ok (s, None)) }
{
    if MOST_HARMONY_KEYS <= s.positions {
        return Err(one_too_many(x));
    }
    Ok((s, None))
}

// A harmony names a key. One that it has named already may not stand there.
fn name_key(mut s: Progress, value: u32, item: Item, x: Span) -> Outcome
    requires { value ≤ most_harmony_key }
    ensures { result ≡ key_named s value item x }
{
    let key = value as u8;
    if sets::has(s.keys, key) {
        return Err(Refusal {
            reason: Reason::SymbolNotAllowed,
            place: x.start,
        });
    }
    let positions = s.positions;
    if MOST_HARMONY_KEYS <= positions {
        return Err(one_too_many(x));
    }
    s.positions = positions + 1;
    s.keys = sets::with(s.keys, key);
    Ok((s, Some(item)))
}

// A placeholder's name, or a number that a call gives.
fn add_bracketed(mut s: Progress, item: Item, x: Span) -> Outcome
    ensures { result ≡ in_brackets s item x }
{
    let bracketed = s.bracketed;
    if MOST_PLACEHOLDERS <= bracketed {
        return Err(one_too_many(x));
    }
    s.bracketed = bracketed + 1;
    Ok((s, Some(item)))
}

// A call, which gives no number yet.
fn begin_call(mut s: Progress, item: Item) -> Outcome
    ensures { result ≡ called s item }
{
    s.bracketed = 0;
    Ok((s, Some(item)))
}

fn use_name(s: Progress, purpose: NameUse, x: Span) -> Outcome
    requires { room_for_term s }
    ensures { result ≡ named s purpose x }
{
    match purpose {
        NameUse::Term => end_term(s, s.term.factor, x),
        NameUse::Base => Ok((s, Some(Item::Base(x.start)))),
        NameUse::Position => add_position(s, Item::TonePosition(x.start), x),
        NameUse::Start => begin_call(s, Item::Start(x.start, x.start)),
        NameUse::Order => begin_call(s, Item::Order(x.start, x.start)),
        NameUse::Trigger => Ok((s, Some(Item::Trigger(x.start)))),
        NameUse::CountedTrigger => begin_order(s, x),
        NameUse::Placeholder => add_bracketed(s, Item::Placeholder(x.start), x),
        NameUse::Amount(form) => Ok((s, Some(Item::AmountName(form, x.start)))),
    }
}

fn use_mark(s: Progress, purpose: MarkUse, x: Span) -> Outcome
    ensures { result ≡ marked s purpose x }
{
    match purpose {
        MarkUse::MutedPosition => add_position(s, Item::MutedPosition, x),
        MarkUse::KeptPosition => add_position(s, Item::KeptPosition, x),
        MarkUse::KeptAnchor => Ok((s, Some(Item::AnchorKept))),
        MarkUse::KeptWidth => Ok((s, Some(Item::WidthKept))),
        MarkUse::Period => Ok((s, Some(Item::Period))),
        MarkUse::Onward => Ok((s, Some(Item::Onward))),
        MarkUse::Star => await_key(s, x),
    }
}

// The capital of the letter that the symbol is, or 0.
fn read_letter(text: &[u8], x: Span) -> u32
    ensures { result ≡ letter_at text.now x }
{
    spelling::letter_at(text, x.start as usize, x.end as usize).map_or(0, u32::from)
}

// An interval's first number is judged later.
fn hold_number(mut s: Progress, x: Span) -> Progress
    ensures { result ≡ held_first x s }
{
    let first = FirstNumber {
        start: x.start,
        end: x.end,
        value: 0,
    };
    s.first = first;
    s
}

fn keep_first(mut s: Progress, value: u32) -> Progress
    ensures { result ≡ judged_first value s }
{
    s.first.value = value;
    s
}

// n in an anchor or width retuning; after `/` from 1.
fn range_of_amount(form: Form) -> NumberRange
    ensures { result ≡ allowed_amount form }
{
    match form {
        Form::AnchorTo
        | Form::AnchorUp
        | Form::AnchorDown
        | Form::WidthTo
        | Form::WidthUp
        | Form::WidthDown
        | Form::WidthTimes => NumberRange::Whole(0, MOST_AMOUNT),
        Form::WidthOver => NumberRange::Whole(LEAST_DIVISOR, MOST_AMOUNT),
    }
}

fn range_of(purpose: NumberUse) -> NumberRange
    ensures { result ≡ allowed purpose }
{
    match purpose {
        NumberUse::RatioFirst
        | NumberUse::RatioSecond
        | NumberUse::Radicand
        | NumberUse::Frequency => NumberRange::Decimal,
        NumberUse::Degree => NumberRange::Whole(LEAST_DEGREE, MOST_DEGREE),
        NumberUse::FirstFactor | NumberUse::Factor => NumberRange::Whole(0, MOST_FACTOR),
        NumberUse::AnchorKey => NumberRange::Whole(0, MOST_ANCHOR_KEY),
        NumberUse::Amount(form) => range_of_amount(form),
        NumberUse::Key | NumberUse::StarredKey => NumberRange::Whole(0, LAST_KEY),
        NumberUse::Argument => NumberRange::Whole(0, MOST_AMOUNT),
    }
}

// The number from `start` to `end`, where its use allows it.
fn judge(text: &[u8], purpose: NumberUse, start: usize, end: usize) -> Option<u32>
    ensures { result ≡ judged purpose (slice start end text.now) }
{
    match range_of(purpose) {
        NumberRange::Decimal => numerals::read_decimal(text, start, end),
        NumberRange::Whole(low, high) => numerals::read_whole(text, start, end, low, high),
    }
}

fn use_number(s: Progress, purpose: NumberUse, value: u32, x: Span) -> Outcome
    requires { room_for_term s × in_range (allowed purpose) value }
    ensures { result ≡ used s purpose value x }
{
    match purpose {
        NumberUse::RatioFirst => Ok((keep_first(s, value), None)),
        NumberUse::RatioSecond => Ok((s, Some(Item::Ratio(s.first.value, value)))),
        NumberUse::Degree => Ok((keep_first(s, value), None)),
        NumberUse::Radicand => Ok((s, Some(Item::Root(s.first.value, value)))),
        NumberUse::FirstFactor => end_term(s, value, x),
        NumberUse::Factor => Ok((await_term(s, s.term.minus, value, s.term.before), None)),
        NumberUse::Frequency => Ok((s, Some(Item::Frequency(value)))),
        NumberUse::AnchorKey => Ok((s, Some(Item::AnchorKey(value)))),
        NumberUse::Amount(form) => Ok((s, Some(Item::Amount(form, value)))),
        NumberUse::Key => name_key(s, value, Item::Key(value), x),
        NumberUse::StarredKey => name_key(s, value, Item::StarredKey(value), x),
        NumberUse::Argument => add_bracketed(s, Item::Argument(value), x),
    }
}

// The number from `start` to `end` is used at the symbol `x`.
fn read_number(
    text: &[u8],
    s: Progress,
    purpose: NumberUse,
    start: u32,
    end: u32,
    x: Span,
) -> Outcome
    requires { room_for_term s }
    ensures { result ≡ numbered text.now s purpose start end x }
{
    let Some(value) = judge(text, purpose, start as usize, end as usize) else {
        return Err(Refusal {
            reason: Reason::NumberOutOfRange,
            place: start,
        });
    };
    use_number(s, purpose, value, x)
}

// What an action does at the symbol `x`.
#[tactic(auto, unfolding(crate::specs::Reading::acted))]
pub fn act(text: &[u8], s: Progress, action: Action, x: Span) -> Outcome
    requires { room_for_term s }
    ensures { result ≡ acted text.now s action x }
{
    match action {
        Action::Pass => Ok((s, None)),
        Action::Declare(kind) => declare(s, kind, x),
        Action::Hold => Ok((hold_number(s, x), None)),
        Action::Held(purpose) => read_number(text, s, purpose, s.first.start, s.first.end, x),
        Action::Number(purpose) => read_number(text, s, purpose, x.start, x.end, x),
        Action::Sign(minus) => begin_term(s, minus, x),
        Action::Name(purpose) => use_name(s, purpose, x),
        Action::Mark(purpose) => use_mark(s, purpose, x),
        Action::Letter => Ok((s, Some(Item::Letter(read_letter(text, x))))),
        Action::CountOrder => count_order(s, x),
    }
}
