// The row of a declaration, by the item that it begins with, and what belongs to the row.
ghost use Rattle.std.specs.Prelude.{◌≡◌, [], ◌∷◌, ◌+◌, ◌≤◌, ◌<◌, pos, length};
ghost use Rattle.tables.specs.Layout.{tables_in, triggers_in, calls_in, most_rows, most_orders, sounding_of, pitch_of, change_code, change_number};
ghost use Rattle.program.specs.Program.{asking, form_of, declaration_of, period_of, tones, grouped, start_of, orders_of, keys_of};
ghost use Rattle.harmonies.specs.Harmonies.{harmony_of};
ghost use Rattle.tables.specs.Values.{Slices};
ghost use Rattle.program.specs.Allowed.{Each};
ghost use Rattle.filling.specs.Tables.{tones_of, changes_of, trigger_code, row_of};
ghost use Rattle.filling.specs.Inner.{value_in, trigger_by, trigger_of, call_of, called_by, FitValue, FitLogic, FitKey, FitParts, Writable, Stored, row_after, plain_row, RowedIn, AddedIn, counted_by};

use crate::harmony::read_harmony;
use crate::lists;
use crate::readers::{interval_at, pitch_at};
use crate::sums::sum_terms;
use crate::triggers::{Trigger, code_of, read_trigger};
use cents::KeyNumber;
use grammar::{Form, Item};
use tables::{
    CHANGES_AT, CODES, Counts, KINDS_AT, NUMBERS, ORDERS_AT, Row, SOUNDING_AT, TONES_AT, encode,
};
use tuning::{Amount, Operator, PeriodChange, Retuning};
use valuation::skip_names;

// The row of a retuning with no list.
fn make_retuning(retuning: Retuning) -> Row
    ensures { result ≡ Row.Retuning retuning 0 0 }
{
    Row::Retuning {
        retuning,
        from: 0,
        to: 0,
    }
}

// The row of an anchor or width retuning with its n.
fn make_asking(form: Form, n: u16) -> Row
    ensures { result ≡ plain_row (pos 0) (asking form n) }
{
    match form {
        Form::AnchorTo => make_retuning(Retuning::Anchor(Amount::Absolute(n))),
        Form::AnchorUp => make_retuning(Retuning::Anchor(Amount::Relative(Operator::Plus, n))),
        Form::AnchorDown => make_retuning(Retuning::Anchor(Amount::Relative(Operator::Minus, n))),
        Form::WidthTo => make_retuning(Retuning::Width(Amount::Absolute(n))),
        Form::WidthUp => make_retuning(Retuning::Width(Amount::Relative(Operator::Plus, n))),
        Form::WidthDown => make_retuning(Retuning::Width(Amount::Relative(Operator::Minus, n))),
        Form::WidthTimes => make_retuning(Retuning::Width(Amount::Relative(Operator::Times, n))),
        Form::WidthOver => make_retuning(Retuning::Width(Amount::Relative(Operator::Divide, n))),
    }
}

// The row of a declaration with no list and no sum of its own.
fn make_plain(item: Item, values: &[i64], row: usize) -> Row
    requires fit_value { FitValue values.now row }
    requires fit_parts { FitParts values.now (form_of (item ∷ [])) }
    ensures { result ≡ plain_row (value_in values.now row) (form_of (item ∷ [])) }
{
    match item {
        Item::Frequency(_) => Row::Tone(pitch_at(values, row)),
        Item::Base(_) => Row::Tone(pitch_at(values, row)),
        Item::AnchorKept => make_retuning(Retuning::Anchor(Amount::Kept)),
        Item::WidthKept => make_retuning(Retuning::Width(Amount::Kept)),
        Item::Amount(form, n) => make_asking(form, n as u16),
        Item::AmountName(_, _) => Row::Pattern,
        _ => Row::Interval(interval_at(values, row)),
    }
}

// The row of a period retuning: its items after `[ ]`.
fn read_period(items: &[Item], values: &[i64]) -> Row
    requires { FitParts values.now (period_of items.now) }
    ensures { result ≡ row_of (value_in values.now) 0 0 0 0 (period_of items.now) }
{
    let sum = sum_terms(items, values).to_interval();
    let fresh = make_retuning(Retuning::Period(PeriodChange::Fresh(sum)));
    let Some((first, _)) = items.split_first() else {
        return fresh;
    };
    let Item::Onward = *first else {
        return fresh;
    };
    make_retuning(Retuning::Period(PeriodChange::Onward(sum)))
}

// Writes the positions of a tone system, by its items after its anchor. Answers its row.
fn write_system(
    items: &[Item],
    values: &[i64],
    key: u32,
    used: Counts,
    sounding: &mut [u16],
    tones: &mut [i32],
) -> Row
    requires { Writable values.now used (form_of (Item.AnchorKey key ∷ items.now)) }
    ensures value { result ≡ row_after (value_in values.now) used (form_of (Item.AnchorKey key ∷ items.now)) }
    ensures stored { Stored sounding_of pitch_of (tones_of (value_in values.now) (form_of (Item.AnchorKey key ∷ items.now))) used.tones sounding.old tones.old sounding.new tones.new }
{
    let end = lists::write_positions(items, values, sounding, tones, used.tones as usize);
    Row::System {
        anchor: KeyNumber(key as u8),
        period: interval_at(values, used.rows as usize),
        from: used.tones,
        to: end as u32,
    }
}

// Writes the positions of a tones retuning. Answers its row.
fn write_tones(
    items: &[Item],
    values: &[i64],
    used: Counts,
    kinds: &mut [u16],
    changes: &mut [i32],
) -> Row
    requires { Writable values.now used (tones (grouped items.now).positions) }
    ensures value { result ≡ row_after (value_in values.now) used (tones (grouped items.now).positions) }
    ensures stored { Stored change_code change_number (changes_of (value_in values.now) (tones (grouped items.now).positions)) used.changes kinds.old changes.old kinds.new changes.new }
{
    let end = lists::write_changes(items, values, kinds, changes, used.changes as usize);
    Row::Retuning {
        retuning: Retuning::Tones,
        from: used.changes,
        to: end as u32,
    }
}

// Writes the orders of a logic, by its items after its trigger. Answers its row.
fn write_logic(items: &[Item], trigger: Trigger, used: Counts, orders: &mut [u16]) -> Row
    requires fit_logic { FitLogic (trigger_by trigger) (start_of items.now) (orders_of items.now) }
    requires to_bound { used.orders + length (orders_of items.now) ≤ most_orders }
    ensures value { result ≡ Row.Logic (trigger_code (trigger_by trigger)) (called_by (start_of items.now)) used.orders (used.orders + length (orders_of items.now)) }
    ensures stored { Stored trigger_of call_of (orders_of items.now) used.orders (triggers_in orders.old) (calls_in orders.old) (triggers_in orders.new) (calls_in orders.new) }
{
    let end = lists::write_orders(items, orders, used.orders as usize);
    Row::Logic {
        trigger: code_of(trigger),
        start: lists::find_start(items),
        from: used.orders,
        to: end as u32,
    }
}

// The row of a harmony of these keys.
fn make_harmony(items: &[Item]) -> Row
    requires { Each FitKey (keys_of items.now) }
    ensures { result ≡ Row.Harmony (harmony_of (keys_of items.now)).needed (harmony_of (keys_of items.now)).named }
{
    let harmony = read_harmony(items);
    Row::Harmony {
        needed: harmony.needed,
        named: harmony.named,
    }
}

// How many rows, tones, changes and orders there are with a row more.
fn count_row(used: Counts, row: Row) -> Counts
    requires { used.rows < most_rows }
    ensures { result ≡ counted_by used row }
{
    let mut next = used;
    next.rows = used.rows + 1;
    match row {
        Row::System {
            anchor: _,
            period: _,
            from: _,
            to,
        } => next.tones = to,
        Row::Retuning {
            retuning,
            from: _,
            to,
        } => {
            if let Retuning::Tones = retuning {
                next.changes = to;
            }
        }
        Row::Logic {
            trigger: _,
            start: _,
            from: _,
            to,
        } => next.orders = to,
        _ => {}
    }
    next
}

// Writes the tones, changes or orders of the declaration of these items. Answers its row.
fn write_lists(
    items: &[Item],
    values: &[i64],
    used: Counts,
    numbers: &mut [i32],
    codes: &mut [u16],
) -> Row
    requires slices { Slices numbers.old codes.old }
    requires writable { Writable values.now used (form_of items.now) }
    ensures { RowedIn (value_in values.now) used (form_of items.now) (tables_in numbers.old codes.old) result (tables_in numbers.new codes.new) }
{
    let row = used.rows as usize;
    let Some((item, rest)) = items.split_first() else {
        return Row::Interval(interval_at(values, row));
    };
    if lists::is_position(*item) {
        let kinds = &mut codes[KINDS_AT..ORDERS_AT];
        let changes = &mut numbers[CHANGES_AT..NUMBERS];
        return write_tones(items, values, used, kinds, changes);
    }
    if let Some(trigger) = read_trigger(*item) {
        let orders = &mut codes[ORDERS_AT..CODES];
        return write_logic(rest, trigger, used, orders);
    }
    match *item {
        Item::AnchorKey(key) => {
            let sounding = &mut codes[SOUNDING_AT..KINDS_AT];
            let tones = &mut numbers[TONES_AT..CHANGES_AT];
            write_system(rest, values, key, used, sounding, tones)
        }
        Item::Period => read_period(rest, values),
        Item::Onward => read_period(items, values),
        Item::Key(_) => make_harmony(items),
        Item::StarredKey(_) => make_harmony(items),
        _ => make_plain(*item, values, row),
    }
}

// Writes the declaration of these parts: its row, and what belongs to it. Answers how many there are then.
fn write_parts(
    items: &[Item],
    values: &[i64],
    used: Counts,
    numbers: &mut [i32],
    codes: &mut [u16],
) -> Counts
    requires slices { Slices numbers.old codes.old }
    requires writable { Writable values.now used (form_of items.now) }
    ensures { AddedIn (value_in values.now) used (form_of items.now) (tables_in numbers.old codes.old) result (tables_in numbers.new codes.new) }
{
    let row = write_lists(items, values, used, numbers, codes);
    encode::store_row(&mut numbers[0..TONES_AT], used.rows as usize, row);
    count_row(used, row)
}

// The same of all its items, of which the names of its placeholders come first.
pub fn write_declaration(
    items: &[Item],
    values: &[i64],
    used: Counts,
    numbers: &mut [i32],
    codes: &mut [u16],
) -> Counts
    requires slices { Slices numbers.old codes.old }
    requires writable { Writable values.now used (declaration_of items.now) }
    ensures { AddedIn (value_in values.now) used (declaration_of items.now) (tables_in numbers.old codes.old) result (tables_in numbers.new codes.new) }
{
    write_parts(skip_names(items), values, used, numbers, codes)
}
