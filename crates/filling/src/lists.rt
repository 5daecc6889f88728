// The tones, changes and orders that belong to rows, each list written after what its table has already.
ghost use Rattle.std.specs.Prelude.{◌≡◌, [], map, ◌+◌, ◌≤◌, ◌<◌, ◌^◌, length};
ghost use Rattle.std.specs.Option.{option_map};
ghost use Rattle.tables.specs.Layout.{triggers_in, calls_in, most_tones, most_changes, most_orders, sounding_of, pitch_of, change_code, change_number};
ghost use Rattle.names.specs.Parts.{part};
ghost use Rattle.program.specs.Program.{system_position_then, system_positions_of, grouped, terms_of, ordered, orders_of, start_of};
ghost use Rattle.program.specs.Allowed.{Each};
ghost use Rattle.filling.specs.Tables.{sum_of, tone_of, change_of};
ghost use Rattle.filling.specs.Inner.{value_in, begins, position_by, order_by, order_read, trigger_of, call_of, called_by, found, Summable, FitSystemPosition, FitPosition, FitOrder, Appended};

use crate::readers::pitch_at;
use crate::sums::{Sum, sum_terms};
use crate::triggers::{Trigger, code_of, read_trigger};
use grammar::Item;
use tables::encode;
use tuning::{Tone, ToneChange};

// An order of a logic: its trigger, and what it calls.
#[derive(Clone, Copy)]
struct Order {
    trigger: Trigger,
    calls: u32,
}

// The tone that a position of a tone system is.
fn read_tone(item: Item, values: &[i64]) -> Option<Tone>
    requires { Each (FitSystemPosition values.now) (system_position_then (part item) []) }
    ensures { found result ≡ map (tone_of (value_in values.now)) (system_position_then (part item) []) }
{
    match item {
        Item::MutedPosition => Some(Tone::Muted),
        Item::TonePosition(k) => Some(Tone::At(pitch_at(values, k as usize))),
        _ => None,
    }
}

// Writes the positions of a tone system. Answers how many tones there are then.
pub fn write_positions(
    items: &[Item],
    values: &[i64],
    sounding: &mut [u16],
    tones: &mut [i32],
    at: usize,
) -> usize
    requires each { Each (FitSystemPosition values.now) (system_positions_of items.now) }
    requires to_bound { at + length (system_positions_of items.now) ≤ most_tones }
    ensures { Appended sounding_of pitch_of (map (tone_of (value_in values.now)) (system_positions_of items.now)) at sounding.old tones.old result sounding.new tones.new }
{
    let mut count = at;
    for item in items {
        let Some(tone) = read_tone(*item, values) else {
            continue;
        };
        encode::store_tone(sounding, tones, count, tone);
        count += 1;
    }
    count
}

// Whether a position of a tones retuning begins with an item.
pub fn is_position(item: Item) -> bool
    ensures { result ≡ begins (part item) }
{
    matches!(
        item,
        Item::MutedPosition | Item::KeptPosition | Item::TonePosition(_)
    )
}

// The items in front of the next position: its terms are those of the present one.
fn group_of(items: &[Item]) -> &[Item]
    ensures { terms_of result.now ≡ (grouped items.now).before }
{
    let end = items
        .iter()
        .position(|item| is_position(*item))
        .unwrap_or(items.len());
    &items[..end]
}

// The sum of the terms up to the next position.
fn sum_group(items: &[Item], values: &[i64]) -> Sum
    requires { Summable values.now (grouped items.now).before }
    ensures { result.0 ≡ sum_of (value_in values.now) (grouped items.now).before }
{
    sum_terms(group_of(items), values)
}

// The change of the position that begins with an item, if one does.
fn read_change(item: Item, after: &[Item], values: &[i64]) -> Option<ToneChange>
    requires { Each (FitPosition values.now) (position_by (part item) (grouped after.now).before) }
    ensures { found result ≡ map (change_of (value_in values.now)) (position_by (part item) (grouped after.now).before) }
{
    match item {
        Item::MutedPosition => Some(ToneChange::Mute),
        Item::KeptPosition => Some(ToneChange::Move(sum_group(after, values).to_interval())),
        Item::TonePosition(k) => {
            let sum = sum_group(after, values);
            Some(ToneChange::Set(sum.shift(pitch_at(values, k as usize))))
        }
        _ => None,
    }
}

// Writes the positions of a tones retuning. Answers how many changes there are then.
pub fn write_changes(
    items: &[Item],
    values: &[i64],
    kinds: &mut [u16],
    changes: &mut [i32],
    at: usize,
) -> usize
    requires each { Each (FitPosition values.now) (grouped items.now).positions }
    requires to_bound { at + length (grouped items.now).positions ≤ most_changes }
    ensures { Appended change_code change_number (map (change_of (value_in values.now)) (grouped items.now).positions) at kinds.old changes.old result kinds.new changes.new }
{
    let mut count = at;
    for i in 0..items.len() {
        let Some(change) = read_change(items[i], &items[i + 1..], values) else {
            continue;
        };
        encode::store_change(kinds, changes, count, change);
        count += 1;
    }
    count
}

// The order that begins with an item, its trigger; what it calls stands right after.
fn read_order(item: Item, after: &[Item]) -> Option<Order>
    ensures { found (option_map order_read result) ≡ order_by (part item) (ordered after.now).call }
{
    let trigger = read_trigger(item)?;
    let (next, _) = after.split_first()?;
    let Item::Order(_, calls) = *next else {
        return None;
    };
    Some(Order { trigger, calls })
}

// Writes the orders of a logic. Answers how many orders there are then.
pub fn write_orders(items: &[Item], orders: &mut [u16], at: usize) -> usize
    requires each { Each FitOrder (orders_of items.now) }
    requires to_bound { at + length (orders_of items.now) ≤ most_orders }
    ensures { Appended trigger_of call_of (orders_of items.now) at (triggers_in orders.old) (calls_in orders.old) result (triggers_in orders.new) (calls_in orders.new) }
{
    let mut count = at;
    for i in 0..items.len() {
        let Some(order) = read_order(items[i], &items[i + 1..]) else {
            continue;
        };
        encode::store_order(orders, count, code_of(order.trigger), order.calls as u16);
        count += 1;
    }
    count
}

// What a logic's start calls, as its row has it.
pub fn find_start(items: &[Item]) -> u32
    requires { called_by (start_of items.now) < 2 ^ 31 }
    ensures { result ≡ called_by (start_of items.now) }
{
    for item in items {
        if let Item::Start(_, called) = *item {
            return called + 1;
        }
    }
    0
}
