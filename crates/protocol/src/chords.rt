// Chords as triggers: the first harmony that the held keys match, logics first, and what it calls.
ghost use Rattle.std.specs.Prelude.{◌≡◌, true, All};
ghost use Rattle.tuning.specs.State.{valid_state};
ghost use Rattle.keys.specs.Keys.{Place};
ghost use Rattle.tables.specs.Layout.{triggers_in, calls_in, row_of, read_at, as_logic, as_harmony};
ghost use Rattle.protocol.specs.Triggers.{matching, matches_as, passes, first_order};
ghost use Rattle.protocol.specs.Steps.{chord_on, key_moved, move_step};
ghost use Rattle.protocol.specs.Answers.{active_right, valid_desk};
ghost use Rattle.protocol.specs.Inner.{logic_for, called_in, called_by, sounds_in, first_of, Finds, ChordFits, SetsFit, Paired, Audible, AudibleLogic};
ghost use Rattle.protocol.specs.OnBoard.{tables_on};

use crate::board::logic_trigger;
use crate::triggers::Called;
use crate::{Board, Chord, Desk, Search, triggers};
use cents::KeyNumber;
use frames::Way;
use harmonies::Harmony;
use keys::HeldKeys;
use status::DONE;
use tables::{HARMONY_BASE, HARMONY_FORM, Numbers, ORDER_WIDTH, decode};

// The chord of the held keys.
fn chord_of(desk: Desk) -> Chord
    requires { valid_state desk.tuning ≡ true }
    ensures { (result ≡ chord_on desk) × ChordFits result }
{
    let s = desk.tuning;
    let width = s.width;
    let positions = harmonies::project(desk.keys, s.anchor, width);
    Chord { positions, width }
}

// Whether a row is a harmony that the chord matches. (Only its numbers are read: there is one such test for each trigger.)
fn is_matched(n: Numbers, chord: Chord) -> bool
    requires sets_fit { SetsFit (as_harmony (row_of n)) }
    requires chord_fits { ChordFits chord }
    ensures { result ≡ matches_as chord (as_harmony (row_of n)) }
{
    if n.form != HARMONY_FORM {
        return false;
    }
    let needed = decode::set_of(decode::natural(n.first), decode::natural(n.second));
    let named = decode::set_of(n.from, n.to);
    let harmony = Harmony { needed, named };
    harmonies::matches_chord(harmony, chord.positions, chord.width)
}

// Whether a trigger is a harmony that the chord matches.
fn is_sounding(rows: &[i32], trigger: u32, chord: Chord) -> bool
    requires audible { Audible rows.now trigger }
    requires chord_fits { ChordFits chord }
    ensures { result ≡ sounds_in rows.now chord trigger }
{
    if trigger < HARMONY_BASE as u32 {
        return false;
    }
    let k = trigger - HARMONY_BASE as u32;
    is_matched(decode::numbers_at(rows, k as usize), chord)
}

// Whether row i is a logic whose trigger the chord matches.
fn is_sounding_logic(rows: &[i32], i: usize, chord: Chord) -> bool
    requires audible_logic { AudibleLogic rows.now (as_logic (row_of (read_at rows.now i))) }
    requires chord_fits { ChordFits chord }
    ensures { result ≡ passes (sounds_in rows.now chord) (as_logic (row_of (read_at rows.now i))) }
{
    match logic_trigger(decode::numbers_at(rows, i)) {
        Some(trigger) => is_sounding(rows, trigger, chord),
        None => false,
    }
}

// The trigger of the first order that the chord matches.
fn find_sounding(rows: &[i32], orders: &[u16], chord: Chord) -> Option<u16>
    requires paired { Paired orders.now }
    requires audible { All (Audible rows.now) (triggers_in orders.now) }
    requires chord_fits { ChordFits chord }
    ensures { result ≡ first_of (sounds_in rows.now chord) (triggers_in orders.now) }
{
    for order in orders.chunks_exact(ORDER_WIDTH) {
        let trigger = order[0];
        if is_sounding(rows, trigger as u32, chord) {
            return Some(trigger);
        }
    }
    None
}

// What the first order that the chord matches calls.
fn find_order(rows: &[i32], orders: &[u16], chord: Chord) -> Option<Called>
    requires paired { Paired orders.now }
    requires audible { All (Audible rows.now) (triggers_in orders.now) }
    requires chord_fits { ChordFits chord }
    ensures { result ≡ called_in rows.now (first_order (sounds_in rows.now chord) (triggers_in orders.now) (calls_in orders.now)) }
{
    let code = find_sounding(rows, orders, chord)?;
    triggers::find_order(rows, orders, code)
}

// A key goes down or up: the held keys then, or the number that it is refused with.
fn move_key(held: HeldKeys, way: Way, house: u8, key: KeyNumber) -> Result<HeldKeys, u8>
    requires { Place house key.0 }
    ensures { result ≡ key_moved way held house key.0 }
{
    match way {
        Way::Down => held.press(house, key),
        Way::Up => held.release(house, key),
    }
}

impl Board<'_> {
    // The first logic whose trigger the chord matches, by the index: only logics whose trigger is a harmony are tried.
    fn find_logic(&self, chord: Chord) -> Option<u32>
        requires { ChordFits chord }
        ensures { result ≡ logic_for (tables_on self.now) (matching chord) }
    {
        let rows = self.tables.rows();
        let mut next = self.index.chords[0];
        while let Some(i) = next {
            if is_sounding_logic(rows, i as usize, chord) {
                return next;
            }
            next = self.index.chords[i as usize + 1];
        }
        None
    }

    // What the chord calls: a logic, else by an order of the active logic.
    fn find_called(&self, active: Option<u32>, chord: Chord) -> Option<Called>
        requires active_value { active_right (tables_on self.now) active ≡ true }
        requires chord_fits { ChordFits chord }
        ensures { result ≡ called_by (tables_on self.now) active (matching chord) }
    {
        match self.find_logic(chord) {
            Some(i) => Some(Called::Logic(i)),
            None => find_order(self.tables.rows(), self.orders_of(active), chord),
        }
    }

    // What a key that goes down or up finds: its chord is looked for after it has changed.
    pub fn search_key(&self, desk: Desk, way: Way, house: u8, key: KeyNumber) -> Search
        requires desk_value { valid_desk (tables_on self.now) desk ≡ true }
        requires place { Place house key.0 }
        ensures { Finds (tables_on self.now) house desk (move_step (tables_on self.now) way house desk key.0) result }
    {
        match move_key(desk.keys, way, house, key) {
            Err(number) => Search {
                keys: desk.keys,
                found: Err(number),
            },
            Ok(keys) => {
                let chord = chord_of(desk.with_keys(keys));
                let found = self.find_called(desk.active, chord);
                Search {
                    keys,
                    found: found.ok_or(DONE),
                }
            }
        }
    }
}
