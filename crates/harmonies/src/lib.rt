// Chords and harmonies: the positions that the held keys are projected to, and whether a harmony matches them.
#![tactic(auto)]

ghost use Rattle.std.specs.Prelude.{◌≡◌, cond, ◌+◌, ◌*◌, ◌%◌, ◌^◌, ◌≤◌, ◌<◌, eqb};
ghost use Rattle.limits.specs.Limits.{most_anchor, most_positions};
ghost use Rattle.sets.specs.Sets.{added};
ghost use Rattle.keys.specs.Keys.{word_size, key_count};
ghost use Rattle.tuning.specs.Tuning.{position_in};
ghost use Rattle.harmonies.specs.Harmonies.{chord_of, matches};
ghost use Rattle.harmonies.specs.Inner.{DownFrom, Joined};

use cents::KeyNumber;
use keys::HeldKeys;

// The first key of the lower and of the upper half of a keyboard.
const LOWER: KeyNumber = KeyNumber(0);

const UPPER: KeyNumber = KeyNumber(64);

// A harmony: the positions that must be held, and all that it names. The others of these have a star.
#[derive(Clone, Copy)]
pub struct Harmony {
    pub needed: u64,
    pub named: u64,
}

// The r of a key, "x - a = q·w + r".
fn position_of(key: KeyNumber, anchor: KeyNumber, width: u8) -> u8
    requires { (key.0 < key_count) × (anchor.0 ≤ most_anchor) × (1 ≤ width) }
    ensures { (result ≡ position_in anchor.0 width key.0) × (result < width) }
{
    let above = key.distance(anchor).0;
    above.rem_euclid(width as i32) as u8
}

// The position of the next key.
fn next_position(r: u8, width: u8) -> u8
    requires { r < width }
    ensures { result ≡ (r + 1) % width }
{
    if r + 1 == width {
        return 0;
    }
    r + 1
}

// The chord, with position r where the first of the keys is held.
fn with_position(chord: u64, r: u8, keys: u64) -> u64
    requires { r < 64 }
    ensures { result ≡ cond (eqb (keys % 2) 1) (added chord r) chord }
{
    let first = keys % 2;
    chord | (first << r)
}

// The keys of a half that either house holds.
fn keys_down(held: HeldKeys, half: u8) -> u64
    requires { half < 2 }
    ensures { DownFrom held (half * word_size) result }
{
    held.held_in_half(1, half) | held.held_in_half(2, half)
}

// The chord and the positions of a set of keys, of which the first is at position `first`.
fn join(chord: u64, keys: u64, first: u8, width: u8) -> u64
    requires { (chord < 2 ^ most_positions) × (first < width) × (width ≤ most_positions) }
    ensures { Joined chord keys first width result }
{
    let mut joined = chord;
    let mut left = keys;
    let mut r = first;
    // Kept as it is: it counts no index, and ends with the last key that is down; a `for` over all 64 keys of the half runs on past it.
    while left != 0 {
        joined = with_position(joined, r, left);
        r = next_position(r, width);
        left /= 2;
    }
    joined
}

// The positions of the held keys.
pub fn project(held: HeldKeys, anchor: KeyNumber, width: u8) -> u64
    requires { (anchor.0 ≤ most_anchor) × (1 ≤ width) × (width ≤ most_positions) }
    ensures { (result ≡ chord_of held anchor.0 width) × (result < 2 ^ most_positions) }
{
    let lower = join(
        0,
        keys_down(held, 0),
        position_of(LOWER, anchor, width),
        width,
    );
    join(
        lower,
        keys_down(held, 1),
        position_of(UPPER, anchor, width),
        width,
    )
}

// Whether a harmony matches a chord.
pub fn matches_chord(harmony: Harmony, chord: u64, width: u8) -> bool
    requires { (chord < 2 ^ most_positions) × (harmony.needed < 2 ^ most_positions) × (harmony.named < 2 ^ most_positions) × (width ≤ most_positions) }
    ensures { result ≡ matches chord width harmony }
{
    let needed = harmony.needed;
    let named = harmony.named;
    ((chord & named) == chord) & ((needed & chord) == needed) & ((named >> width) == 0)
}
