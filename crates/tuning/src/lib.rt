// The tuning state: anchor, width, tones and period, as a value; the pitch of a key; which states are valid.
#![tactic(auto)]

pub mod calls;

ghost use Rattle.std.specs.Prelude.{◌≡◌, true, not, map, ◌≤◌, ◌<◌, ◌+◌, nat_abs, drop, take};
ghost use Rattle.limits.specs.Limits.{most_anchor, most_positions};
ghost use Rattle.cents.specs.Passages.{most_key};
ghost use Rattle.tuning.specs.Tuning.{raised, sound_of, start};
ghost use Rattle.tuning.specs.Desk.{cents, between, is_period, is_playable, playable, is_muted, beyond, any_beyond};
ghost use Rattle.tuning.specs.State.{heard, held, tone_of, coded, valid_state, all_muted};
ghost use Rattle.tuning.specs.Inner.{located_at, size, farthest_sound};

use cents::{Interval, KeyNumber, KeySteps, Pitch};
use limits::{FARTHEST_TONE, HIGHEST_PITCH, LONGEST_PERIOD, MOST_ANCHOR, MOST_POSITIONS};

// How many positions a state has room for, and the width that takes them all.
pub const PLACES: usize = MOST_POSITIONS as usize;

// An interval this far takes every tone and every period out of its range, and so does any that is farther.
pub const FARTHEST_SUM: i32 = 2 * FARTHEST_TONE + 1;

// The start: its anchor, its width, the pitch of its first tone, an octave and its twelfth part.
const START_KEY: KeyNumber = KeyNumber(60);

const START_WIDTH: u8 = 12;

const START_PITCH: Pitch = Pitch(6_000_000);

const OCTAVE: Interval = Interval(1_200_000);

const SEMITONE: Interval = Interval(100_000);

// A tone of a state: a pitch, or muted.
// Kept as it is: an Option of a pitch can't have the methods of a tone, and a struct round one is no plainer.
#[derive(Clone, Copy, PartialEq, Eq)]
pub enum Tone {
    Muted,
    At(Pitch),
}

// The tones of the positions, and muted ones in the places past the width.
#[derive(Clone, Copy, PartialEq, Eq)]
pub struct State {
    pub anchor: KeyNumber,
    pub width: u8,
    pub tones: [Tone; PLACES],
    pub period: Interval,
}

// A state, and the number of the call that left it.
// Kept as it is: a call that is refused hands the state back too, so no Result of a state or a number says it.
#[derive(Clone, Copy)]
pub struct Reply {
    pub state: State,
    pub number: u8,
}

// Where a key stands: its position, and how many periods up.
#[derive(Clone, Copy)]
pub struct Located {
    pub position: usize,
    pub periods: i32,
}

#[derive(Clone, Copy)]
pub enum Operator {
    Plus,
    Minus,
    Times,
    Divide,
}

// An anchor or a width: a number, `@`, or `@` with an operator and a number.
#[derive(Clone, Copy)]
pub enum Amount {
    Kept,
    Absolute(u16),
    Relative(Operator, u16),
}

// A new period, or an interval onto the old one.
#[derive(Clone, Copy)]
pub enum PeriodChange {
    Fresh(Interval),
    Onward(Interval),
}

// What a position of a tones retuning says of the tone there.
#[derive(Clone, Copy, PartialEq, Eq)]
pub enum ToneChange {
    Mute,
    Move(Interval),
    Set(Pitch),
}

// The positions of a tones retuning: the first `count`.
#[derive(Clone, Copy)]
pub struct ToneChanges {
    pub count: u8,
    pub positions: [ToneChange; PLACES],
}

// The four kinds. The positions of a tones retuning are beside it: a row of the tables has the kind, and says where its positions stand in a list of their own.
#[derive(Clone, Copy)]
pub enum Retuning {
    Anchor(Amount),
    Width(Amount),
    Period(PeriodChange),
    Tones,
}

// "x - a = q·w + r with r from 0 to w-1"
fn locate(steps: KeySteps, width: u8) -> Located
    requires { (0 < width) × (nat_abs steps.0 ≤ most_key) }
    ensures { result ≡ located_at steps.0 width }
{
    let width = width as i32;
    Located {
        position: steps.0.rem_euclid(width) as usize,
        periods: steps.0.div_euclid(width),
    }
}

fn is_between(low: i32, high: i32, z: i32) -> bool
    ensures { result ≡ between low high z }
{
    (low..=high).contains(&z)
}

impl Tone {
    // The tone `by` higher.
    pub fn raise(self, by: Interval) -> Tone
        requires { size self + nat_abs by.0 ≤ 2_100_000_000 }
        ensures { result ≡ tone_of (raised cents by.0 (heard self)) }
    {
        match self {
            Tone::Muted => Tone::Muted,
            Tone::At(p) => Tone::At(p.shift(by)),
        }
    }

    pub fn is_muted(self) -> bool
        ensures { result ≡ is_muted (heard self) }
    {
        matches!(self, Tone::Muted)
    }

    // Whether a state may have this tone.
    pub fn is_allowed(self) -> bool
        ensures { result ≡ not (beyond (heard self)) }
    {
        match self {
            Tone::Muted => true,
            Tone::At(p) => is_between(-FARTHEST_TONE, FARTHEST_TONE, p.0),
        }
    }

    // What an instrument has of this sound.
    pub fn playable(self) -> Tone
        ensures { result ≡ tone_of (playable (heard self)) }
    {
        match self {
            Tone::At(p) if is_playable(p) => self,
            _ => Tone::Muted,
        }
    }
}

// Whether an instrument has this pitch.
pub fn is_playable(p: Pitch) -> bool
    ensures { result ≡ is_playable p.0 }
{
    is_between(0, HIGHEST_PITCH, p.0)
}

// Whether a state may have this period.
pub fn is_period(p: Interval) -> bool
    ensures { result ≡ is_period p.0 }
{
    is_between(0, LONGEST_PERIOD, p.0)
}

impl State {
    // What a key sounds: x may be a+v, past the keyboard's end.
    pub fn sound_of(self, key: KeyNumber) -> Tone
        requires { (valid_state self ≡ true) × (key.0 ≤ self.anchor.0 + most_anchor) }
        ensures { (result ≡ tone_of (sound_of cents (held self) key.0)) × (size result ≤ farthest_sound) }
    {
        let place = locate(key.distance(self.anchor), self.width);
        self.tones[place.position].raise(self.period.times(place.periods))
    }

    // Whether the tones in use are in their range.
    fn has_allowed_tones(&self) -> bool
        requires { self.now.width ≤ most_positions }
        ensures { result ≡ not (any_beyond (held self.now).tones) }
    {
        let used = &self.tones[..self.width as usize];
        used.iter().all(|tone| tone.is_allowed())
    }

    // Whether the places past the width are unused: all are looked at with no branch, since this runs at each frame.
    fn has_muted_rest(&self) -> bool
        requires { self.now.width ≤ most_positions }
        ensures { result ≡ all_muted (map heard (drop self.now.width self.now.tones)) }
    {
        let unused = &self.tones[self.width as usize..];
        unused.iter().fold(true, |all, tone| all & tone.is_muted())
    }

    // Whether every number is in its range, and the unused places are zero.
    #[tactic(auto, unfolding(crate::specs::State::valid_state))]
    pub fn is_valid(self) -> bool
        ensures { result ≡ valid_state self }
    {
        self.anchor.0 <= MOST_ANCHOR
            && 1 <= self.width
            && self.width <= MOST_POSITIONS
            && is_period(self.period)
            && self.has_allowed_tones()
            && self.has_muted_rest()
    }

    // "At the start: anchor 60, width 12, t(i) = 6,000,000 + 100,000·i, P = 1,200,000"
    pub fn start() -> State
        ensures { result ≡ coded (start cents) }
    {
        let mut tones = [Tone::Muted; PLACES];
        for i in 0..START_WIDTH {
            tones[i as usize] = Tone::At(START_PITCH.shift(SEMITONE.times(i as i32)));
        }
        State {
            anchor: START_KEY,
            width: START_WIDTH,
            tones,
            period: OCTAVE,
        }
    }
}
