// The retunings: each call takes the state and hands it back with its number, unchanged where the number is not 0.
ghost use Rattle.std.specs.Prelude.{◌≡◌, true, map, ◌≤◌, ◌<◌, ◌+◌, nat_abs, pos, IfSome};
ghost use Rattle.std.specs.Int.Signed.{le_z};
ghost use Rattle.limits.specs.Limits.{most_anchor, most_positions, farthest_tone};
ghost use Rattle.status.specs.Status as Status;
ghost use Rattle.cents.specs.Passages.{most_key};
ghost use Rattle.tuning.specs.Scale.{Sound};
ghost use Rattle.tuning.specs.Tuning.{operated, amounts, Action, apart, reach, anchored_by, widened_by, new_tone, new_period, done};
ghost use Rattle.tuning.specs.Desk.{cents, divides_by_zero};
ghost use Rattle.tuning.specs.State.{heard, held, tone_of, coded, valid_state, replied, period_meant, tone_meant, tones_meant, meant};
ghost use Rattle.tuning.specs.Capped.{farthest_sum, capped, capped_to, capped_period};
ghost use Rattle.tuning.specs.Inner.{size, farthest_reach, interval_of};

use crate::{
    Amount, FARTHEST_SUM, Operator, PLACES, PeriodChange, Reply, Retuning, State, Tone, ToneChange,
    ToneChanges, is_between, is_period, locate,
};
use cents::{FIRST_KEY, Interval, KeyNumber, KeySteps};
use limits::{MOST_ANCHOR, MOST_POSITIONS};

const HIGHEST_KEY: i32 = MOST_ANCHOR as i32;

const WIDEST: i32 = MOST_POSITIONS as i32;

fn operate(operator: Operator, old: KeySteps, n: u16) -> KeySteps
    requires { (le_z (pos 0) old.0 ≡ true) × (nat_abs old.0 ≤ most_key) }
    ensures { result.0 ≡ operated operator (nat_abs old.0) n }
{
    match operator {
        Operator::Plus => KeySteps(old.0 + n as i32),
        Operator::Minus => KeySteps(old.0 - n as i32),
        Operator::Times => KeySteps(old.0 * n as i32),
        Operator::Divide if n == 0 => KeySteps(0),
        Operator::Divide => KeySteps((old.0 as u32 / n as u32) as i32),
    }
}

// Whether 0 stands after `/`.
fn divides_by_zero(asked: Amount) -> bool
    ensures { result ≡ divides_by_zero asked }
{
    matches!(asked, Amount::Relative(Operator::Divide, 0))
}

// The anchor, in keys above the first, or the width that is asked for, from the one that it replaces.
fn amount_of(asked: Amount, old: KeySteps) -> KeySteps
    requires { (le_z (pos 0) old.0 ≡ true) × (nat_abs old.0 ≤ most_key) }
    ensures { result.0 ≡ amounts asked (nat_abs old.0) }
{
    match asked {
        Amount::Kept => old,
        Amount::Absolute(n) => KeySteps(n as i32),
        Amount::Relative(operator, n) => operate(operator, old, n),
    }
}

// An interval that can be added to any tone or period: past the farthest sum as that.
fn cap(by: Interval) -> Interval
    ensures { (result.0 ≡ capped by.0) × (nat_abs result.0 ≤ farthest_sum) }
{
    Interval(by.0.clamp(-FARTHEST_SUM, FARTHEST_SUM))
}

impl Tone {
    // "pitch(b) - t(0)": how far the sound of a key lies above this tone, where both are heard.
    fn span_to(self, key: Tone) -> Option<Interval>
        requires { size self + size key ≤ farthest_reach }
        ensures distance { result ≡ interval_of (apart cents (heard self) (heard key)) }
        ensures near { IfSome result (λ d. nat_abs d.0 ≤ farthest_reach) }
    {
        match (self, key) {
            (Tone::At(t), Tone::At(p)) => Some(p.distance(t)),
            _ => None,
        }
    }
}

impl ToneChange {
    // The tone that a position gets in place of its old one.
    fn apply(self, old: Tone) -> Tone
        requires { size old ≤ farthest_tone }
        ensures { result ≡ tone_of (new_tone cents (capped_to (tone_meant self)) (heard old)) }
    {
        match self {
            ToneChange::Mute => Tone::Muted,
            ToneChange::Move(by) => old.raise(cap(by)),
            ToneChange::Set(p) => Tone::At(p),
        }
    }
}

impl PeriodChange {
    // The period in place of the old one.
    fn apply(self, old: Interval) -> Interval
        requires { nat_abs old.0 ≤ farthest_tone }
        ensures { result.0 ≡ new_period cents old.0 (capped_period (period_meant self)) }
    {
        match self {
            PeriodChange::Fresh(d) => d,
            PeriodChange::Onward(d) => old.plus(cap(d)),
        }
    }
}

// Kept as it is: each of these asks for a valid state. A desk is handed in with its state, valid or not, so `State` can't promise it (`valid_state` is what
// `is_valid` tests), and a type of valid states would change the public calls and copy the state once more at each frame.
impl State {
    // The distance from position 0 to the key at the other end: whole periods where that key is on position 0, muted or not.
    fn reach(&self, key: KeyNumber) -> Option<Interval>
        requires { (valid_state self.now ≡ true) × (key.0 ≤ self.now.anchor.0 + most_anchor) }
        ensures distance { result ≡ interval_of (reach cents (held self.now) key.0) }
        ensures near { IfSome result (λ d. nat_abs d.0 ≤ farthest_reach) }
    {
        let place = locate(key.distance(self.anchor), self.width);
        if place.position == 0 {
            return Some(self.period.times(place.periods));
        }
        self.tones[0].span_to(self.sound_of(key))
    }

    // The anchor at a key, and every sounding tone shifted.
    fn with_anchor(mut self, anchor: KeyNumber, by: Interval) -> State
        requires { (valid_state self ≡ true) × (nat_abs by.0 ≤ farthest_reach) }
        ensures { result ≡ coded (anchored_by cents (held self) anchor.0 (Sound.sounds by.0)) }
    {
        for i in 0..self.width as usize {
            self.tones[i] = self.tones[i].raise(by);
        }
        self.anchor = anchor;
        self
    }

    // The first v keys from the anchor on as the tones, and a new period.
    fn with_width(self, v: u8, period: Interval) -> State
        requires { (valid_state self ≡ true) × (v ≤ most_positions) }
        ensures { result ≡ coded (widened_by cents (held self) v (Sound.sounds period.0)) }
    {
        let anchor = self.anchor;
        let mut tones = [Tone::Muted; PLACES];
        for i in 0..v {
            tones[i as usize] = self.sound_of(anchor.shift(KeySteps(i as i32)));
        }
        State {
            anchor,
            width: v,
            tones,
            period,
        }
    }

    // The tones within the width and the list changed.
    fn with_tones(mut self, list: ToneChanges) -> State
        requires { valid_state self ≡ true }
        ensures { result ≡ coded (done cents (held self) (Action.tones_to (map capped_to (tones_meant list)))) }
    {
        for i in 0..self.width.min(list.count) as usize {
            self.tones[i] = list.positions[i].apply(self.tones[i]);
        }
        self
    }

    // Refused: unchanged, with the number that says why.
    fn refused(self, number: u8) -> Reply
        ensures { result ≡ record { state = self; number = number } }
    {
        Reply {
            state: self,
            number,
        }
    }

    // What a call that is taken leaves.
    fn taken(self) -> Reply
        ensures { result ≡ record { state = self; number = Status.done } }
    {
        Reply {
            state: self,
            number: status::DONE,
        }
    }

    // "Anchor to b: every sounding tone shifts by pitch(b) - t(0). Checks: 10, 13, 14."
    pub fn move_anchor(self, asked: Amount) -> Reply
        requires { valid_state self ≡ true }
        ensures { result ≡ replied self (Action.anchor_to asked) }
    {
        let b = amount_of(asked, self.anchor.distance(FIRST_KEY));
        if !is_between(0, HIGHEST_KEY, b.0) {
            return self.refused(status::ANCHOR_OUT_OF_RANGE);
        }
        let anchor = FIRST_KEY.shift(b);
        let Some(d) = self.reach(anchor) else {
            return self.refused(status::END_SILENT);
        };
        let next = self.with_anchor(anchor, d);
        if !next.has_allowed_tones() {
            return self.refused(status::TONE_OUT_OF_RANGE);
        }
        next.taken()
    }

    // "Width to v: new t(i) is the old pitch of key a+i; the new period is pitch(a+v) - t(0). Checks: 11, 13, 14, 12"; 25 before them.
    pub fn change_width(self, asked: Amount) -> Reply
        requires { valid_state self ≡ true }
        ensures { result ≡ replied self (Action.width_to asked) }
    {
        if divides_by_zero(asked) {
            return self.refused(status::DIVISION_BY_ZERO);
        }
        let v = amount_of(asked, KeySteps(self.width as i32));
        if !is_between(1, WIDEST, v.0) {
            return self.refused(status::WIDTH_OUT_OF_RANGE);
        }
        let Some(period) = self.reach(self.anchor.shift(v)) else {
            return self.refused(status::END_SILENT);
        };
        let next = self.with_width(v.0 as u8, period);
        if !next.has_allowed_tones() {
            return self.refused(status::TONE_OUT_OF_RANGE);
        }
        if !is_period(period) {
            return self.refused(status::PERIOD_OUT_OF_RANGE);
        }
        next.taken()
    }

    // "Period: P alone changes. Check: 12."
    pub fn change_period(self, change: PeriodChange) -> Reply
        requires { valid_state self ≡ true }
        ensures { result ≡ replied self (Action.period_to (period_meant change)) }
    {
        let old = self.period;
        let period = change.apply(old);
        if !is_period(period) {
            return self.refused(status::PERIOD_OUT_OF_RANGE);
        }
        State { period, ..self }.taken()
    }

    // "Tones: positions beyond the width have no effect, tones beyond the list stay. Check: 14."
    pub fn change_tones(self, list: ToneChanges) -> Reply
        requires { valid_state self ≡ true }
        ensures { result ≡ replied self (Action.tones_to (tones_meant list)) }
    {
        let next = self.with_tones(list);
        if !next.has_allowed_tones() {
            return self.refused(status::TONE_OUT_OF_RANGE);
        }
        next.taken()
    }

    // "Calling a tone system sets all four parts."
    pub fn take_system(self, system: State) -> Reply
        requires { valid_state system ≡ true }
        ensures { result ≡ replied self (Action.system (held system)) }
    {
        system.taken()
    }

    // A retuning of any kind; `list` has the positions of a tones retuning.
    pub fn retune(self, retuning: Retuning, list: ToneChanges) -> Reply
        requires { valid_state self ≡ true }
        ensures { result ≡ replied self (meant retuning list) }
    {
        match retuning {
            Retuning::Anchor(asked) => self.move_anchor(asked),
            Retuning::Width(asked) => self.change_width(asked),
            Retuning::Period(change) => self.change_period(change),
            Retuning::Tones => self.change_tones(list),
        }
    }
}
