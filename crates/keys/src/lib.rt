// The held keys of both houses, as a value: which are held, and a key that goes down or up.
#![tactic(auto)]

ghost use Rattle.std.specs.Prelude.{◌≡◌, ◌*◌, ◌/◌, ◌%◌, ◌≤◌, ◌<◌};
ghost use Rattle.keys.specs.Keys.{Place, place, word_size, no_keys, is_held, went_down, went_up};
ghost use Rattle.keys.specs.Inner.{HeldFrom};

use cents::KeyNumber;

// The keys of a house.
pub const KEYS: usize = 128;

// The keys of both houses, 64 to a word: a desk is handed on at every frame, and so few words cost little.
const WORD: usize = 64;

const WORDS: usize = 2 * KEYS / WORD;

// The sets of held keys: the first house's keys, then the second's.
#[derive(Clone, Copy, PartialEq, Eq)]
pub struct HeldKeys {
    words: [u64; WORDS],
}

// Where a house's key stands: its word, and its number in the set that the word is.
#[derive(Clone, Copy)]
struct Slot {
    word: usize,
    at: u8,
}

fn slot_of(house: u8, key: KeyNumber) -> Slot
    requires { Place house key.0 }
    ensures word { result.word ≡ place house key.0 / word_size }
    ensures at { result.at ≡ place house key.0 % word_size }
{
    let place = (house as usize - 1) * KEYS + key.0 as usize;
    Slot {
        word: place / WORD,
        at: (place % WORD) as u8,
    }
}

impl HeldKeys {
    pub fn none() -> HeldKeys
        ensures { result ≡ no_keys }
    {
        HeldKeys { words: [0; WORDS] }
    }

    pub fn is_held(self, house: u8, key: KeyNumber) -> bool
        requires { Place house key.0 }
        ensures { result ≡ is_held self house key.0 }
    {
        let slot = slot_of(house, key);
        sets::has(self.words[slot.word], slot.at)
    }

    // The keys of a house's lower or upper half that are held, counted from the half's first.
    pub fn held_in_half(self, house: u8, half: u8) -> u64
        requires { (1 ≤ house) × (house ≤ 2) × (half < 2) }
        ensures { HeldFrom self house (half * word_size) result }
    {
        let i = (house as usize - 1) * (KEYS / WORD) + half as usize;
        self.words[i]
    }

    // A key goes down: the held keys then, or the number that it is refused with.
    pub fn press(mut self, house: u8, key: KeyNumber) -> Result<HeldKeys, u8>
        requires { Place house key.0 }
        ensures { result ≡ went_down self house key.0 }
    {
        if self.is_held(house, key) {
            return Err(status::KEY_HELD);
        }
        let slot = slot_of(house, key);
        self.words[slot.word] = sets::with(self.words[slot.word], slot.at);
        Ok(self)
    }

    // A key goes up, likewise.
    pub fn release(mut self, house: u8, key: KeyNumber) -> Result<HeldKeys, u8>
        requires { Place house key.0 }
        ensures { result ≡ went_up self house key.0 }
    {
        if !self.is_held(house, key) {
            return Err(status::KEY_NOT_HELD);
        }
        let slot = slot_of(house, key);
        self.words[slot.word] = sets::without(self.words[slot.word], slot.at);
        Ok(self)
    }
}
