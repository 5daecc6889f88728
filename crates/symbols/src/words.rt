// Reserved words.
ghost use Rattle.std.specs.Prelude.{◌≡◌};
ghost use Rattle.std.proofs.Math.Seq.{slice};
ghost use Rattle.symbols.specs.Names.{spelled};
ghost use Rattle.symbols.specs.Words.{word_of};
ghost use Rattle.symbols.specs.Inner.{row_of};

use crate::bytes;

// What a name is: a reserved word, or plain.
#[derive(Clone, Copy)]
pub enum Word {
    Plain,
    Interval,
    Tone,
    ToneSystem,
    Retuning,
    Logic,
    Key,
    Root,
    Harmony,
    // Reserved, and of no use here.
    Unused,
}

// The reserved words.
static WORDS: [(&[u8], Word); 25] = [
    (b"interval", Word::Interval),
    (b"intervall", Word::Interval),
    (b"tone", Word::Tone),
    (b"ton", Word::Tone),
    (b"tonesystem", Word::ToneSystem),
    (b"tonsystem", Word::ToneSystem),
    (b"retuning", Word::Retuning),
    (b"umstimmung", Word::Retuning),
    (b"logic", Word::Logic),
    (b"logik", Word::Logic),
    (b"key", Word::Key),
    (b"taste", Word::Key),
    (b"root", Word::Root),
    (b"wurzel", Word::Root),
    (b"else", Word::Unused),
    (b"ansonsten", Word::Unused),
    (b"shifted", Word::Unused),
    (b"pattern", Word::Unused),
    (b"form", Word::Unused),
    (b"harmony", Word::Harmony),
    (b"harmonie", Word::Harmony),
    (b"midiin", Word::Unused),
    (b"midiout", Word::Unused),
    (b"midichannel", Word::Unused),
    (b"midikanal", Word::Unused),
];

// Where the one word stands that a name can be, by its first letter, its last and its length; past the words where it can be none.
static ROWS: [u8; 64] = *b"\
    \x07\x19\x19\x05\x04\x19\x19\x19\x19\x18\x15\x17\x19\x0a\x12\x19\
    \x19\x19\x14\x19\x19\x19\x0d\x16\x19\x19\x19\x19\x19\x19\x19\x19\
    \x19\x19\x19\x11\x19\x19\x06\x10\x00\x01\x19\x08\x19\x0f\x02\x0b\
    \x19\x19\x19\x19\x19\x19\x0e\x19\x19\x13\x19\x09\x0c\x19\x19\x03";

// What the name from `start` to `end` is.
pub fn word_at(text: &[u8], start: usize, end: usize) -> Word
    ensures { result ≡ word_of (spelled (slice start end text.now)) }
{
    let name = bytes::part(text, start, end);
    match WORDS.get(row_of(name)) {
        Some((word, kind)) if word.eq_ignore_ascii_case(name) => *kind,
        _ => Word::Plain,
    }
}

// The row of the only word that the name can be.
fn row_of(name: &[u8]) -> usize
    ensures { result ≡ row_of (spelled name.now) }
{
    let first = name.first().copied().unwrap_or(0).to_ascii_lowercase() as usize;
    let last = name.last().copied().unwrap_or(0).to_ascii_lowercase() as usize;
    ROWS[(8 * first + 2 * last + name.len() % 64) % 64] as usize
}
