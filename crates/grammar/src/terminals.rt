// The terminals of the syntax.
ghost use Rattle.std.specs.Prelude.{◌≡◌};
ghost use Rattle.grammar.specs.Terminals.{terminal_number, of_word, of_mark};

use symbols::MarkKind;
use symbols::words::Word;

// The kinds of symbols that the syntax tells apart, in the order of the columns of the tables of moves.
#[derive(Clone, Copy)]
pub enum Terminal {
    Interval,
    Tone,
    ToneSystem,
    Retuning,
    Logic,
    Key,
    Root,
    Harmony,
    // A reserved word of no use here.
    Unused,
    // A name of one letter, and any other.
    Letter,
    Name,
    Number,
    Equals,
    Colon,
    Plus,
    Minus,
    Times,
    Divide,
    Opening,
    Closing,
    Comma,
    At,
    BraceOpen,
    BraceClose,
    BracketOpen,
    BracketClose,
    WidthOpen,
    WidthClose,
    Arrow,
    // The text's end, and a place where no symbol begins.
    End,
    Nothing,
}

impl Terminal {
    // Its column in the tables of moves.
    pub fn number(self) -> usize
        ensures { result ≡ terminal_number self }
    {
        self as usize
    }
}

impl From<Word> for Terminal {
    ghost from_gives = { λ word t. t ≡ of_word word };

    fn from(word: Word) -> Terminal {
        match word {
            Word::Plain => Terminal::Name,
            Word::Interval => Terminal::Interval,
            Word::Tone => Terminal::Tone,
            Word::ToneSystem => Terminal::ToneSystem,
            Word::Retuning => Terminal::Retuning,
            Word::Logic => Terminal::Logic,
            Word::Key => Terminal::Key,
            Word::Root => Terminal::Root,
            Word::Harmony => Terminal::Harmony,
            Word::Unused => Terminal::Unused,
        }
    }
}

impl From<MarkKind> for Terminal {
    ghost from_gives = { λ kind t. t ≡ of_mark kind };

    fn from(kind: MarkKind) -> Terminal {
        match kind {
            MarkKind::Equals => Terminal::Equals,
            MarkKind::Colon => Terminal::Colon,
            MarkKind::Plus => Terminal::Plus,
            MarkKind::Minus => Terminal::Minus,
            MarkKind::Times => Terminal::Times,
            MarkKind::Divide => Terminal::Divide,
            MarkKind::Open => Terminal::Opening,
            MarkKind::Close => Terminal::Closing,
            MarkKind::Comma => Terminal::Comma,
            MarkKind::At => Terminal::At,
            MarkKind::BraceOpen => Terminal::BraceOpen,
            MarkKind::BraceClose => Terminal::BraceClose,
            MarkKind::BracketOpen => Terminal::BracketOpen,
            MarkKind::BracketClose => Terminal::BracketClose,
            MarkKind::WidthOpen => Terminal::WidthOpen,
            MarkKind::WidthClose => Terminal::WidthClose,
            MarkKind::Arrow => Terminal::Arrow,
        }
    }
}
