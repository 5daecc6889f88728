// What frames are played on: right tables, and the index of their logics.
ghost use Rattle.std.specs.Prelude.{◌≡◌, true, ℕ, ◌≤◌, ◌+◌, None, replicate};
ghost use Rattle.tables.specs.Layout.{tables_in, harmony_base, most_rows, triggers_in, calls_in};
ghost use Rattle.tables.specs.Lent.{tables_of};
ghost use Rattle.validity.specs.Valid.{valid_tables};
ghost use Rattle.protocol.specs.Answers.{active_right};
ghost use Rattle.protocol.specs.Inner.{logic_trigger, Indexed, IndexOf, OrdersOf};

use tables::{HARMONY_BASE, LOGIC_FORM, Numbers, ORDER_WIDTH, ROWS, Row, Tables, decode};

// One place for each letter's code.
const LETTERS: usize = HARMONY_BASE as usize;

// One for each row that a program can have, and one behind the last.
const PLACES: usize = ROWS + 1;

// Where the logics stand: of each letter the first logic with it; and of each row, and of the place behind the last, the first row from it on that is a
// logic whose trigger is a harmony.
#[derive(Clone, Copy)]
pub struct Index {
    pub letters: [Option<u32>; LETTERS],
    pub chords: [Option<u32>; PLACES],
}

// No frame changes the tables, so a stream tests and indexes them once.
#[derive(Clone, Copy)]
pub struct Board<'a> {
    pub tables: Tables<'a>,
    pub index: Index,
    pub ghost right: { valid_tables (tables_of tables) ≡ true },
    pub ghost indexed: { IndexOf (tables_of tables) index },
}

// The trigger of a row that is a logic.
pub fn logic_trigger(n: Numbers) -> Option<u32>
    ensures { result ≡ logic_trigger n }
{
    if n.form != LOGIC_FORM {
        return None;
    }
    Some(decode::natural(n.first))
}

// The index of the rows, put into an empty one from the last row to the first: of two logics with one letter the earlier is written over the later.
// In its place, since an index handed over by value is copied.
fn index_rows(rows: &[i32], count: u32, index: &mut Index)
    requires most { count ≤ most_rows }
    requires letters { index.old.letters ≡ replicate harmony_base None }
    requires chords { index.old.chords ≡ replicate (most_rows + 1) None }
    ensures { Indexed rows.now count index.new }
{
    let Index { letters, chords } = index;
    let mut first = None;
    for i in (0..count).rev() {
        match logic_trigger(decode::numbers_at(rows, i as usize)) {
            Some(trigger) if trigger < HARMONY_BASE as u32 => letters[trigger as usize] = Some(i),
            Some(_) => first = Some(i),
            None => {}
        }
        chords[i as usize] = first;
    }
}

impl<'a> Board<'a> {
    ghost use Rattle.protocol.specs.OnBoard.{tables_on};

    // Of right tables.
    pub fn new(numbers: &'a [i32], codes: &'a [u16]) -> Board<'a>
        requires { valid_tables (tables_in numbers.now codes.now) ≡ true }
        ensures { tables_on result ≡ tables_in numbers.now codes.now }
    {
        let tables = Tables { numbers, codes };
        let index = Index {
            letters: [None; LETTERS],
            chords: [None; PLACES],
        };
        let mut board = Board { tables, index };
        index_rows(tables.rows(), tables.counts().rows, &mut board.index);
        board
    }

    // The orders of the active logic: none where no logic is active.
    pub fn orders_of(&self, active: Option<u32>) -> &[u16]
        requires { active_right (tables_on self.now) active ≡ true }
        ensures { OrdersOf (tables_on self.now) active result.now }
    {
        let Some(i) = active else {
            return &[];
        };
        let Row::Logic { from, to, .. } = self.tables.row(i as usize) else {
            return &[];
        };
        let orders = self.tables.orders();
        &orders[ORDER_WIDTH * from as usize..ORDER_WIDTH * to as usize]
    }
}
