// What a trigger calls: logics are tried in declared order, else the active logic's orders; and the call of a declaration.
ghost use Rattle.std.specs.Prelude.{◌≡◌, true, ℕ, ◌*◌, ◌≤◌, length};
ghost use Rattle.tuning.specs.State.{valid_state};
ghost use Rattle.tables.specs.Layout.{triggers_in, calls_in, order_width};
ghost use Rattle.tables.specs.Lent.{tables_of};
ghost use Rattle.protocol.specs.Triggers.{first_order};
ghost use Rattle.protocol.specs.Steps.{letter_step};
ghost use Rattle.protocol.specs.Answers.{valid_desk};
ghost use Rattle.protocol.specs.Inner.{is_trigger, Finds, kind_at, by_kind, called_in, part_size, gathered, tuned_by, found_tuned, calls_leave, Paired, Callable, CallableFound, press_as, called_after, struck_leaves, Within};
ghost use Rattle.protocol.specs.OnBoard.{tables_on};

use crate::{Board, Desk, Search, Stepped};
use orders::{Kind, Order};
use status::{DONE, LETTER_UNBOUND};
use tables::{
    ANCHOR_FORM, LOGIC_FORM, ORDER_WIDTH, PERIOD_FORM, Row, SYSTEM_FORM, TONES_FORM, Tables,
    WIDTH_FORM, decode,
};
use tuning::{Reply, State};

// How many orders are gathered together.
// Kept as it is: orders are searched as records in a lent slice, by one thin function, so those of a logic are gathered into records, a part at a time.
const PART: usize = 16;

// What is found: a logic, or a declaration that is called itself.
#[derive(Clone, Copy)]
pub enum Called {
    Logic(u32),
    Other(u32),
}

// What comes of it: the logic that is active then, and the declaration that is called, or the number where there is none.
#[derive(Clone, Copy)]
struct Press {
    pub active: Option<u32>,
    pub called: Result<u32, u8>,
}

// The kind of declaration k, where it can be called.
fn kind_of(rows: &[i32], k: usize) -> Option<Kind>
    ensures { result ≡ kind_at rows.now k }
{
    let n = decode::numbers_at(rows, k);
    match n.form {
        SYSTEM_FORM => Some(Kind::System),
        ANCHOR_FORM | WIDTH_FORM | PERIOD_FORM | TONES_FORM => Some(Kind::Retuning),
        LOGIC_FORM => Some(Kind::Logic),
        _ => None,
    }
}

// No more than a part of the orders, as records at the start of the array. The rest of it is zeros.
fn gather_orders(rows: &[i32], orders: &[u16]) -> [Order; PART]
    requires paired { Paired orders.now }
    requires part { length orders.now ≤ order_width * part_size }
    ensures { result ≡ gathered rows.now (triggers_in orders.now) (calls_in orders.now) }
{
    let mut all = [Order {
        trigger: 0,
        kind: None,
        number: 0,
    }; PART];
    for (i, order) in orders.chunks_exact(ORDER_WIDTH).enumerate() {
        let number = order[1];
        all[i] = Order {
            trigger: order[0],
            kind: kind_of(rows, number as usize),
            number,
        };
    }
    all
}

// A declaration that is called, by its kind.
fn by_kind(kind: Option<Kind>, k: u32) -> Called
    ensures { result ≡ by_kind kind k }
{
    match kind {
        Some(Kind::Logic) => Called::Logic(k),
        _ => Called::Other(k),
    }
}

// What the first order with this trigger calls, of no more than a part.
fn find_in_part(rows: &[i32], orders: &[u16], trigger: u16) -> Option<Called>
    requires paired { Paired orders.now }
    requires part { length orders.now ≤ order_width * part_size }
    ensures { result ≡ called_in rows.now (first_order (is_trigger trigger) (triggers_in orders.now) (calls_in orders.now)) }
{
    let all = gather_orders(rows, orders);
    let i = orders::find_match(&all, trigger, 0, orders.len() / ORDER_WIDTH)?;
    let order = all[i];
    Some(by_kind(order.kind, order.number as u32))
}

// What the first order with this trigger calls, part by part.
pub fn find_order(rows: &[i32], orders: &[u16], trigger: u16) -> Option<Called>
    requires { Paired orders.now }
    ensures { result ≡ called_in rows.now (first_order (is_trigger trigger) (triggers_in orders.now) (calls_in orders.now)) }
{
    for part in orders.chunks(ORDER_WIDTH * PART) {
        let called = find_in_part(rows, part, trigger);
        if called.is_some() {
            return called;
        }
    }
    None
}

// What comes of what is found. A called logic becomes active, and its start is called, or itself where its start is 0.
fn press_found(rows: &[i32], active: Option<u32>, found: Result<Called, u8>) -> Press
    ensures { result ≡ press_as rows.now active found }
{
    match found {
        Err(number) => Press {
            active,
            called: Err(number),
        },
        Ok(Called::Other(k)) => Press {
            active,
            called: Ok(k),
        },
        Ok(Called::Logic(k)) => {
            let n = decode::numbers_at(rows, k as usize);
            let start = decode::natural(n.second);
            Press {
                active: Some(k),
                called: Ok(start.checked_sub(1).unwrap_or(k)),
            }
        }
    }
}

// What the call of declaration k does to the tuning: of a tone system or a retuning; any other changes nothing.
fn call_declaration(tables: Tables, s: State, k: u32) -> Reply
    requires s_value { valid_state s ≡ true }
    requires callable { Callable (tables_of tables) k }
    ensures { result ≡ tuned_by (tables_of tables.entry) s k }
{
    match tables.row(k as usize) {
        Row::System {
            anchor,
            period,
            from,
            to,
        } => s.take_system(tables.system(anchor, period, from as usize, to as usize)),
        Row::Retuning { retuning, from, to } => {
            s.retune(retuning, tables.changes_from(from as usize, to as usize))
        }
        _ => Reply {
            state: s,
            number: DONE,
        },
    }
}

// The same of what was found; where that is nothing, its number.
fn call_found(tables: Tables, s: State, called: Result<u32, u8>) -> Reply
    requires s_value { valid_state s ≡ true }
    requires callable_found { CallableFound (tables_of tables) called }
    ensures { result ≡ found_tuned (tables_of tables.entry) s called }
{
    match called {
        Ok(k) => call_declaration(tables, s, k),
        Err(number) => Reply { state: s, number },
    }
}

// The call of what was found, by a frame of this house. (With one way out the compiler keeps the desk in its place.)
fn make_call(tables: Tables, desk: Desk, house: u8, called: Result<u32, u8>) -> Stepped
    requires tuning_value { valid_state desk.tuning ≡ true }
    requires callable_found { CallableFound (tables_of tables) called }
    ensures { result ≡ calls_leave (tables_of tables.entry) house desk called }
{
    let s = desk.tuning;
    let reply = call_found(tables, s, called);
    Stepped {
        desk: desk.with_tuning(reply.state),
        number: reply.number,
    }
}

impl Board<'_> {
    // What is found is called, by a frame of this house.
    pub fn strike(&self, desk: Desk, house: u8, found: Result<Called, u8>) -> Stepped
        requires desk_value { valid_desk (tables_on self.now) desk ≡ true }
        requires within { Within (tables_on self.now) (called_after (tables_on self.now) desk found) }
        ensures { result ≡ struck_leaves (tables_on self.now) house desk found }
    {
        let Press { active, called } = press_found(self.tables.rows(), desk.active, found);
        make_call(self.tables, desk.with_active(active), house, called)
    }

    // What a letter finds: the first logic with it, else what the active logic's first order with it calls.
    pub fn search_letter(&self, desk: Desk, letter: u8) -> Search
        requires { valid_desk (tables_on self.now) desk ≡ true }
        ensures { (house : ℕ) → Finds (tables_on self.now) house desk (letter_step (tables_on self.now) house desk letter) result }
    {
        let found = match self.index.letters[letter as usize] {
            Some(i) => Some(Called::Logic(i)),
            None => find_order(
                self.tables.rows(),
                self.orders_of(desk.active),
                letter as u16,
            ),
        };
        Search {
            keys: desk.keys,
            found: found.ok_or(LETTER_UNBOUND),
        }
    }
}
