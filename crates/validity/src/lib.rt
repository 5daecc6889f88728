// Whether tables are valid. It is tested at every frame: long runs of zeros go a block at a time. Within a block there is no way out, so that its
// numbers go many at once.
#![tactic(auto)]

ghost use Rattle.std.specs.Prelude.{◌≡◌, false, ◌&&◌, ◌≢◌, ◌+◌, ◌*◌, ◌≤◌, ◌<◌, length, drop, take};
ghost use Rattle.std.specs.List.{list_all};
ghost use Rattle.tuning.specs.Desk.{between, is_tone};
ghost use Rattle.tables.specs.Layout.{tables_in, triggers_in, calls_in, most_rows, row_width, order_width, read_at, interval_form, tone_form, harmony_form, divide_code, sounds_code, set_code};
ghost use Rattle.tables.specs.Lent.{tables_of};
ghost use Rattle.validity.specs.Valid.{counts_right, is_sum, no_part, kinds, kinds_right, ends, ends_right, all_zero, all_nought, valid_tables};
ghost use Rattle.validity.specs.Inner.{is_amount, is_part_at, is_form, is_start_code, is_trigger_code, are_halves, fast_row, has_naturals, is_value, value_right, kinds_with, others, kinds_among, ends_with, fast_rows, fast_orders, fast_each, fast_list};

use limits::{
    FARTHEST_TONE, FIRST_LETTER, LAST_LETTER, LONGEST_PERIOD, MOST_AMOUNT, MOST_ANCHOR, MOST_CALLS,
    MOST_HARMONIES, MOST_INTERVALS, MOST_LOGICS, MOST_RETUNINGS, MOST_SYSTEMS, MOST_TONE_NAMES,
};
use tables::{
    ANCHOR_FORM, CHANGES, Counts, DIVIDE_CODE, FRESH_CODE, HALF_SET, HARMONY_BASE, HARMONY_FORM,
    INTERVAL_FORM, KEPT_CODE, LOGIC_FORM, MINUS_CODE, Numbers, ONWARD_CODE, ORDER_WIDTH, ORDERS,
    PATTERN_FORM, PERIOD_FORM, ROW_WIDTH, ROWS, SET_CODE, SOUNDS_CODE, SYSTEM_FORM, TONE_FORM,
    TONES, TONES_FORM, Tables, WIDTH_FORM,
};
use tuning::{FARTHEST_SUM, PLACES};

const HIGHEST_KEY: i32 = MOST_ANCHOR as i32;

const HIGHEST_AMOUNT: i32 = MOST_AMOUNT as i32;

// How many rows of each kind there may be: of retunings one for each declaration, and one for each call.
const FEW: Kinds = Kinds {
    intervals: MOST_INTERVALS as u32,
    tones: MOST_TONE_NAMES as u32,
    systems: MOST_SYSTEMS as u32,
    retunings: MOST_RETUNINGS as u32 + MOST_CALLS as u32,
    logics: MOST_LOGICS as u32,
    harmonies: MOST_HARMONIES as u32,
};

// So many zeros are tested before there is a way out.
const BLOCK: usize = 256;

const LETTER_A: i32 = FIRST_LETTER as i32;

const LETTER_Z: i32 = LAST_LETTER as i32;

const FIRST_HARMONY: i32 = HARMONY_BASE as i32;

// The greatest number of thirty bits of a set.
const MOST_HALF: u32 = HALF_SET as u32 - 1;

// How many rows there are of each kind.
#[derive(Clone, Copy, Default)]
struct Kinds {
    intervals: u32,
    tones: u32,
    systems: u32,
    retunings: u32,
    logics: u32,
    harmonies: u32,
}

impl Kinds {
    // With one more row of this form, which is no interval and no tone.
    #[tactic(auto, unfolding(crate::specs::Inner::kinds_with))]
    fn with(mut self, form: u32) -> Kinds
        requires { (form ≢ interval_form) × (form ≢ tone_form) × (others self ≤ most_rows) }
        ensures { result ≡ kinds_with self form }
    {
        match form {
            SYSTEM_FORM => self.systems += 1,
            ANCHOR_FORM | WIDTH_FORM | PERIOD_FORM | TONES_FORM | PATTERN_FORM => self.retunings +=
                1,
            LOGIC_FORM => self.logics += 1,
            HARMONY_FORM => self.harmonies += 1,
            _ => {}
        }
        self
    }

    // With the intervals: what the others leave of so many rows.
    fn among(mut self, rows: u32) -> Kinds
        requires { others self ≤ rows }
        ensures { result ≡ kinds_among self rows }
    {
        self.intervals = rows
            - self.tones
            - self.systems
            - self.retunings
            - self.logics
            - self.harmonies;
        self
    }

    // Whether there are as few of each as is allowed.
    fn are_few(self) -> bool
        ensures { result ≡ kinds_right self }
    {
        (self.intervals <= FEW.intervals)
            & (self.tones <= FEW.tones)
            & (self.systems <= FEW.systems)
            & (self.retunings <= FEW.retunings)
            & (self.logics <= FEW.logics)
            & (self.harmonies <= FEW.harmonies)
    }
}

// Where the tones, changes and orders of some rows end.
#[derive(Clone, Copy, Default)]
struct Ends {
    tones: u32,
    changes: u32,
    orders: u32,
}

impl Ends {
    // After a row of this form, whose own end at `to`.
    #[tactic(auto, unfolding(crate::specs::Inner::ends_with))]
    fn with(mut self, form: u32, to: u32) -> Ends
        ensures { result ≡ ends_with self form to }
    {
        match form {
            SYSTEM_FORM => self.tones = to,
            TONES_FORM => self.changes = to,
            LOGIC_FORM => self.orders = to,
            _ => {}
        }
        self
    }

    // Whether they end at the counts.
    fn are(self, used: Counts) -> bool
        ensures { result ≡ ends_right used self }
    {
        (self.tones == used.tones) & (self.changes == used.changes) & (self.orders == used.orders)
    }
}

// Of what is used of a list, a kind goes up to `last`, and a number from `low` to `high`; it is 0 where the kind is 0.
#[derive(Clone, Copy)]
struct Bounds {
    last: u16,
    low: i32,
    high: i32,
}

const TONE_BOUNDS: Bounds = Bounds {
    last: SOUNDS_CODE,
    low: -FARTHEST_TONE,
    high: FARTHEST_TONE,
};

const CHANGE_BOUNDS: Bounds = Bounds {
    last: SET_CODE,
    low: -FARTHEST_SUM,
    high: FARTHEST_SUM,
};

fn is_between(low: i32, high: i32, z: i32) -> bool
    ensures { result ≡ between low high z }
{
    (low <= z) & (z <= high)
}

fn is_tone(z: i32) -> bool
    ensures { result ≡ is_tone z }
{
    is_between(-FARTHEST_TONE, FARTHEST_TONE, z)
}

// A kind of anchor or width up to `last`, and its n.
fn is_amount(n: Numbers, last: u32) -> bool
    requires { last ≤ divide_code }
    ensures { result ≡ is_amount last n.first n.second }
{
    let known = is_between(KEPT_CODE as i32, last as i32, n.first);
    let whole = is_between(0, HIGHEST_AMOUNT, n.second);
    let bare = !(n.first <= KEPT_CODE as i32) | (n.second <= 0);
    known & whole & bare
}

// What belongs to the row is from `least` to `most` of them, from `start` on.
fn is_part(n: Numbers, least: u32, most: u32, start: u32) -> bool
    ensures { result ≡ is_part_at least most start n.from n.to }
{
    let from = n.from as u64;
    let to = n.to as u64;
    (from + least as u64 <= to) & (to <= from + most as u64) & (n.from == start)
}

fn is_nothing(n: Numbers) -> bool
    ensures { result ≡ no_part n.from n.to }
{
    (n.from == 0) & (n.to == 0)
}

// Whether the numbers of a harmony's row are thirty bits each.
fn are_halves(n: Numbers) -> bool
    ensures { result ≡ are_halves n }
{
    is_between(0, MOST_HALF as i32, n.first)
        & is_between(0, MOST_HALF as i32, n.second)
        & (n.from <= MOST_HALF)
        & (n.to <= MOST_HALF)
}

// The rows, of which the first `count` are used.
#[derive(Clone, Copy)]
struct Rows<'a> {
    numbers: &'a [i32],
    count: u32,
    ghost inside: { row_width * count ≤ length numbers.now },
}

impl Rows<'_> {
    // Whether declaration i is one of the used rows, and has a form from `low` to `high`.
    fn has_form(self, low: u32, high: u32, i: u32) -> bool
        requires { (1 ≤ low) × (low ≤ high) × (high ≤ harmony_form) }
        ensures { result ≡ is_form self.entry.numbers.now self.entry.count low high i }
    {
        if self.count <= i {
            return false;
        }
        is_between(
            low as i32,
            high as i32,
            self.numbers[ROW_WIDTH * i as usize],
        )
    }

    // No start, or a tone system or retuning.
    fn is_start(self, start: i32) -> bool
        ensures { result ≡ is_start_code self.entry.numbers.now self.entry.count start }
    {
        if start <= 0 {
            return 0 <= start;
        }
        self.has_form(SYSTEM_FORM, TONES_FORM, (start - 1) as u32)
    }

    // A letter, or the declaration of a harmony. Most triggers are letters.
    fn is_trigger(self, trigger: i32) -> bool
        ensures { result ≡ is_trigger_code self.entry.numbers.now self.entry.count trigger }
    {
        if is_between(LETTER_A, LETTER_Z, trigger) {
            return true;
        }
        if trigger < FIRST_HARMONY {
            return false;
        }
        let harmony = (trigger - FIRST_HARMONY) as u32;
        self.has_form(HARMONY_FORM, HARMONY_FORM, harmony)
    }

    // A row that is no interval and no tone, after rows that end at `ends`.
    #[tactic(auto, unfolding(crate::specs::Inner::fast_row))]
    fn is_other_row(self, ends: Ends, n: Numbers) -> bool
        requires { (n.form ≢ interval_form) × (n.form ≢ tone_form) }
        ensures { result ≡ fast_row self.entry.numbers.now self.entry.count ends n }
    {
        match n.form {
            SYSTEM_FORM => {
                is_between(0, HIGHEST_KEY, n.first)
                    & is_between(0, LONGEST_PERIOD, n.second)
                    & is_part(n, 1, PLACES as u32, ends.tones)
            }
            ANCHOR_FORM => is_amount(n, MINUS_CODE) & is_nothing(n),
            WIDTH_FORM => is_amount(n, DIVIDE_CODE) & is_nothing(n),
            PERIOD_FORM => {
                is_between(FRESH_CODE as i32, ONWARD_CODE as i32, n.first)
                    & is_between(-FARTHEST_SUM, FARTHEST_SUM, n.second)
                    & is_nothing(n)
            }
            TONES_FORM => {
                (n.first == 0) & (n.second == 0) & is_part(n, 1, PLACES as u32, ends.changes)
            }
            LOGIC_FORM => {
                self.is_trigger(n.first)
                    & self.is_start(n.second)
                    & is_part(n, 0, ORDERS as u32, ends.orders)
            }
            HARMONY_FORM => are_halves(n),
            PATTERN_FORM => (n.first == 0) & (n.second == 0) & is_nothing(n),
            _ => false,
        }
    }

    // Whether row i, an interval or a tone, is right.
    fn is_value(self, i: usize) -> bool
        requires { i < self.count }
        ensures { result ≡ value_right self.entry.numbers.now i }
    {
        let rows = self.numbers;
        let at = ROW_WIDTH * i;
        is_tone(rows[at + 1]) & (rows[at + 2] == 0) & (rows[at + 3] == 0) & (rows[at + 4] == 0)
    }

    // Whether row i, of any other form, is right, after rows that end at `ends`.
    fn is_other(self, ends: Ends, i: usize) -> bool
        requires { (i < self.count) × (is_value self.numbers.now i ≡ false) }
        ensures { result ≡ has_naturals self.entry.numbers.now i && fast_row self.entry.numbers.now self.entry.count ends (read_at self.entry.numbers.now i) }
    {
        let rows = self.numbers;
        let at = ROW_WIDTH * i;
        let form = rows[at];
        let from = rows[at + 3];
        let to = rows[at + 4];
        let natural = (0 <= form) & (0 <= from) & (0 <= to);
        if !natural {
            return false;
        }
        self.is_other_row(
            ends,
            Numbers {
                form: form as u32,
                first: rows[at + 1],
                second: rows[at + 2],
                from: from as u32,
                to: to as u32,
            },
        )
    }

    // Whether the used rows are right, no more of a kind than allowed, and what belongs to them follows one another up to the counts.
    // Most rows are intervals and tones, so these are told apart first, and intervals are not counted.
    fn are_right(self, used: Counts) -> bool
        requires { (self.count ≡ used.rows) × (used.rows ≤ most_rows) }
        ensures { result ≡ fast_rows self.entry.numbers.now used (kinds 0 0 0 0 0 0) (ends 0 0 0) 0 used.rows }
    {
        let mut kinds = Kinds::default();
        let mut ends = Ends::default();
        for i in 0..self.count as usize {
            let at = ROW_WIDTH * i;
            let form = self.numbers[at];
            if is_between(INTERVAL_FORM as i32, TONE_FORM as i32, form) {
                if !self.is_value(i) {
                    return false;
                }
                kinds.tones += form as u32 - INTERVAL_FORM;
            } else {
                if !self.is_other(ends, i) {
                    return false;
                }
                kinds = kinds.with(form as u32);
                ends = ends.with(form as u32, self.numbers[at + 4] as u32);
            }
        }
        kinds.among(used.rows).are_few() & ends.are(used)
    }

    // Whether so many orders are right.
    fn are_orders(self, orders: &[u16], count: u32) -> bool
        requires { order_width * count ≤ length orders.now }
        ensures { result ≡ fast_orders self.entry.numbers.now self.entry.count (triggers_in orders.now) (calls_in orders.now) 0 count }
    {
        for i in 0..count as usize {
            let at = ORDER_WIDTH * i;
            let trigger = orders[at] as i32;
            let called = orders[at + 1] as u32;
            let right = self.is_trigger(trigger) & self.has_form(SYSTEM_FORM, LOGIC_FORM, called);
            if !right {
                return false;
            }
        }
        true
    }
}

// Whether each has a kind and a number within bounds. (With no way out of the loop they go many at once.)
fn are_in_bounds(kinds: &[u16], numbers: &[i32], bounds: Bounds) -> bool
    requires { length kinds.now ≤ length numbers.now }
    ensures { result ≡ fast_each bounds.last (between bounds.low bounds.high) kinds.now numbers.now }
{
    let mut ok = true;
    for (i, k) in kinds.iter().enumerate() {
        let z = numbers[i];
        ok &= (*k <= bounds.last) & is_between(bounds.low, bounds.high, z) & ((*k != 0) | (z == 0));
    }
    ok
}

// Whether each of a block is x.
// Kept as it is: by the library's `all`, with a way out at each, a run of zeros takes three instructions a number; by this loop it takes one for two.
fn is_block_of<T: Copy + PartialEq>(block: &[T], x: T) -> bool
    ensures { result ≡ list_all (λ y. T.eq y x) block.now }
{
    let mut ok = true;
    for y in block {
        ok &= *y == x;
    }
    ok
}

// Whether each of a long run is x: a block at a time, with a way out after each.
fn is_run_of<T: Copy + PartialEq>(table: &[T], x: T) -> bool
    ensures { result ≡ list_all (λ y. T.eq y x) table.now }
{
    let mut rest = table;
    while BLOCK <= rest.len() {
        let (block, behind) = rest.split_at(BLOCK);
        if !is_block_of(block, x) {
            return false;
        }
        rest = behind;
    }
    is_block_of(rest, x)
}

// Whether the used ones are within bounds, and the others zero.
fn is_list(kinds: &[u16], numbers: &[i32], used: usize, bounds: Bounds) -> bool
    requires { (used ≤ length kinds.now) × (used ≤ length numbers.now) }
    ensures { result ≡ fast_list bounds.last (between bounds.low bounds.high) used kinds.now numbers.now }
{
    are_in_bounds(&kinds[..used], &numbers[..used], bounds)
        & is_run_of(&kinds[used..], 0)
        & is_run_of(&numbers[used..], 0)
}

// Whether there is room for so many.
fn are_counts(used: Counts) -> bool
    ensures { result ≡ counts_right used }
{
    (used.rows <= ROWS as u32)
        & (used.tones <= TONES as u32)
        & (used.changes <= CHANGES as u32)
        & (used.orders <= ORDERS as u32)
}

// Whether every number of the tables is in its range, every reference within its count, and every unused place zero.
pub fn are_valid(tables: Tables<'_>) -> bool
    ensures { result ≡ valid_tables (tables_of tables.entry) }
{
    let used = tables.counts();
    if !are_counts(used) {
        return false;
    }
    let numbers = tables.rows();
    let orders = tables.orders();
    let rows = Rows {
        numbers,
        count: used.rows,
    };
    rows.are_right(used)
        & is_run_of(&numbers[ROW_WIDTH * used.rows as usize..], 0)
        & is_list(
            tables.sounding(),
            tables.tones(),
            used.tones as usize,
            TONE_BOUNDS,
        )
        & is_list(
            tables.kinds(),
            tables.changes(),
            used.changes as usize,
            CHANGE_BOUNDS,
        )
        & rows.are_orders(orders, used.orders)
        & is_run_of(&orders[ORDER_WIDTH * used.orders as usize..], 0)
}

// The same of two slices, which have to be of full size.
pub fn valid_tables(numbers: &[i32], codes: &[u16]) -> bool
    ensures { result ≡ valid_tables (tables_in numbers.now codes.now) }
{
    let Some(tables) = Tables::new(numbers, codes) else {
        return false;
    };
    are_valid(tables)
}
