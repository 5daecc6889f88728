// Names: each use of a name is replaced by the number of its declaration.
#![tactic(auto)]

ghost use Rattle.std.specs.Prelude.{◌≡◌, ◌&&◌, [], ◌+◌, ◌%◌, ◌≤◌, ◌<◌, length, take, eqb, IfOk};
ghost use Rattle.symbols.specs.Bytes.{same};
ghost use Rattle.symbols.specs.Names.{name_at};
ghost use Rattle.grammar.specs.Moves.{kind_number};
ghost use Rattle.grammar.specs.Reading.{most_bytes};
ghost use Rattle.grammar.specs.Items.{most_items};
ghost use Rattle.names.specs.Parts.{part};
ghost use Rattle.names.specs.Names.{bearer_of, called_in};
ghost use Rattle.names.specs.Inner.{used_name, tag_of, mark_of, mark_room, packed, unpacked, named_of, Kept, Chained, kinds_in, Declarable, Room, FirstPass, SecondPass, BothPasses, most_declarations};

use grammar::{Item, Kind, Stopped};
use limits::MOST_DECLARATIONS;
use status::{Reason, Refusal};
use symbols::{bytes, spelling};

// Room for a kind's number.
const KIND_ROOM: u32 = 8;

// Room for a name's tag.
const TAG_ROOM: u32 = 4096;

// What a tag is multiplied by before the next letter is added.
const TAG_FACTOR: u32 = 31;

// Room for a tag and a kind's number, below a declaration's place.
const MARK_ROOM: u32 = TAG_ROOM * KIND_ROOM;

// How many buckets the declarations are in, by their marks. The rows of a bucket are chained from the last back to the first:
// `heads` has one more than each bucket's last row, `links` one more than the row before each row, and both 0 where there is none.
const BUCKETS: usize = 1024;

// How many declarations a text may have.
const DECLARATIONS: usize = MOST_DECLARATIONS;

// What a used name may mean.
#[derive(Clone, Copy)]
enum Scope {
    Intervals,
    Tones,
    Starts,
    Orders,
    Harmonies,
}

// What the name that an item uses may mean, and the name's place.
fn used_name(item: Item) -> Option<(Scope, u32)>
    ensures { result ≡ used_name (part item) }
{
    match item {
        Item::Add(_, place) => Some((Scope::Intervals, place)),
        Item::Subtract(_, place) => Some((Scope::Intervals, place)),
        Item::Base(place) => Some((Scope::Tones, place)),
        Item::TonePosition(place) => Some((Scope::Tones, place)),
        Item::Start(_, place) => Some((Scope::Starts, place)),
        Item::Order(_, place) => Some((Scope::Orders, place)),
        Item::Trigger(place) => Some((Scope::Harmonies, place)),
        _ => None,
    }
}

// The tag of the name at `at`: a small number by which most names are told apart.
fn tag_of(text: &[u8], at: usize) -> u32
    ensures { result ≡ tag_of (name_at text.now at) }
{
    let mut tag = 0;
    for i in at..text.len() {
        let b = text[i];
        if !bytes::in_name(b) {
            return tag;
        }
        tag = (tag * TAG_FACTOR + bytes::small(b) as u32) % TAG_ROOM;
    }
    tag
}

// The tag of the name at `at` and the kind, as one number.
fn mark_of(text: &[u8], kind: Kind, at: usize) -> u32
    ensures { result ≡ mark_of kind (name_at text.now at) }
{
    tag_of(text, at) * KIND_ROOM + kind as u32
}

// A declaration as one number.
fn pack(text: &[u8], kind: Kind, place: u32) -> u32
    requires { place ≤ most_bytes }
    ensures { result ≡ packed text.now (record { kind = kind; place = place }) }
{
    place * MARK_ROOM + mark_of(text, kind, place as usize)
}

// Whether a kept declaration has the mark, and its name is the one at `at`.
fn declares(text: &[u8], kept: u32, mark: u32, at: usize) -> bool
    ensures { result ≡ (eqb (kept % mark_room) mark && same (name_at text.now (unpacked kept).place) (name_at text.now at)) }
{
    if kept % MARK_ROOM != mark {
        return false;
    }
    spelling::same_name(text, (kept / MARK_ROOM) as usize, at)
}

// The declarations of a text that are kept, and the chains of their buckets.
#[derive(Clone, Copy)]
struct Declarations<'a> {
    text: &'a [u8],
    kept: &'a [u32],
    heads: &'a [u16],
    links: &'a [u16],
    ghost of_text: { Kept text.now kept.now },
    ghost chained: { Chained kept.now heads.now links.now },
}

impl Declarations<'_> {
    // The declaration that is of the kind and has the name at `at`: it is in the chain of the bucket of its mark.
    fn find(self, kind: Kind, at: usize) -> Option<usize>
        ensures { result ≡ bearer_of self.entry.text.now (named_of self.entry.kept.now) kind (name_at self.entry.text.now at) }
    {
        let mark = mark_of(self.text, kind, at);
        let mut next = self.heads[mark as usize % BUCKETS];
        while next != 0 {
            let row = next as usize - 1;
            if declares(self.text, self.kept[row], mark, at) {
                return Some(row);
            }
            next = self.links[row];
        }
        None
    }

    // The retuning of the name at `at`, else the tone system.
    fn find_start(self, at: usize) -> Option<usize>
        ensures { result ≡ called_in self.entry.text.now (named_of self.entry.kept.now) (kinds_in Scope.Starts) (name_at self.entry.text.now at) }
    {
        match self.find(Kind::Retuning, at) {
            Some(row) => Some(row),
            None => self.find(Kind::System, at),
        }
    }

    // The retuning or the tone system of the name at `at`, else the logic.
    fn find_order(self, at: usize) -> Option<usize>
        ensures { result ≡ called_in self.entry.text.now (named_of self.entry.kept.now) (kinds_in Scope.Orders) (name_at self.entry.text.now at) }
    {
        match self.find_start(at) {
            Some(row) => Some(row),
            None => self.find(Kind::Logic, at),
        }
    }

    // What the name at `at` means.
    fn find_meaning(self, scope: Scope, at: usize) -> Option<usize>
        ensures { result ≡ called_in self.entry.text.now (named_of self.entry.kept.now) (kinds_in scope) (name_at self.entry.text.now at) }
    {
        match scope {
            Scope::Intervals => self.find(Kind::Interval, at),
            Scope::Tones => self.find(Kind::Tone, at),
            Scope::Starts => self.find_start(at),
            Scope::Orders => self.find_order(at),
            Scope::Harmonies => self.find(Kind::Harmony, at),
        }
    }
}

// Puts row `n` in front of its bucket's chain.
fn chain_row(declared: &[u32], n: usize, heads: &mut [u16], links: &mut [u16])
    requires n_in_bounds { n < length declared.now }
    requires n_lt_most_declarations { n < most_declarations }
    requires chained { Chained (take n declared.now) heads.old links.old }
    ensures { Chained (take (n + 1) declared.now) heads.new links.new }
{
    let bucket = declared[n] as usize % BUCKETS;
    links[n] = heads[bucket];
    heads[bucket] = n as u16 + 1;
}

// Keeps each declared name, in its chain, and the index of its item, up to the first that stood before in its kind.
fn declare_all(
    text: &[u8],
    items: &[Item],
    declared: &mut [u32],
    starts: &mut [u32],
    heads: &mut [u16],
    links: &mut [u16],
) -> Result<usize, Stopped>
    requires fits { length items.now ≤ most_items }
    requires declarable { Declarable items.now }
    requires room { Room declared.old starts.old }
    requires chained { Chained [] heads.old links.old }
    ensures first_pass { FirstPass text.now items.now declared.old starts.old result declared.new starts.new }
    ensures chained_2 { IfOk result (λ n. Chained (take n declared.new) heads.new links.new) }
{
    let mut n = 0;
    for i in 0..items.len() {
        let Item::Declared(kind, place) = items[i] else {
            continue;
        };
        let before = Declarations {
            text,
            kept: &declared[..n],
            heads,
            links,
        };
        if let Some(_) = before.find(kind, place as usize) {
            let refusal = Refusal {
                reason: Reason::NameTwice,
                place,
            };
            return Err(Stopped { refusal, count: n });
        }
        declared[n] = pack(text, kind, place);
        starts[n] = i as u32;
        chain_row(declared, n, heads, links);
        n += 1;
    }
    Ok(n)
}

// Replaces the place of each used name by the number of its declaration, up to the first that is not declared.
fn resolve_uses(items: &mut [Item], known: Declarations<'_>) -> Result<(), Refusal>
    ensures { SecondPass known.entry.text.now (named_of known.entry.kept.now) items.old result items.new }
{
    for i in 0..items.len() {
        let Some((scope, place)) = used_name(items[i]) else {
            continue;
        };
        let Some(number) = known.find_meaning(scope, place as usize) else {
            return Err(Refusal {
                reason: Reason::NameNotDeclared,
                place,
            });
        };
        items[i] = items[i].with_place(number as u32);
    }
    Ok(())
}

// Keeps the declared names and the indexes of their items, and replaces each used name by the number of its declaration.
// The result tells how many declarations are kept, on a refusal too.
pub fn resolve_names(
    text: &[u8],
    items: &mut [Item],
    declared: &mut [u32],
    starts: &mut [u32],
) -> Result<usize, Stopped>
    requires fits { length items.old ≤ most_items }
    requires declarable { Declarable items.old }
    requires room { Room declared.old starts.old }
    ensures { BothPasses text.now items.old declared.old starts.old result items.new declared.new starts.new }
{
    let mut heads = [0u16; BUCKETS];
    let mut links = [0u16; DECLARATIONS];
    let n = declare_all(text, items, declared, starts, &mut heads, &mut links)?;
    let known = Declarations {
        text,
        kept: &declared[..n],
        heads: &heads,
        links: &links,
    };
    match resolve_uses(items, known) {
        Ok(()) => Ok(n),
        Err(refusal) => Err(Stopped { refusal, count: n }),
    }
}
