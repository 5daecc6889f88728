// The harmony of a declaration: the keys that it names, over items.
ghost use Rattle.std.specs.Prelude.{◌≡◌, [], ◌≤◌};
ghost use Rattle.limits.specs.Limits.{most_harmony_key};
ghost use Rattle.names.specs.Parts.{part};
ghost use Rattle.program.specs.Program.{key_of, key_then, keys_of};
ghost use Rattle.program.specs.Allowed.{Each};
ghost use Rattle.harmonies.specs.Harmonies.{naming, naming_all, harmony_of};
ghost use Rattle.filling.specs.Inner.{FitKey};

use grammar::Item;
use harmonies::Harmony;

// The harmony with one key more: "a star before a number means that it may be held or not".
fn name_key(harmony: Harmony, key: u32, starred: bool) -> Harmony
    requires { key ≤ most_harmony_key }
    ensures { result ≡ naming harmony (key_of key starred) }
{
    let k = key as u8;
    let named = sets::with(harmony.named, k);
    let needed = harmony.needed;
    if starred {
        return Harmony { needed, named };
    }
    Harmony {
        needed: sets::with(needed, k),
        named,
    }
}

// The harmony with the key of an item more, if it is one.
fn name_item(harmony: Harmony, item: Item) -> Harmony
    requires { Each FitKey (key_then (part item) []) }
    ensures { result ≡ naming_all harmony (key_then (part item) []) }
{
    match item {
        Item::Key(key) => name_key(harmony, key, false),
        Item::StarredKey(key) => name_key(harmony, key, true),
        _ => harmony,
    }
}

// The harmony of the keys among the items.
pub fn read_harmony(items: &[Item]) -> Harmony
    requires { Each FitKey (keys_of items.now) }
    ensures { result ≡ harmony_of (keys_of items.now) }
{
    let mut harmony = Harmony {
        needed: 0,
        named: 0,
    };
    for item in items {
        harmony = name_item(harmony, *item);
    }
    harmony
}
