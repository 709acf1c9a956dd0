// The symbol table of lent lists. Document 01, "A heap is sound when": "the symbol table has one entry a (name, scope), each
// leading to an Allocated slot with that name, no two to the same slot". The slots are marked one by one; the keys are copied,
// sorted, and compared with their neighbours.
#![tactic(auto)]

ghost use Rattle.std.specs.Prelude.{◌≡◌, ◌+◌, ◌*◌, ◌≤◌, length};
ghost use Rattle.laws.specs.Basics.{every_below, rising};
ghost use Rattle.heap_sound_blocks.specs.Blocks.{shown, Apart};
ghost use Rattle.heap_sound_table.specs.Entries.{entry_good, Keyed, KeysDiffer, Leading, NamesDiffer, Decided, TableGood};

use leaf_names::Key;

// An entry leads to a symbol in use, and its scope is of 32 bits.
// Kept: a symbol's kind as the number 8, since the definition `entry_good` speaks of the lent word.
fn entry_good(words: &[u64], map: &[u8], capacity: usize, i: usize) -> bool
    requires i_in_bounds { 8 * i + 16 ≤ length words.now }
    requires capacity_in_bounds { 8 + 8 * capacity ≤ length words.now }
    ensures { result ≡ entry_good words.now map.now capacity i }
{
    let at = 8 + 8 * i;
    let slot = words[at + 5];
    heap_sound_cells::in_use(map, capacity, slot)
        && words[8 + 8 * slot as usize] == 8
        && words[at + 6] < 4294967296
}

fn entries_good(words: &[u64], map: &[u8], capacity: usize, n: usize) -> bool
    requires capacity_in_bounds { 8 + 8 * capacity ≤ length words.now }
    requires n_le_capacity { n ≤ capacity }
    ensures { result ≡ every_below n (entry_good words.now map.now capacity) }
{
    (0..n).all(|i| entry_good(words, map, capacity, i))
}

// Copies the keys of the first entries: the name's place and size, and the scope.
fn list_keys(words: &[u64], keys: &mut [Key])
    requires rows { 8 + 8 * length keys.old ≤ length words.now }
    requires leading { Leading words.now (length keys.old) }
    ensures { Keyed words.now keys.new (length keys.old) }
{
    for (i, key) in keys.iter_mut().enumerate() {
        let at = 8 + 8 * i;
        let cell = 8 + 8 * words[at + 5] as usize;
        *key = Key {
            place: words[cell + 1] as usize,
            size: words[cell + 2] as usize,
            scope: words[at + 6],
        };
    }
}

// Lists the entries 0, 1, ..
fn list_order(order: &mut [usize])
    ensures { order.new ≡ rising 0 (length order.old) }
{
    for (i, entry) in order.iter_mut().enumerate() {
        *entry = i;
    }
}

// No two of the entries have one key.
fn keys_differ(order: &mut [usize], keys: &[Key], bytes: &[u8]) -> bool
    ensures { Decided (KeysDiffer keys.now bytes.now (length order.old)) result }
{
    list_order(order);
    leaf_sort::sort(order, keys, bytes);
    leaf_sort::distinct(order, keys, bytes)
}

// No two of the first entries, as many as the keys and places lent, have one name and one scope.
fn names_differ(words: &[u64], bytes: &[u8], keys: &mut [Key], order: &mut [usize]) -> bool
    requires rows { 8 + 8 * length keys.old ≤ length words.now }
    requires places { length order.old ≡ length keys.old }
    requires leading { Leading words.now (length keys.old) }
    ensures { Decided (NamesDiffer words.now bytes.now (length keys.old)) result }
{
    list_keys(words, keys);
    keys_differ(order, keys, bytes)
}

// "the symbol table has one entry a (name, scope), each leading to an Allocated slot with that name, no two to the same slot"
pub fn table_sound(words: &[u64], map: &[u8], bytes: &[u8], capacity: usize, n: usize) -> bool
    requires capacity_in_bounds { (8 + 8 * capacity ≤ length words.now) × (n ≤ capacity) × (capacity ≤ 4096) }
    requires apart { Apart (shown words.now 7 8) (length bytes.now) capacity }
    ensures { Decided (TableGood words.now map.now bytes.now capacity n) result }
{
    let mut marks = [0u8; 4096];
    let mut keys = [Key::default(); 4096];
    let mut order = [0; 4096];
    entries_good(words, map, capacity, n)
        && heap_sound_free::mark_column(words, 5, n, capacity, &mut marks)
        && names_differ(words, bytes, &mut keys[..n], &mut order[..n])
}
