// The symbol table (heap.rs: put, put_scoped_symbol, free): document 01, "Table entries stand in order of making, without gaps", and "A
// swept symbol leaves the table." The table stands in the lent words: the number of its entries in the header, an entry's slot and
// scope in two columns of the rows, in order of making.
#![tactic(auto)]

ghost use Rattle.std.specs.Prelude.{◌≡◌, ◌+◌, ◌*◌, ◌≤◌, length};
ghost use Rattle.leaf_symbols.specs.Table.{count_of, entry, stored_entry, added, ClosedUp, cleared, dropped};

use leaf_map::State;

// A word of the header.
pub const TABLE_COUNT: usize = 3;

// Writes an entry at a place of the table.
#[tactic(auto, unfolding(crate::specs::Table::stored_entry))]
fn store_entry(words: &mut [u64], i: usize, slot: u64, scope: u64)
    requires { 8 * i + 16 ≤ length words.old }
    ensures { words.new ≡ stored_entry words.old i (entry slot scope) }
{
    let at = 8 + 8 * i;
    words[at + 5] = slot;
    words[at + 6] = scope;
}

// A new entry, at the table's end.
#[tactic(auto, unfolding(crate::specs::Table::added))]
pub fn add(words: &mut [u64], slot: usize, scope: u64)
    requires { 8 * count_of words.old + 16 ≤ length words.old }
    ensures { words.new ≡ added words.old (entry slot scope) }
{
    let count = words[TABLE_COUNT] as usize;
    store_entry(words, count, slot as u64, scope);
    words[TABLE_COUNT] += 1;
}

// Moves the entries whose slot is Allocated up to the table's start, in their order, and answers how many they are.
fn close_up(words: &mut [u64], map: &[u8]) -> usize
    requires in_bounds { 8 ≤ length words.old }
    requires words_in_bounds { 8 * count_of words.old + 8 ≤ length words.old }
    ensures { ClosedUp words.old words.new map.now result }
{
    let count = words[TABLE_COUNT] as usize;
    let mut kept = 0;
    for i in 0..count {
        let at = 8 + 8 * i;
        let slot = words[at + 5];
        let scope = words[at + 6];
        if leaf_map::get(map, slot as usize) == State::Allocated {
            store_entry(words, kept, slot, scope);
            kept += 1;
        }
    }
    kept
}

// Makes the table's places from `from` up to `to` empty.
#[tactic(auto, using(crate::proofs::Turns::cleared_on, crate::proofs::Turns::cleared_end))]
fn clear(words: &mut [u64], from: usize, to: usize)
    requires { 8 * to + 8 ≤ length words.old }
    ensures { words.new ≡ cleared words.old from to }
{
    for i in from..to {
        store_entry(words, i, 0, 0);
    }
}

// "A swept symbol leaves the table": entries whose slot is not Allocated go, and the others close up.
#[tactic(auto, using(crate::proofs::Turns::drops))]
pub fn drop_freed(words: &mut [u64], map: &[u8])
    requires in_bounds { 8 ≤ length words.old }
    requires words_in_bounds { 8 * count_of words.old + 8 ≤ length words.old }
    ensures { words.new ≡ dropped words.old map.now }
{
    let count = words[TABLE_COUNT] as usize;
    let kept = close_up(words, map);
    clear(words, kept, count);
    words[TABLE_COUNT] = kept as u64;
}
