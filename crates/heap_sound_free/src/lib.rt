// The free list and the Free slots of lent lists. Document 01, "A heap is sound when": "the free list holds each Free slot once
// and Free slots hold Undefined". A column's slots are marked one by one, so that each is met once; then the marks are compared
// with the map. The symbol table's slots are met once in the same way: "no two to the same slot".
#![tactic(auto)]

ghost use Rattle.std.specs.Prelude.{◌≡◌, ℕ, ◌+◌, ◌*◌, ◌/◌, ◌%◌, ◌<◌, ◌≤◌, eqb, ltb, length, get_or};
ghost use Rattle.laws.specs.Basics.{either, every_below};
ghost use Rattle.heap_sound_free.specs.Marks.{Marked, free_slot, free_sound};

// Marks the slots in the first n places of a column; stops where one is not below the capacity or was met before.
pub fn mark_column(
    words: &[u64],
    column: usize,
    n: usize,
    capacity: usize,
    marks: &mut [u8],
) -> bool
    requires column_bound { column < 8 }
    requires n_in_bounds { 8 + 8 * n ≤ length words.now }
    requires capacity_in_bounds { capacity ≤ length marks.old }
    requires by_index { (s : ℕ) → get_or marks.old s 0 ≡ 0 }
    ensures { Marked words.now column n capacity marks.new result }
{
    for i in 0..n {
        let slot = words[8 + 8 * i + column] as usize;
        if slot >= capacity || marks[slot] != 0 {
            return false;
        }
        marks[slot] = 1;
    }
    true
}

// A cell of this kind is Undefined; so is one of an unknown kind taken.
// Kept: the kind as its number: it is a word of the lent lists (the C interface), and may be none that is known.
fn undefined(kind: u64) -> bool
    ensures { result ≡ either (eqb kind 0) (ltb 10 kind) }
{
    kind == 0 || kind > 10
}

// A Free slot is marked and holds Undefined; another is not marked.
#[tactic(auto, unfolding(crate::specs::Marks::free_slot), using(crate::proofs::FreeLaws::undefined_word))]
fn free_slot(words: &[u64], map: &[u8], marks: &[u8], slot: usize) -> bool
    requires slot_in_bounds { 8 * slot + 16 ≤ length words.now }
    requires slot_in_bounds_2 { slot < length marks.now }
    ensures { result ≡ free_slot words.now map.now marks.now slot }
{
    if leaf_map::get(map, slot) == leaf_map::State::Free {
        marks[slot] == 1 && undefined(words[8 + 8 * slot])
    } else {
        marks[slot] == 0
    }
}

fn free_slots(words: &[u64], map: &[u8], marks: &[u8], capacity: usize) -> bool
    requires capacity_in_bounds { 8 + 8 * capacity ≤ length words.now }
    requires capacity_in_bounds_2 { capacity ≤ length marks.now }
    ensures { result ≡ every_below capacity (free_slot words.now map.now marks.now) }
{
    for i in 0..capacity {
        if !free_slot(words, map, marks, i) {
            return false;
        }
    }
    true
}

// "the free list holds each Free slot once and Free slots hold Undefined", with marks that are zero at first.
fn free_list(words: &[u64], map: &[u8], marks: &mut [u8]) -> bool
    requires in_bounds { (8 ≤ length words.now) × (8 + 8 * get_or words.now 1 0 ≤ length words.now) }
    requires words_bound { get_or words.now 2 0 ≤ get_or words.now 1 0 }
    requires words_value { (get_or words.now 1 0 % 4 ≡ 0) × (get_or words.now 1 0 / 4 ≤ length map.now) }
    requires words_in_bounds { get_or words.now 1 0 ≤ length marks.old }
    requires by_index { (s : ℕ) → get_or marks.old s 0 ≡ 0 }
    ensures { result ≡ free_sound words.now map.now }
{
    let capacity = words[1] as usize;
    mark_column(words, 4, words[2] as usize, capacity, marks)
        && free_slots(words, map, marks, capacity)
}

// "the free list holds each Free slot once and Free slots hold Undefined".
pub fn free_sound(words: &[u64], map: &[u8]) -> bool
    requires in_bounds { (8 ≤ length words.now) × (8 + 8 * get_or words.now 1 0 ≤ length words.now) }
    requires words_bound { get_or words.now 2 0 ≤ get_or words.now 1 0 }
    requires words_value { (get_or words.now 1 0 % 4 ≡ 0) × (get_or words.now 1 0 / 4 ≤ length map.now) }
    requires words_bound_2 { get_or words.now 1 0 ≤ 4096 }
    ensures { result ≡ free_sound words.now map.now }
{
    let mut marks = [0u8; 4096];
    free_list(words, map, &mut marks)
}
