// Soundness of any lent state. Document 01, "A heap is sound when": true exactly when the rules' soundness holds. Any lengths and
// any contents are taken, nothing is changed, and no scratch is used.
#![tactic(auto)]

ghost use Rattle.std.specs.Prelude.{◌≡◌, length, get_or};
ghost use Rattle.rules.specs.Sound.{sound};
ghost use Rattle.leaf_lists.specs.Lists.{lent_of};
ghost use Rattle.heap_sound_table.specs.Entries.{Decided};
ghost use Rattle.heap_sound.specs.Parts.{Outline, Contents};

use leaf_lists::Lists;

mod found;

pub use found::{Sound, checked};

// What is looked at word by word: the numbers, the counts, the growth, the rows, the states and the free list.
fn outline(heap: Lists<'_>) -> bool
    ensures { Decided (Outline (lent_of heap.entry)) result }
{
    if heap.words.len() < 8 {
        return false;
    }
    if !heap_sound_rows::numbers(heap, heap.words[0]) {
        return false;
    }
    if !heap_sound_rows::counts(heap) {
        return false;
    }
    let capacity = heap.words[1] as usize;
    if !leaf_free::reaches(heap.words[0] as usize, capacity) {
        return false;
    }
    if !heap_sound_rows::written(heap) {
        return false;
    }
    let states = capacity / 4;
    if !heap_sound_rows::settled(&heap.map[..states]) {
        return false;
    }
    heap_sound_free::free_sound(heap.words, heap.map)
}

// What cells, blocks, elements and the symbol table hold, where the outline is sound.
fn contents(heap: Lists<'_>) -> bool
    requires { Outline (lent_of heap) }
    ensures { Decided (Contents (lent_of heap.entry)) result }
{
    let capacity = heap.words[1] as usize;
    let texts = heap.words[4] as usize;
    let values = heap.words[5] as usize;
    // Kept: one `&&` was tried, and the proof did not close: what a test found is then out of reach of what a later call requires.
    if !heap_sound_cells::plain_cells(heap.words, heap.map, capacity) {
        return false;
    }
    if !heap_sound_cells::values_allowed(heap.elems, values) {
        return false;
    }
    if !heap_sound_cells::texts_sound(heap.words, &heap.bytes[..texts], capacity) {
        return false;
    }
    if !heap_sound_cells::vectors_sound(heap.words, heap.elems, heap.map, values, capacity) {
        return false;
    }
    heap_sound_table::table_sound(
        heap.words,
        heap.map,
        &heap.bytes[..texts],
        capacity,
        heap.words[3] as usize,
    )
}

// The lent state is sound.
pub fn is_sound(heap: Lists<'_>) -> bool
    ensures { result ≡ sound (lent_of heap.entry) }
{
    outline(heap) && contents(heap)
}
