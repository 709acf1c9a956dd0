// Roots and marking (gc.rs, heap.rs: mark). Document 01, "Slots and growth": "Reach: a pair leads to car and cdr, a vector to
// each element that is a slot. A collection refuses by 14 a root that is not in use." What is met is marked at once, and waits
// in the scratch until what it leads to is marked too: a stack, and no recursion. Each slot is pushed once.
#![tactic(auto)]

ghost use Rattle.std.specs.Prelude.{◌≡◌, [], ◌∷◌, ◌+◌, ◌*◌, ◌/◌, ◌%◌, ◌<◌, ◌≤◌, length, get_or};
ghost use Rattle.laws.specs.Basics.{every};
ghost use Rattle.rules.specs.Heap.{in_use};
ghost use Rattle.rules.specs.Collect.{slots_among};
ghost use Rattle.rules.specs.Layout.{heap_of};
ghost use Rattle.leaf_cells.specs.Elements.{value_of};
ghost use Rattle.heap_sound_rows.specs.Rows.{lists};
ghost use Rattle.heap_mark.specs.Marks.{CanPush, Pushed, values, leads, Rowed, CanMark, marked_map};

use leaf_cells::{VCell, Value};

// Kept: single lists, since marking changes the map alone, which lists all to be read or all to be changed don't say.

// No. 14: every root is below the capacity and Allocated.
pub fn roots_in_use(words: &[u64], map: &[u8], roots: &[u64]) -> bool
    requires in_bounds { 8 ≤ length words.now }
    requires words_value { get_or words.now 1 0 % 4 ≡ 0 }
    ensures { result ≡ every (in_use (heap_of (lists words.now map.now [] []))) roots.now }
{
    let capacity = words[1] as usize;
    roots
        .iter()
        .all(|root| heap_sound_cells::in_use(map, capacity, *root))
}

// A slot met: marked and on the stack, if it was not marked yet. Answers the stack's new height.
fn push(map: &mut [u8], scratch: &mut [u64], top: usize, slot: usize) -> usize
    requires { CanPush (slot ∷ []) map.old scratch.old top }
    ensures { Pushed (slot ∷ []) map.old scratch.old top map.new scratch.new result }
{
    if leaf_map::is_marked(map, slot) {
        return top;
    }
    leaf_map::mark(map, slot);
    scratch[top] = slot as u64;
    top + 1
}

// The roots, on an empty stack.
fn push_roots(map: &mut [u8], scratch: &mut [u64], roots: &[u64]) -> usize
    requires { CanPush roots.now map.old scratch.old 0 }
    ensures { Pushed roots.now map.old scratch.old 0 map.new scratch.new result }
{
    let mut top = 0;
    for root in roots {
        top = push(map, scratch, top, *root as usize);
    }
    top
}

// An element, if it is a slot.
fn push_value(map: &mut [u8], scratch: &mut [u64], top: usize, v: Value) -> usize
    requires { CanPush (slots_among (value_of v ∷ [])) map.old scratch.old top }
    ensures { Pushed (slots_among (value_of v ∷ [])) map.old scratch.old top map.new scratch.new result }
{
    match v {
        Value::Slot(s) => push(map, scratch, top, s),
        _ => top,
    }
}

// The elements of a vector, in their order.
fn push_elements(
    elems: &[u64],
    map: &mut [u8],
    scratch: &mut [u64],
    top: usize,
    place: usize,
    size: usize,
) -> usize
    requires size_in_bounds { 3 * (place + size) ≤ length elems.now }
    requires can_push { CanPush (slots_among (values elems.now place size)) map.old scratch.old top }
    ensures { Pushed (slots_among (values elems.now place size)) map.old scratch.old top map.new scratch.new result }
{
    let mut height = top;
    for j in 0..size {
        let v = leaf_cells::load_element(elems, place + j);
        height = push_value(map, scratch, height, v);
    }
    height
}

// What a slot's cell leads to: a pair's car and cdr, a vector's elements.
fn push_cell(
    words: &[u64],
    elems: &[u64],
    map: &mut [u8],
    scratch: &mut [u64],
    top: usize,
    slot: usize,
) -> usize
    requires rowed { Rowed words.now elems.now }
    requires slot_bound { slot < get_or words.now 1 0 }
    requires can_push { CanPush (leads words.now elems.now slot) map.old scratch.old top }
    ensures { Pushed (leads words.now elems.now slot) map.old scratch.old top map.new scratch.new result }
{
    match leaf_cells::load(words, slot) {
        VCell::Pair(car, cdr) => {
            let height = push(map, scratch, top, car);
            push(map, scratch, height, cdr)
        }
        VCell::Vector(place, size) => push_elements(elems, map, scratch, top, place, size),
        _ => top,
    }
}

// Marks all that the roots reach, and nothing else. What the scratch holds afterwards is not said.
//
// Kept: the stack is the start of the lent scratch, with its height beside it (the C interface; the libraries have no heap).
pub fn mark(words: &[u64], map: &mut [u8], elems: &[u64], scratch: &mut [u64], roots: &[u64])
    requires { CanMark words.now map.old elems.now scratch.old roots.now }
    ensures { map.new ≡ marked_map words.now map.old elems.now roots.now }
{
    let mut top = push_roots(map, scratch, roots);
    while 0 < top {
        top -= 1;
        let slot = scratch[top] as usize;
        top = push_cell(words, elems, map, scratch, top, slot);
    }
}
