// The checked doors of the two stores. Document 01, "Slots and growth": "Cell store: a scalar or a pair of used slots into a used
// slot. Element store: a scalar or a used slot. Any other kind given is 11." Their refusals are 20, 11, 14 and 15. They take any
// lists and any numbers. "A refusal answers its number only, and leaves heap and output as they stood."
#![tactic(auto)]

ghost use Rattle.std.specs.Prelude.{◌≡◌, true};
ghost use Rattle.rules.specs.Sound.{sound};
ghost use Rattle.rules.specs.Calls.{stored, cell_store, element_store};
ghost use Rattle.leaf_cells.specs.Cells.{cell_of};
ghost use Rattle.leaf_cells.specs.Elements.{value_of};
ghost use Rattle.refusals.specs.Told.{answer_of};
ghost use Rattle.heap_sound_rows.specs.Rows.{lists};
ghost use Rattle.doors_store.specs.Behind.{cell_behind, element_behind};

use leaf_cells::{VCell, Value};
use leaf_lists::Lists;
use refusals::Refusal;

// A cell store behind 20 and 11: 14, 15.
fn store_cell(
    words: &mut [u64],
    map: &[u8],
    bytes: &[u8],
    elems: &[u64],
    slot: u64,
    new: VCell,
) -> Result<(), Refusal>
    requires { sound (lists words.old map.now bytes.now elems.now) ≡ true }
    ensures { stored (answer_of result) (lists words.new map.now bytes.now elems.now) ≡ cell_behind (lists words.old map.now bytes.now elems.now) slot (cell_of new) }
{
    let capacity = words[1] as usize;
    if !heap_sound_cells::in_use(map, capacity, slot) {
        return Err(Refusal::NoSuchSlot);
    }
    if !heap_given::cell_in_use(map, capacity, new) {
        return Err(Refusal::NoSuchSlot);
    }
    heap_store::cell_store(words, map, bytes, elems, slot as usize, new)
}

// "Cell store: a scalar or a pair of used slots into a used slot."
// Kept: four lists, as C lends the three that stay to be read only (the C interface).
pub fn cell_store(
    words: &mut [u64],
    map: &[u8],
    bytes: &[u8],
    elems: &[u64],
    slot: u64,
    kind: u64,
    a: u64,
    b: u64,
) -> Result<(), Refusal>
    ensures { stored (answer_of result) (lists words.new map.now bytes.now elems.now) ≡ cell_store (lists words.old map.now bytes.now elems.now) slot kind a b }
{
    heap_sound::checked(Lists {
        words,
        map,
        bytes,
        elems,
    })?;
    let new = heap_given::given_cell(kind, a, b)?;
    store_cell(words, map, bytes, elems, slot, new)
}

// An element store behind 20 and 11: 14, 15.
fn store_element(
    words: &[u64],
    map: &[u8],
    bytes: &[u8],
    elems: &mut [u64],
    slot: u64,
    k: u64,
    new: Value,
) -> Result<(), Refusal>
    requires { sound (lists words.now map.now bytes.now elems.old) ≡ true }
    ensures { stored (answer_of result) (lists words.now map.now bytes.now elems.new) ≡ element_behind (lists words.now map.now bytes.now elems.old) slot k (value_of new) }
{
    let capacity = words[1] as usize;
    if !heap_sound_cells::in_use(map, capacity, slot) {
        return Err(Refusal::NoSuchSlot);
    }
    if !heap_given::value_in_use(map, capacity, new) {
        return Err(Refusal::NoSuchSlot);
    }
    heap_store::element_store(words, map, bytes, elems, slot as usize, k, new)
}

// "Element store: a scalar or a used slot", as an element of the vector in a used slot.
// Kept: four lists, as C lends the three that stay to be read only (the C interface).
pub fn element_store(
    words: &[u64],
    map: &[u8],
    bytes: &[u8],
    elems: &mut [u64],
    slot: u64,
    k: u64,
    kind: u64,
    a: u64,
) -> Result<(), Refusal>
    ensures { stored (answer_of result) (lists words.now map.now bytes.now elems.new) ≡ element_store (lists words.now map.now bytes.now elems.old) slot k kind a }
{
    heap_sound::checked(Lists {
        words,
        map,
        bytes,
        elems,
    })?;
    let new = heap_given::given_value(kind, a)?;
    store_element(words, map, bytes, elems, slot, k, new)
}
