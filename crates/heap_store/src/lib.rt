// The two stores behind the doors' tests, with 15. Document 01: "Cell store: a scalar or a pair of used slots into a used slot.
// Element store: a scalar or a used slot", "15 | element store: not a vector or no such element; cell store: the slot holds a
// symbol". A block that a cell store lets go keeps its room until a collection; an element store shows through every slot that
// shows the block.
#![tactic(auto)]

ghost use Rattle.std.specs.Prelude.{◌≡◌, ◌+◌, ◌^◌, ◌<◌};
ghost use Rattle.rules.specs.Cells.{is_symbol};
ghost use Rattle.rules.specs.Layout.{heap_of};
ghost use Rattle.rules.specs.Sound.{vector_block};
ghost use Rattle.rules.specs.Calls.{stored, element_place, store_element};
ghost use Rattle.leaf_cells.specs.Cells.{cell_of};
ghost use Rattle.leaf_cells.specs.Elements.{value_of};
ghost use Rattle.refusals.specs.Told.{answer_of};
ghost use Rattle.heap_sound_rows.specs.Rows.{lists};
ghost use Rattle.heap_store.specs.Stores.{place_of, Ready, store_cell};

use leaf_cells::{VCell, Value};
use refusals::Refusal;

fn is_symbol(c: VCell) -> bool
    ensures { result ≡ is_symbol (cell_of c) }
{
    matches!(c, VCell::Symbol(_, _))
}

// Stores a cell into a slot in use that holds no symbol.
pub fn cell_store(
    words: &mut [u64],
    map: &[u8],
    bytes: &[u8],
    elems: &[u64],
    slot: usize,
    new: VCell,
) -> Result<(), Refusal>
    requires { Ready (lists words.old map.now bytes.now elems.now) slot }
    ensures { stored (answer_of result) (lists words.new map.now bytes.now elems.now) ≡ store_cell (lists words.old map.now bytes.now elems.now) slot (cell_of new) }
{
    if is_symbol(leaf_cells::load(words, slot)) {
        return Err(Refusal::WrongCell);
    }
    leaf_cells::store(words, slot, new);
    Ok(())
}

// Where an element is in the element arena; none: "not a vector or no such element".
fn element_place(c: VCell, k: u64) -> Option<usize>
    requires { (vector_block (cell_of c)).place + (vector_block (cell_of c)).size < 2 ^ 64 }
    ensures { place_of result ≡ element_place (cell_of c) k }
{
    match c {
        VCell::Vector(place, size) if k < size as u64 => Some(place + k as usize),
        _ => None,
    }
}

// Stores a value as element k of the vector in a slot in use.
pub fn element_store(
    words: &[u64],
    map: &[u8],
    bytes: &[u8],
    elems: &mut [u64],
    slot: usize,
    k: u64,
    new: Value,
) -> Result<(), Refusal>
    requires { Ready (lists words.now map.now bytes.now elems.old) slot }
    ensures { stored (answer_of result) (lists words.now map.now bytes.now elems.new) ≡ store_element (lists words.now map.now bytes.now elems.old) (heap_of (lists words.now map.now bytes.now elems.old)) slot k (value_of new) }
{
    let Some(at) = element_place(leaf_cells::load(words, slot), k) else {
        return Err(Refusal::WrongCell);
    };
    leaf_cells::store_element(elems, at, new);
    Ok(())
}
