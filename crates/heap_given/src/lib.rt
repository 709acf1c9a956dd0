// Values that a caller gives, as a kind's number and its fields. Document 01: "11 | datum or given scalar malformed", "Cell
// store: a scalar or a pair of used slots", "Element store: a scalar or a used slot. Any other kind given is 11." Fields that the
// kind has not are not looked at. Then whether the slots that a given value or cell names are in use: "14 | a slot given is past
// the capacity or Free"; and whether the scratch that is lent is long enough.
#![tactic(auto)]

ghost use Rattle.std.specs.Prelude.{◌≡◌, ltb, get_or};
ghost use Rattle.rules.specs.Numbers.{scratch_words};
ghost use Rattle.rules.specs.Calls.{given_scalar, given_value, given_cell};
ghost use Rattle.leaf_cells.specs.Cells.{cell_of};
ghost use Rattle.leaf_cells.specs.Elements.{value_of};
ghost use Rattle.heap_sound_cells.specs.Looked.{named};
ghost use Rattle.heap_given.specs.Given.{scalar_answer, value_answer, cell_answer, cell_named};

use heap_sound::Sound;
use leaf_cells::{VCell, Value};
use leaf_nodes::Fault;

// "unknown kind, .. Bool not 0 or 1, Char .. not allowed"
pub fn given_scalar(kind: u64, a: u64) -> Result<(), Fault>
    ensures { scalar_answer result kind a ≡ given_scalar kind a }
{
    match kind {
        4 if 1 < a => Err(Fault::BadBool),
        5 if !leaf_utf8::is_scalar_value(a) => Err(Fault::BadChar),
        0..=6 => Ok(()),
        _ => Err(Fault::UnknownKind),
    }
}

// "a value is a slot or a scalar"
pub fn given_value(kind: u64, a: u64) -> Result<Value, Fault>
    ensures { value_answer result ≡ given_value kind a }
{
    if kind == 15 {
        return Ok(Value::Slot(a as usize));
    }
    given_scalar(kind, a)?;
    Ok(leaf_cells::value_from(kind, a))
}

// "a scalar or a pair"
pub fn given_cell(kind: u64, a: u64, b: u64) -> Result<VCell, Fault>
    ensures { cell_answer result ≡ given_cell kind a b }
{
    if kind == 9 {
        return Ok(VCell::Pair(a as usize, b as usize));
    }
    given_scalar(kind, a)?;
    Ok(leaf_cells::cell_from(kind, a, b))
}

// The slot that a value is, if any, is in use.
// Kept: map and capacity, for any of which this holds: to take a `Sound` would ask more of callers, and docs/RULES.md names it.
pub fn value_in_use(map: &[u8], capacity: usize, v: Value) -> bool
    ensures { result ≡ named capacity map.now (value_of v) }
{
    match v {
        Value::Slot(s) => heap_sound_cells::in_use(map, capacity, s as u64),
        _ => true,
    }
}

// The slots of a pair are in use.
// Kept: map and capacity, as above.
pub fn cell_in_use(map: &[u8], capacity: usize, c: VCell) -> bool
    ensures { result ≡ cell_named capacity map.now (cell_of c) }
{
    match c {
        VCell::Pair(a, d) => {
            heap_sound_cells::in_use(map, capacity, a as u64)
                && heap_sound_cells::in_use(map, capacity, d as u64)
        }
        _ => true,
    }
}

// "19 | scratch shorter than the formula", for the capacity of a sound heap.
pub fn scratch_short(heap: Sound<'_>, scratch: usize) -> bool
    ensures { result ≡ ltb scratch (scratch_words (get_or heap.entry.lists.words.now 1 0)) }
{
    scratch < 8 * heap.lists.words[1] as usize + 128
}
