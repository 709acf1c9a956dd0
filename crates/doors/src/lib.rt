// The checked doors: document 01's calls on lists that a caller lends. Each takes any lists and any numbers. It tests soundness
// (20), then what it was given, and calls the heap's own function by its contract. "A refusal answers its number only, and leaves
// heap and output as they stood." Allocating, freeing and marking are no calls.
#![tactic(auto)]

ghost use Rattle.std.specs.Prelude.{◌≡◌};
ghost use Rattle.rules.specs.Refusals.{told};
ghost use Rattle.rules.specs.Calls.{left, put_call, setup, text_in, text_call, text_part, text_told, capacity_call, free_call};
ghost use Rattle.leaf_cells.specs.Cells.{cell_of};
ghost use Rattle.heap_sound_rows.specs.Rows.{lists};
ghost use Rattle.leaf_lists.specs.Lists.{lent_of, held, SameLists};
ghost use Rattle.refusals.specs.Told.{answer_of};
ghost use Rattle.doors.specs.Answers.{set_up, Used, block_answer};

use leaf_cells::VCell;
use leaf_lists::{Lists, ListsMut};
use refusals::Refusal;

// "10 | setup, which gives no other": a fresh heap in the lent lists, whatever they held.
pub fn setup(heap: &mut ListsMut<'_>, chunk: u64) -> Result<(), Refusal>
    ensures same { SameLists heap.old heap.new }
    ensures leaves { set_up (answer_of result) (held heap.new) ≡ setup chunk (held heap.old) }
{
    if !heap_sound_rows::numbers(heap.lists(), chunk) {
        return Err(Refusal::BadSetup);
    }
    heap_setup::fresh(heap, chunk as usize);
    Ok(())
}

// Puts a lent datum, and answers its slot, or 20, 19, 11 to 13, 16 or 17: "The outer answer is always a slot."
pub fn put(heap: &mut ListsMut<'_>, scratch: &mut [u64], datum: &[u8]) -> Result<u64, Refusal>
    ensures same { SameLists heap.old heap.new }
    ensures leaves { left (answer_of result) (held heap.new) scratch.new ≡ put_call (held heap.old) scratch.old datum.now }
{
    let sound = heap_sound::checked(heap.lists())?;
    if heap_given::scratch_short(sound, scratch.len()) {
        return Err(Refusal::ShortScratch);
    }
    let slot = heap_put_whole::put(heap, scratch, datum)?;
    Ok(slot as u64)
}

// The capacity: the slots that growth has come to. Each count is refused by 20 alone.
pub fn capacity(heap: Lists<'_>) -> Result<u64, Refusal>
    ensures { answer_of result ≡ capacity_call (lent_of heap.entry) }
{
    let sound = heap_sound::checked(heap)?;
    Ok(sound.lists.words[1])
}

// The free count: the free list's length.
pub fn free(heap: Lists<'_>) -> Result<u64, Refusal>
    ensures { answer_of result ≡ free_call (lent_of heap.entry) }
{
    let sound = heap_sound::checked(heap)?;
    Ok(sound.lists.words[2])
}

// The used count, "counted from the map's set low bits"; it is capacity less the free list.
pub fn used(heap: Lists<'_>) -> Result<u64, Refusal>
    ensures { Used (lent_of heap.entry) result }
{
    let sound = heap_sound::checked(heap)?;
    let states = sound.lists.words[1] as usize / 4;
    Ok(leaf_map::used(&sound.lists.map[..states]) as u64)
}

// Where a text is in the byte arena.
#[derive(Clone, Copy, Debug, PartialEq, Eq)]
pub struct TextBlock {
    pub place: usize,
    pub size: usize,
}

// "15 | .. text: neither string nor symbol"
fn block_in(cell: VCell) -> Result<TextBlock, Refusal>
    ensures { block_answer result ≡ text_in (cell_of cell) }
{
    match cell {
        VCell::Symbol(place, size) | VCell::String(place, size) => Ok(TextBlock { place, size }),
        _ => Err(Refusal::WrongCell),
    }
}

// The block of the string or name in a slot, or 20, 14 or 15. For a host that takes numbers and no part of a list.
pub fn text_block(heap: Lists<'_>, slot: u64) -> Result<TextBlock, Refusal>
    ensures { block_answer result ≡ text_call (lent_of heap.entry) slot }
{
    let checked = heap_sound::checked(heap)?;
    match leaf_cells::look_up(checked.lists.words, checked.lists.map, slot as usize) {
        Some(cell) => block_in(cell),
        None => Err(Refusal::NoSuchSlot),
    }
}

// "A string or name is read as the part of the byte arena that holds it, empty where refused".
// Kept: four slices, as the answer keeps the bytes alone borrowed; `Lists`, with one lifetime, would ask for the others too.
pub fn text<'a>(words: &[u64], map: &[u8], bytes: &'a [u8], elems: &[u64], slot: u64) -> &'a [u8]
    ensures { result.now ≡ text_part (lists words.now map.now bytes.now elems.now) slot }
{
    let heap = Lists {
        words,
        map,
        bytes,
        elems,
    };
    match text_block(heap, slot) {
        Ok(block) => leaf_rooms::text(bytes, block.place, block.size),
        Err(_) => &bytes[..0],
    }
}

// "a second call tells 0 or the refusal".
pub fn text_told(heap: Lists<'_>, slot: u64) -> Result<(), Refusal>
    ensures { told (answer_of result) ≡ text_told (lent_of heap.entry) slot }
{
    text_block(heap, slot)?;
    Ok(())
}
