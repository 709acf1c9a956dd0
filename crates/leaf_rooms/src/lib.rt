// The rooms of the arenas: a text as the part of the bytes that holds it, and new blocks. Document 01: "A string or name is read as
// the part of the byte arena that holds it", "New blocks go at the end of the room in use", "an empty one at place 0".
#![tactic(auto)]

ghost use Rattle.std.specs.Prelude.{◌≡◌, ◌+◌, ◌^◌, ◌≤◌, ◌<◌, length, get_or};
ghost use Rattle.leaf_rooms.specs.Rooms.{stored, Appended, Reserved};
ghost use Rattle.rules.specs.Cells.{block};
ghost use Rattle.rules.specs.Heap.{part_of};

// Words of the header: the bytes and the elements in use.
const BYTES_USED: usize = 4;

const ELEMENTS_USED: usize = 5;

// "A string or name is read as the part of the byte arena that holds it."
pub fn text(bytes: &[u8], place: usize, size: usize) -> &[u8]
    requires { place + size ≤ length bytes.now }
    ensures { result.now ≡ part_of bytes.now (block place size) }
{
    &bytes[place..place + size]
}

// A part written over what stood from a place on.
// Kept: a loop, since std's copy_from_slice would have a host in C give memmove too, where this asks for memcpy alone.
pub fn write<T: Copy>(room: &mut [T], at: usize, part: &[T])
    requires { at + length part.now ≤ length room.old }
    ensures { room.new ≡ stored room.old at part.now }
{
    for i in 0..part.len() {
        room[at + i] = part[i];
    }
}

// Raises a word of the header, which counts a room in use, and answers where the new block is: at the old count, "an empty
// one at place 0".
#[tactic(auto, unfolding(crate::specs::Rooms::raised, crate::specs::Rooms::new_place))]
fn raise(words: &mut [u64], k: usize, n: usize) -> usize
    requires k_in_bounds { k < length words.old }
    requires n_bound { get_or words.old k 0 + n < 2 ^ 64 }
    ensures { Reserved words.old words.new k n result }
{
    let end = words[k];
    words[k] = end + n as u64;
    if n == 0 { 0 } else { end as usize }
}

// "New blocks go at the end of the room in use": the text is written there, and the answer is its place.
pub fn append_text(words: &mut [u64], bytes: &mut [u8], text: &[u8]) -> usize
    requires in_bounds { 8 ≤ length words.old }
    requires text_in_bounds { get_or words.old 4 0 + length text.now ≤ length bytes.old }
    ensures { Appended words.old words.new bytes.old bytes.new text.now result }
{
    write(bytes, words[BYTES_USED] as usize, text);
    raise(words, BYTES_USED, text.len())
}

// A block of n elements at the end of the room in use. Spare room is zero and zero is Undefined, so nothing is written.
pub fn reserve_elements(words: &mut [u64], n: usize) -> usize
    requires in_bounds { 8 ≤ length words.old }
    requires n_bound { get_or words.old 5 0 + n < 2 ^ 64 }
    ensures { Reserved words.old words.new 5 n result }
{
    raise(words, ELEMENTS_USED, n)
}
