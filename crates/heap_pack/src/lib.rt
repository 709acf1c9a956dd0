// Packing (collection's last step). Document 01: "A collection keeps each block that a surviving slot shows, once, packed by
// lowest such slot; sharing stays. Room past the part in use is zero." The arena is copied aside; then slot by slot a block
// that was not moved yet is written to the start of the arena's tail, which is lent on, and the rest is cleared. A block is
// known again by the place where it began, so each costs one look.
#![tactic(auto)]

ghost use Rattle.std.specs.Prelude.{◌≡◌, List, ℕ, ◌+◌, ◌*◌, ◌/◌, ◌≤◌, ◌<◌, length, get_or};
ghost use Rattle.rules.specs.Cells.{block};
ghost use Rattle.rules.specs.Heap.{Heap};
ghost use Rattle.rules.specs.Layout.{Rooms};
ghost use Rattle.rules.specs.Sound.{text_block, vector_block};
ghost use Rattle.leaf_cells.specs.Cells.{cell_of};
ghost use Rattle.leaf_lists.specs.Lists.{SameLists};
ghost use Rattle.leaf_rooms.specs.Rooms.{stored};
ghost use Rattle.heap_pack.specs.Moves.{shown, placed, Written, TextMoved, ElementsMoved, TextReady, TextTurned, ElementsReady, ElementsTurned};
ghost use Rattle.heap_pack.specs.Passes.{TextsBegin, TextsEnd, TextsLent, TextsPacked, ElementsBegin, ElementsEnd, ElementsLent, ElementsPacked, TextsGiven, ElementsGiven, PackGiven, AllPacked};

use leaf_cells::VCell;
use leaf_lists::ListsMut;

// A block: its place and its length; none is the empty one at place 0.
#[derive(Clone, Copy, Default)]
pub struct Span {
    pub place: usize,
    pub size: usize,
}

// Where a block went, and how much of the room is in use then.
#[derive(Clone, Copy)]
pub struct Gone {
    pub to: usize,
    pub at: usize,
}

// The block of a string's or a symbol's text; an empty one for other cells.
fn text_block(c: VCell) -> Span
    ensures { shown result ≡ text_block (cell_of c) }
{
    match c {
        VCell::Symbol(place, size) | VCell::String(place, size) => Span { place, size },
        _ => Span::default(),
    }
}

// The block of a vector; an empty one for other cells.
fn vector_block(c: VCell) -> Span
    ensures { shown result ≡ vector_block (cell_of c) }
{
    match c {
        VCell::Vector(place, size) => Span { place, size },
        _ => Span::default(),
    }
}

// The cell with its block at another place.
fn with_place(c: VCell, to: usize) -> VCell
    ensures { cell_of result ≡ placed to (cell_of c) }
{
    match c {
        VCell::Symbol(_, size) => VCell::Symbol(to, size),
        VCell::String(_, size) => VCell::String(to, size),
        VCell::Vector(_, size) => VCell::Vector(to, size),
        _ => c,
    }
}

// A text goes to the start of the arena's tail, unless it is there already.
fn move_text(
    bytes: &mut [u8],
    old: &[u8],
    table: &mut [u32],
    at: usize,
    place: usize,
    size: usize,
) -> Gone
    requires { Written table.old at place size (length old.now) (length bytes.old) }
    ensures { TextMoved bytes.old old.now table.old at place size bytes.new table.new result }
{
    let known = table[place] as usize;
    if known > 0 {
        return Gone { to: known - 1, at };
    }
    let end = place + size;
    leaf_rooms::write(&mut bytes[at..], 0, &old[place..end]);
    table[place] = (at + 1) as u32;
    Gone {
        to: at,
        at: at + size,
    }
}

// The same of a vector's elements, three words each.
fn move_elements(
    elems: &mut [u64],
    old: &[u64],
    table: &mut [u32],
    at: usize,
    place: usize,
    size: usize,
) -> Gone
    requires { Written table.old at place size (length old.now / 3) (length elems.old / 3) }
    ensures { ElementsMoved elems.old old.now table.old at place size elems.new table.new result }
{
    let known = table[place] as usize;
    if known > 0 {
        return Gone { to: known - 1, at };
    }
    let start = 3 * place;
    let end = start + 3 * size;
    let from = 3 * at;
    leaf_rooms::write(&mut elems[from..], 0, &old[start..end]);
    table[place] = (at + 1) as u32;
    Gone {
        to: at,
        at: at + size,
    }
}

// A slot's turn: its text goes to its place. The answer is how much of the room is in use.
fn pack_text(
    words: &mut [u64],
    bytes: &mut [u8],
    old: &[u8],
    table: &mut [u32],
    at: usize,
    s: usize,
) -> usize
    requires { TextReady words.old bytes.old old.now table.old at s }
    ensures { TextTurned words.old bytes.old old.now table.old at s words.new bytes.new table.new result }
{
    let c = leaf_cells::load(words, s);
    let b = text_block(c);
    if b.size == 0 {
        return at;
    }
    let g = move_text(bytes, old, table, at, b.place, b.size);
    leaf_cells::store(words, s, with_place(c, g.to));
    g.at
}

// The same of its elements.
fn pack_elements(
    words: &mut [u64],
    elems: &mut [u64],
    old: &[u64],
    table: &mut [u32],
    at: usize,
    s: usize,
) -> usize
    requires { ElementsReady words.old elems.old old.now table.old at s }
    ensures { ElementsTurned words.old elems.old old.now table.old at s words.new elems.new table.new result }
{
    let c = leaf_cells::load(words, s);
    let b = vector_block(c);
    if b.size == 0 {
        return at;
    }
    let g = move_elements(elems, old, table, at, b.place, b.size);
    leaf_cells::store(words, s, with_place(c, g.to));
    g.at
}

// Slot after slot: the texts, in the order of the slots that show them.
fn text_turns(words: &mut [u64], bytes: &mut [u8], old: &[u8], table: &mut [u32]) -> usize
    requires { (n : ℕ) × (h : Heap) × (room : ℕ) × TextsBegin n h room words.old bytes.old old.now table.old }
    ensures { (n : ℕ) (h : Heap) (room : ℕ) → TextsBegin n h room words.old bytes.old old.now table.old → TextsEnd n h room words.new bytes.new result }
{
    let capacity = words[1] as usize;
    let mut at = 0;
    for s in 0..capacity {
        at = pack_text(words, bytes, old, table, at, s);
    }
    at
}

// The texts packed, with an arena aside and a table that are lent clear.
fn pack_texts_in(words: &mut [u64], bytes: &mut [u8], old: &mut [u8], table: &mut [u32])
    requires { (n : ℕ) × (h : Heap) × (room : ℕ) × TextsLent n h room words.old bytes.old old.old table.old }
    ensures { (n : ℕ) (h : Heap) (room : ℕ) → TextsLent n h room words.old bytes.old old.old table.old → TextsPacked n h room words.new bytes.new }
{
    let used = words[4] as usize;
    leaf_rooms::write(old, 0, &bytes[..used]);
    let end = text_turns(words, bytes, old, table);
    leaf_clear::clear_bytes(&mut bytes[end..used]);
    words[4] = end as u64;
}

// The same of the elements.
fn element_turns(words: &mut [u64], elems: &mut [u64], old: &[u64], table: &mut [u32]) -> usize
    requires { (n : ℕ) × (h : Heap) × (room : ℕ) × ElementsBegin n h room words.old elems.old old.now table.old }
    ensures { (n : ℕ) (h : Heap) (room : ℕ) → ElementsBegin n h room words.old elems.old old.now table.old → ElementsEnd n h room words.new elems.new result }
{
    let capacity = words[1] as usize;
    let mut at = 0;
    for s in 0..capacity {
        at = pack_elements(words, elems, old, table, at, s);
    }
    at
}

// The elements packed, with an arena aside and a table that are lent clear.
fn pack_elements_in(words: &mut [u64], elems: &mut [u64], old: &mut [u64], table: &mut [u32])
    requires { (n : ℕ) × (h : Heap) × (room : ℕ) × ElementsLent n h room words.old elems.old old.old table.old }
    ensures { (n : ℕ) (h : Heap) (room : ℕ) → ElementsLent n h room words.old elems.old old.old table.old → ElementsPacked n h room words.new elems.new }
{
    let used = 3 * words[5] as usize;
    leaf_rooms::write(old, 0, &elems[..used]);
    let end = element_turns(words, elems, old, table);
    let from = 3 * end;
    leaf_clear::clear_words(&mut elems[from..used]);
    words[5] = end as u64;
}

// The texts packed.
fn pack_texts(words: &mut [u64], bytes: &mut [u8])
    requires { (n : ℕ) × (h : Heap) × (room : ℕ) × TextsGiven n h room words.old bytes.old }
    ensures { (n : ℕ) (h : Heap) (room : ℕ) → TextsGiven n h room words.old bytes.old → TextsPacked n h room words.new bytes.new }
{
    let mut old = [0u8; 65536];
    let mut table = [0u32; 65536];
    pack_texts_in(words, bytes, &mut old, &mut table);
}

// The elements packed.
fn pack_vectors(words: &mut [u64], elems: &mut [u64])
    requires { (n : ℕ) × (h : Heap) × (room : ℕ) × ElementsGiven n h room words.old elems.old }
    ensures { (n : ℕ) (h : Heap) (room : ℕ) → ElementsGiven n h room words.old elems.old → ElementsPacked n h room words.new elems.new }
{
    let mut old = [0u64; 49152];
    let mut table = [0u32; 16384];
    pack_elements_in(words, elems, &mut old, &mut table);
}

// Both arenas packed.
pub fn pack(heap: &mut ListsMut<'_>)
    requires { (n : ℕ) × (h : Heap) × (r : Rooms) × PackGiven n h r heap.old.words.now heap.old.bytes.now heap.old.elems.now }
    ensures same_lists { SameLists heap.old heap.new }
    ensures map_stays { heap.new.map.now ≡ heap.old.map.now }
    ensures packed { (n : ℕ) (h : Heap) (r : Rooms) → PackGiven n h r heap.old.words.now heap.old.bytes.now heap.old.elems.now → AllPacked n h r heap.new.words.now heap.new.bytes.now heap.new.elems.now }
{
    pack_texts(heap.words, heap.bytes);
    pack_vectors(heap.words, heap.elems);
}
