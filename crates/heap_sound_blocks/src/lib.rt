// The blocks of lent lists. Document 01, "A heap is sound when": "blocks lie in the room in use and are either the same or
// disjoint, an empty one at place 0". Each block is painted over its arena with the slot that showed it first, so that each
// place of the arena is met once: a block that begins where nothing is painted must be clear, and one that begins where another
// is painted must be that one.
//
// Texts are the blocks of the kinds 7 and 8, strings and symbols; vectors are those of kind 10.
#![tactic(auto)]

ghost use Rattle.std.specs.Prelude.{◌≡◌, ℕ, ◌+◌, ◌*◌, ◌<◌, ◌≤◌, length, get_or};
ghost use Rattle.rules.specs.Sound.{lies_in};
ghost use Rattle.heap_sound_blocks.specs.Blocks.{shown, as_block, Covered, Painted, Turned, Laid};

// A part of an arena; none is the empty one at place 0.
#[derive(Clone, Copy, PartialEq, Eq, Default)]
pub struct Part {
    pub place: u64,
    pub size: u64,
}

// The kinds of cells whose blocks lie in one arena, from a lowest to a highest.
#[derive(Clone, Copy)]
pub struct Kinds {
    pub low: u64,
    pub high: u64,
}

// Strings and symbols, whose texts lie in the byte arena.
pub const TEXTS: Kinds = Kinds { low: 7, high: 8 };

// Vectors, whose elements lie in the element arena.
pub const VECTORS: Kinds = Kinds { low: 10, high: 10 };

// The block that a slot's row shows, where its kind is one of these; else an empty one.
#[tactic(auto, unfolding(crate::specs::Blocks::shown))]
pub fn shown(words: &[u64], kinds: Kinds, slot: usize) -> Part
    requires { 8 * slot + 16 ≤ length words.now }
    ensures { as_block result ≡ shown words.now kinds.low kinds.high slot }
{
    let at = 8 + 8 * slot;
    if kinds.low <= words[at] && words[at] <= kinds.high {
        Part {
            place: words[at + 1],
            size: words[at + 2],
        }
    } else {
        Part::default()
    }
}

// "blocks lie in the room in use .., an empty one at place 0"
#[tactic(auto, unfolding(rules::specs::Sound::lies_in))]
fn lies_in(used: usize, b: Part) -> bool
    ensures { result ≡ lies_in used (as_block b) }
{
    let used = used as u64;
    b.place <= used && b.size <= used - b.place && (b.size != 0 || b.place == 0)
}

// Paints a part, which must be clear.
fn cover(paint: &mut [u16], place: usize, size: usize, mark: u16) -> bool
    requires { place + size ≤ length paint.old }
    ensures { Covered paint.old paint.new place size mark result }
{
    for i in 0..size {
        if paint[place + i] != 0 {
            return false;
        }
        paint[place + i] = mark;
    }
    true
}

// The turn of a slot, where the blocks of those before it are painted.
fn turn(words: &[u64], kinds: Kinds, used: usize, slot: usize, paint: &mut [u16]) -> bool
    requires slot_in_bounds { 8 * slot + 16 ≤ length words.now }
    requires slot_bound { slot < 4096 }
    requires used_in_bounds { used ≤ length paint.old }
    requires painted { Painted (shown words.now kinds.low kinds.high) slot paint.old }
    ensures { Turned (shown words.now kinds.low kinds.high) used slot paint.new result }
{
    let b = shown(words, kinds, slot);
    if !lies_in(used, b) {
        return false;
    }
    if b.size == 0 {
        return true;
    }
    let place = b.place as usize;
    match paint[place] {
        0 => cover(paint, place, b.size as usize, (slot + 1) as u16),
        by => shown(words, kinds, by as usize - 1) == b,
    }
}

// Paints the blocks of all slots below the capacity; false where they are not sound.
pub fn lay(words: &[u64], kinds: Kinds, used: usize, capacity: usize, paint: &mut [u16]) -> bool
    requires capacity_in_bounds { 8 + 8 * capacity ≤ length words.now }
    requires capacity_bound { capacity ≤ 4096 }
    requires used_in_bounds { used ≤ length paint.old }
    requires by_index { (x : ℕ) → get_or paint.old x 0 ≡ 0 }
    ensures { Laid (shown words.now kinds.low kinds.high) used capacity paint.new result }
{
    for slot in 0..capacity {
        if !turn(words, kinds, used, slot, paint) {
            return false;
        }
    }
    true
}
