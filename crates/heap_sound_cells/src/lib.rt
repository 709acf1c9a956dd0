// What cells and elements hold. Document 01, "A heap is sound when": "11's rules on kinds, Bool, Char and UTF-8 hold", "lengths
// of vectors, strings and names too", and "every slot that an Allocated cell or its elements name is Allocated". Of a block that
// several slots show the text or the elements are looked at once, at the slot that painted it.
#![tactic(auto)]

ghost use Rattle.std.specs.Prelude.{◌≡◌, not, ℕ, ◌+◌, ◌*◌, ◌<◌, ◌≤◌, eqb, length, get_or};
ghost use Rattle.laws.specs.Basics.{either, every_below};
ghost use Rattle.rules.specs.Layout.{cell_from, value_from};
ghost use Rattle.rules.specs.Sound.{value_allowed};
ghost use Rattle.heap_sound_blocks.specs.Blocks.{shown, Apart};
ghost use Rattle.heap_sound_cells.specs.Looked.{used_slot, plain_good, plain_at, value_at, named, text_good, first_text, vector_good, first_vector, Looked};

use heap_sound_blocks::{TEXTS, VECTORS};

// A slot below the capacity that is Allocated.
#[tactic(auto, unfolding(crate::specs::Looked::used_slot, rules::specs::Map::is_allocated))]
pub fn in_use(map: &[u8], capacity: usize, slot: u64) -> bool
    ensures { result ≡ used_slot capacity map.now slot }
{
    slot < capacity as u64 && leaf_map::get(map, slot as usize) == leaf_map::State::Allocated
}

// A cell by its three words, but for what its block holds: a Char is a scalar value, a pair names slots in use, and lengths are
// allowed.
// Kept: kinds by their numbers, here and below: they are words of the lent lists (the C interface), which the rules' Layout numbers.
fn plain_good(map: &[u8], capacity: usize, kind: u64, a: u64, b: u64) -> bool
    ensures { result ≡ plain_good capacity map.now (cell_from kind a b) }
{
    match kind {
        5 => leaf_utf8::is_scalar_value(a),
        7 => b <= 4096,
        8 => b <= 255,
        9 => in_use(map, capacity, a) && in_use(map, capacity, b),
        10 => b <= 1024,
        _ => true,
    }
}

// The cells of all slots below the capacity, but for what their blocks hold.
pub fn plain_cells(words: &[u64], map: &[u8], capacity: usize) -> bool
    requires { 8 + 8 * capacity ≤ length words.now }
    ensures { result ≡ every_below capacity (plain_at words.now map.now capacity) }
{
    for i in 0..capacity {
        let at = 8 + 8 * i;
        if !plain_good(map, capacity, words[at], words[at + 1], words[at + 2]) {
            return false;
        }
    }
    true
}

// An element that is a Char is a scalar value.
fn value_allowed(kind: u64, a: u64) -> bool
    ensures { result ≡ value_allowed (value_from kind a) }
{
    kind != 5 || leaf_utf8::is_scalar_value(a)
}

// The first n elements are allowed.
pub fn values_allowed(elems: &[u64], n: usize) -> bool
    requires { 3 * n ≤ length elems.now }
    ensures { result ≡ every_below n (λ k. value_allowed (value_at elems.now k)) }
{
    for i in 0..n {
        if !value_allowed(elems[3 * i], elems[3 * i + 1]) {
            return false;
        }
    }
    true
}

// An element that is a slot names one in use.
fn named(map: &[u8], capacity: usize, kind: u64, a: u64) -> bool
    ensures { result ≡ named capacity map.now (value_from kind a) }
{
    kind != 15 || in_use(map, capacity, a)
}

// The elements of a block name slots in use.
fn block_named(elems: &[u64], map: &[u8], capacity: usize, place: usize, size: usize) -> bool
    requires { 3 * (place + size) ≤ length elems.now }
    ensures { result ≡ every_below size (λ k. named capacity map.now (value_at elems.now (place + k))) }
{
    for i in 0..size {
        let at = 3 * (place + i);
        if !named(map, capacity, elems[at], elems[at + 1]) {
            return false;
        }
    }
    true
}

// The text of a slot, where that slot painted it.
fn text_utf8(words: &[u64], bytes: &[u8], paint: &[u16], slot: usize) -> bool
    requires slot_in_bounds { 8 * slot + 16 ≤ length words.now }
    requires slot_in_bounds_2 { (shown words.now 7 8 slot).place + (shown words.now 7 8 slot).size ≤ length bytes.now }
    requires bytes_in_bounds { length bytes.now ≤ length paint.now }
    ensures { result ≡ first_text words.now bytes.now paint.now slot }
{
    let b = heap_sound_blocks::shown(words, TEXTS, slot);
    if b.size == 0 {
        return true;
    }
    let place = b.place as usize;
    let size = b.size as usize;
    if paint[place] as usize != slot + 1 {
        return true;
    }
    leaf_utf8::is_utf8(leaf_rooms::text(bytes, place, size))
}

fn texts_utf8(words: &[u64], bytes: &[u8], paint: &[u16], capacity: usize) -> bool
    requires capacity_in_bounds { 8 + 8 * capacity ≤ length words.now }
    requires apart { Apart (shown words.now 7 8) (length bytes.now) capacity }
    requires bytes_in_bounds { length bytes.now ≤ length paint.now }
    ensures { result ≡ every_below capacity (first_text words.now bytes.now paint.now) }
{
    for i in 0..capacity {
        if !text_utf8(words, bytes, paint, i) {
            return false;
        }
    }
    true
}

// The strings and names, with paint that is clear at first.
fn texts(words: &[u64], bytes: &[u8], capacity: usize, paint: &mut [u16]) -> bool
    requires capacity_in_bounds { 8 + 8 * capacity ≤ length words.now }
    requires capacity_bound { capacity ≤ 4096 }
    requires bytes_in_bounds { length bytes.now ≤ length paint.old }
    requires by_index { (x : ℕ) → get_or paint.old x 0 ≡ 0 }
    ensures { Looked (shown words.now 7 8) (length bytes.now) capacity (text_good bytes.now) result }
{
    if !heap_sound_blocks::lay(words, TEXTS, bytes.len(), capacity, paint) {
        return false;
    }
    texts_utf8(words, bytes, paint, capacity)
}

// The blocks of strings and names lie in the bytes in use, are the same or disjoint, and hold UTF-8.
pub fn texts_sound(words: &[u64], bytes: &[u8], capacity: usize) -> bool
    requires capacity_in_bounds { 8 + 8 * capacity ≤ length words.now }
    requires capacity_bound { capacity ≤ 4096 }
    requires bytes_len_bound { length bytes.now ≤ 65536 }
    ensures { Looked (shown words.now 7 8) (length bytes.now) capacity (text_good bytes.now) result }
{
    let mut paint = [0u16; 65536];
    texts(words, bytes, capacity, &mut paint)
}

// The elements of a slot's vector, where that slot painted it.
fn vector_named(
    words: &[u64],
    elems: &[u64],
    map: &[u8],
    paint: &[u16],
    capacity: usize,
    slot: usize,
) -> bool
    requires slot_in_bounds { 8 * slot + 16 ≤ length words.now }
    requires slot_in_bounds_2 { 3 * ((shown words.now 10 10 slot).place + (shown words.now 10 10 slot).size) ≤ length elems.now }
    requires slot_in_bounds_3 { (shown words.now 10 10 slot).place + (shown words.now 10 10 slot).size ≤ length paint.now }
    ensures { result ≡ first_vector words.now elems.now map.now capacity paint.now slot }
{
    let b = heap_sound_blocks::shown(words, VECTORS, slot);
    if b.size == 0 {
        return true;
    }
    let place = b.place as usize;
    let size = b.size as usize;
    if paint[place] as usize != slot + 1 {
        return true;
    }
    block_named(elems, map, capacity, place, size)
}

fn vectors_named(
    words: &[u64],
    elems: &[u64],
    map: &[u8],
    paint: &[u16],
    capacity: usize,
    used: usize,
) -> bool
    requires capacity_in_bounds { 8 + 8 * capacity ≤ length words.now }
    requires apart { Apart (shown words.now 10 10) used capacity }
    requires used_in_bounds { 3 * used ≤ length elems.now }
    requires used_in_bounds_2 { used ≤ length paint.now }
    ensures { result ≡ every_below capacity (first_vector words.now elems.now map.now capacity paint.now) }
{
    for i in 0..capacity {
        if !vector_named(words, elems, map, paint, capacity, i) {
            return false;
        }
    }
    true
}

// The vectors, with paint that is clear at first.
fn vectors(
    words: &[u64],
    elems: &[u64],
    map: &[u8],
    used: usize,
    capacity: usize,
    paint: &mut [u16],
) -> bool
    requires capacity_in_bounds { 8 + 8 * capacity ≤ length words.now }
    requires capacity_bound { capacity ≤ 4096 }
    requires used_in_bounds { 3 * used ≤ length elems.now }
    requires used_in_bounds_2 { used ≤ length paint.old }
    requires by_index { (x : ℕ) → get_or paint.old x 0 ≡ 0 }
    ensures { Looked (shown words.now 10 10) used capacity (vector_good elems.now map.now capacity) result }
{
    if !heap_sound_blocks::lay(words, VECTORS, used, capacity, paint) {
        return false;
    }
    vectors_named(words, elems, map, paint, capacity, used)
}

// The blocks of vectors lie in the elements in use, are the same or disjoint, and name slots in use.
pub fn vectors_sound(words: &[u64], elems: &[u64], map: &[u8], used: usize, capacity: usize) -> bool
    requires capacity_in_bounds { 8 + 8 * capacity ≤ length words.now }
    requires capacity_bound { capacity ≤ 4096 }
    requires used_in_bounds { 3 * used ≤ length elems.now }
    requires used_bound { used ≤ 16384 }
    ensures { Looked (shown words.now 10 10) used capacity (vector_good elems.now map.now capacity) result }
{
    let mut paint = [0u16; 16384];
    vectors(words, elems, map, used, capacity, &mut paint)
}
