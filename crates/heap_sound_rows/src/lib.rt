// The lists that a caller lends, looked at word by word: the numbers and counts, the states, and that what is not in use is
// zero and every kind is known. Document 01, "A heap is sound when": "the numbers above", "no state is Used or 3", "spare
// room is zero"; and 11's rules on kinds. Nothing is changed.
#![tactic(auto)]

ghost use Rattle.std.specs.Prelude.{true, ◌≡◌, [], ◌∷◌, ◌+◌, ◌-◌, ◌*◌, ◌/◌, ◌≤◌, ◌<◌, ltb, length, get_or};
ghost use Rattle.std.specs.List.{list_all};
ghost use Rattle.laws.specs.Basics.{either, same, every_below};
ghost use Rattle.rules.specs.Layout.{cell_words, cell_from, value_words, value_from};
ghost use Rattle.rules.specs.Sound.{setup_numbers, counts_within, written_out};
ghost use Rattle.leaf_lists.specs.Lists.{lent_of};
ghost use Rattle.heap_sound_rows.specs.Rows.{is_zero, spare_zero, byte_settled, settled, cell_kept, columns_kept, row_kept, element_kept};

use leaf_lists::Lists;

// "the numbers above", as setup has them: whole slots and whole elements, the rooms within their bounds, the chunk allowed.
#[tactic(auto, unfolding(rules::specs::Sound::sound_rules, rules::specs::Layout::layout_rules, rules::specs::Numbers::numbers))]
pub fn numbers(heap: Lists<'_>, chunk: u64) -> bool
    ensures { result ≡ setup_numbers chunk (lent_of heap.entry) }
{
    let slots = heap.words.len().saturating_sub(8) / 8;
    let elements = heap.elems.len() / 3;
    heap.words.len() == 8 + 8 * slots
        && heap.map.len() == (slots + 3) / 4
        && heap.elems.len() == 3 * elements
        && slots >= 4
        && slots <= 4096
        && heap.bytes.len() <= 65536
        && elements <= 16384
        && chunk % 4 == 0
        && chunk >= 4
        && chunk <= 4096
        && chunk <= slots as u64
}

// Each count of the header is within its room.
#[tactic(auto, unfolding(rules::specs::Sound::sound_rules, rules::specs::Layout::layout_rules))]
pub fn counts(heap: Lists<'_>) -> bool
    requires { 8 ≤ length heap.words.now }
    ensures { result ≡ counts_within (lent_of heap.entry) }
{
    let slots = (heap.words.len() - 8) / 8;
    let capacity = heap.words[1];
    capacity <= slots as u64
        && heap.words[2] <= capacity
        && heap.words[3] <= capacity
        && heap.words[4] <= heap.bytes.len() as u64
        && heap.words[5] <= (heap.elems.len() / 3) as u64
}

// The four states of a byte are Free or Allocated.
#[tactic(auto, unfolding(crate::specs::Rows::byte_settled))]
fn byte_settled(b: u8) -> bool
    ensures { result ≡ byte_settled b }
{
    b % 4 <= 1 && b / 4 % 4 <= 1 && b / 16 % 4 <= 1 && b / 64 % 4 <= 1
}

// "no state is Used or 3", of the part of the map in use.
pub fn settled(map: &[u8]) -> bool
    ensures { result ≡ settled map.now }
{
    map.iter().all(|b| byte_settled(*b))
}

// Every element is that one: "spare room is zero".
fn all_are<T: Copy + PartialEq>(s: &[T], x: T) -> bool
    ensures { result ≡ list_all (λ y. T.eq y x) s.now }
{
    s.iter().all(|y| *y == x)
}

// The three words are those of a cell: its kind is known, and its unused fields are zero.
fn cell_known(kind: u64, a: u64, b: u64) -> bool
    ensures { result ≡ same (cell_words (cell_from kind a b)) (kind ∷ a ∷ b ∷ []) }
{
    let w = leaf_cells::cell_words(leaf_cells::cell_from(kind, a, b));
    w.kind == kind && w.first == a && w.second == b
}

// The three words are those of a value.
fn value_known(kind: u64, a: u64, b: u64) -> bool
    ensures { result ≡ same (value_words (value_from kind a)) (kind ∷ a ∷ b ∷ []) }
{
    let w = leaf_cells::value_words(leaf_cells::value_from(kind, a));
    w.kind == kind && w.first == a && w.second == b
}

// A row has a cell's three words below the capacity, and zeros past it.
#[tactic(auto, unfolding(crate::specs::Rows::cell_kept))]
fn cell_kept(words: &[u64], i: usize) -> bool
    requires { 8 * i + 16 ≤ length words.now }
    ensures { result ≡ cell_kept words.now i }
{
    let at = 8 + 8 * i;
    if (i as u64) < words[1] {
        cell_known(words[at], words[at + 1], words[at + 2])
    } else {
        words[at] == 0 && words[at + 1] == 0 && words[at + 2] == 0
    }
}

// A row's other columns: the free list's place, the symbol table's entry, and two spare words. A place of a column is in use, or
// zero.
#[tactic(auto, unfolding(crate::specs::Rows::columns_kept))]
fn columns_kept(words: &[u64], i: usize) -> bool
    requires { 8 * i + 16 ≤ length words.now }
    ensures { result ≡ columns_kept words.now i }
{
    let at = 8 + 8 * i;
    let row = i as u64;
    words[at + 3] == 0
        && (row < words[2] || words[at + 4] == 0)
        && (row < words[3] || words[at + 5] == 0)
        && (row < words[3] || words[at + 6] == 0)
        && words[at + 7] == 0
}

// A row is one that the layout writes.
#[tactic(auto, unfolding(crate::specs::Rows::row_kept))]
fn row_kept(words: &[u64], i: usize) -> bool
    requires { 8 * i + 16 ≤ length words.now }
    ensures { result ≡ row_kept words.now i }
{
    cell_kept(words, i) && columns_kept(words, i)
}

// Every row is one that the layout writes.
pub fn rows_kept(words: &[u64]) -> bool
    requires { 8 ≤ length words.now }
    ensures { result ≡ every_below ((length words.now - 8) / 8) (row_kept words.now) }
{
    for i in 0..(words.len() - 8) / 8 {
        if !row_kept(words, i) {
            return false;
        }
    }
    true
}

// The first n elements are ones that the layout writes.
pub fn elements_kept(elems: &[u64], n: usize) -> bool
    requires { 3 * n ≤ length elems.now }
    ensures { result ≡ every_below n (element_kept elems.now) }
{
    for i in 0..n {
        let at = 3 * i;
        if !value_known(elems[at], elems[at + 1], elems[at + 2]) {
            return false;
        }
    }
    true
}

// The lists are what the layout writes for the heap that they hold: "spare room is zero", and every kind is known.
#[tactic(auto, using(crate::proofs::NumberLaws::numbers_told, crate::proofs::NumberLaws::counts_told))]
pub fn written(heap: Lists<'_>) -> bool
    requires elems_value { setup_numbers (get_or heap.words.now 0 0) (lent_of heap) ≡ true }
    requires elems_value_2 { counts_within (lent_of heap) ≡ true }
    ensures { result ≡ written_out (lent_of heap.entry) }
{
    if heap.words[6] != 1 {
        return false;
    }
    if heap.words[7] != 0 {
        return false;
    }
    let states = heap.words[1] as usize / 4;
    if !all_are(&heap.map[states..], 0) {
        return false;
    }
    let texts = heap.words[4] as usize;
    if !all_are(&heap.bytes[texts..], 0) {
        return false;
    }
    let values = heap.words[5] as usize;
    if !elements_kept(heap.elems, values) {
        return false;
    }
    if !all_are(&heap.elems[3 * values..], 0) {
        return false;
    }
    rows_kept(heap.words)
}
