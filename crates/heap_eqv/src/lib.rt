// `eqv` of two values (compare.rs). Document 01, "Equality": "true for the same slot; otherwise compare cells: Bool, Number, Char
// by value; Nil with Nil, Eof with Eof; pairs when both fields name the same slots; strings by content; all else false, Void with
// Void too." Cells are compared by their kind and words.
#![tactic(auto)]

ghost use Rattle.std.specs.Prelude.{◌≡◌, ℕ, ◌+◌, ◌*◌, ◌≤◌, length};
ghost use Rattle.laws.specs.Basics.{same};
ghost use Rattle.rules.specs.Cells.{block, slot};
ghost use Rattle.rules.specs.Heap.{part_of};
ghost use Rattle.rules.specs.Layout.{heap_of};
ghost use Rattle.rules.specs.Equal.{eqv_cells, same_slot, eqv};
ghost use Rattle.leaf_cells.specs.Cells.{cell_of};
ghost use Rattle.leaf_cells.specs.Elements.{value_of};
ghost use Rattle.leaf_lists.specs.Lists.{lent_of};
ghost use Rattle.heap_eqv.specs.Eqv.{holding, Within, shown_in, Comparable};

use leaf_cells::{VCell, Value};
use leaf_lists::Lists;

// "strings by content": two parts of the byte arena. The same part is not looked at.
fn same_text(bytes: &[u8], p: usize, m: usize, q: usize, n: usize) -> bool
    requires { (p + m ≤ length bytes.now) × (q + n ≤ length bytes.now) }
    ensures { result ≡ same (part_of bytes.now (block p m)) (part_of bytes.now (block q n)) }
{
    if p == q && m == n {
        return true;
    }
    leaf_rooms::text(bytes, p, m) == leaf_rooms::text(bytes, q, n)
}

// Two cells, whose strings lie in the bytes. Undefined, Void, symbols and vectors are `eqv` to no cell; Nil, Eof, Bool, Char and
// Number have their value in the first word.
pub fn eqv_cells(bytes: &[u8], c: VCell, d: VCell) -> bool
    requires within { Within (length bytes.now) (cell_of c) }
    requires within_2 { Within (length bytes.now) (cell_of d) }
    ensures { result ≡ eqv_cells (holding bytes.now) (cell_of c) (cell_of d) }
{
    let x = leaf_cells::cell_words(c);
    let y = leaf_cells::cell_words(d);
    let kind = x.kind;
    if kind != y.kind {
        return false;
    }
    match kind {
        0 | 3 | 8 | 10 => false,
        7 => same_text(
            bytes,
            x.first as usize,
            x.second as usize,
            y.first as usize,
            y.second as usize,
        ),
        9 => x.first == y.first && x.second == y.second,
        _ => x.first == y.first,
    }
}

// "true for the same slot"
fn same_slot(v: Value, w: Value) -> bool
    ensures { result ≡ same_slot (value_of v) (value_of w) }
{
    match (v, w) {
        (Value::Slot(s), Value::Slot(t)) => s == t,
        _ => false,
    }
}

// What a value shows: a slot's cell, or the scalar itself.
fn shown(words: &[u64], v: Value) -> VCell
    requires { (s : ℕ) → value_of v ≡ slot s → 8 * s + 16 ≤ length words.now }
    ensures { cell_of result ≡ shown_in words.now (value_of v) }
{
    match heap_steps::place_of(v) {
        heap_steps::Place::At(s) => leaf_cells::load(words, s),
        heap_steps::Place::New(c) => c,
    }
}

// Two values of a sound heap, whose slots are in use.
pub fn eqv(heap: Lists<'_>, v: Value, w: Value) -> bool
    requires { Comparable (lent_of heap) (value_of v) (value_of w) }
    ensures { result ≡ eqv (heap_of (lent_of heap.entry)) (value_of v) (value_of w) }
{
    same_slot(v, w) || eqv_cells(heap.bytes, shown(heap.words, v), shown(heap.words, w))
}
