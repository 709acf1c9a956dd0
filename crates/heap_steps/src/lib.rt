// The steps that a put is made of (heap.rs, put): a new cell, a string, a symbol found or made. Each is the rules' step on
// the lent lists. Document 01, "Slots and growth".
#![tactic(auto)]

ghost use Rattle.std.specs.Prelude.{◌≡◌, ℕ};
ghost use Rattle.rules.specs.Heap.{Heap, shown, with_cell};
ghost use Rattle.rules.specs.Layout.{words_of};
ghost use Rattle.leaf_cells.specs.Elements.{value_of};
ghost use Rattle.heap_steps.specs.Places.{shape_of, shown_place, SlotOpen, SlotMade, CopyOpen};
ghost use Rattle.leaf_cells.specs.Cells.{cell_of};
ghost use Rattle.heap_steps.specs.Steps.{Open, CellMade, TextOpen, StringPut, SymbolOpen, SymbolMade, SymbolReady, SymbolPut};

use leaf_cells::{VCell, Value};

// A new slot with this cell in it.
pub fn new_cell(words: &mut [u64], map: &mut [u8], c: VCell) -> usize
    requires { (n : ℕ) × (h : Heap) × Open n h words.old map.old }
    ensures { (n : ℕ) (h : Heap) → Open n h words.old map.old → CellMade n h (cell_of c) result words.new map.new }
{
    let s = leaf_free::alloc(words, map);
    leaf_cells::store(words, s, c);
    s
}

// A new string: its bytes at the end of the room in use, then a slot that shows them.
pub fn put_string(words: &mut [u64], map: &mut [u8], bytes: &mut [u8], text: &[u8]) -> usize
    requires { (n : ℕ) × (room : ℕ) × (h : Heap) × TextOpen n room h text.now words.old map.old bytes.old }
    ensures { (n room : ℕ) (h : Heap) → TextOpen n room h text.now words.old map.old bytes.old → StringPut n room h text.now result words.new map.new bytes.new }
{
    let size = text.len();
    let place = leaf_rooms::append_text(words, bytes, text);
    new_cell(words, map, VCell::String(place, size))
}

// A new symbol: its name at the end of the room in use, a slot that shows it, and an entry at the table's end.
pub fn make_symbol(
    words: &mut [u64],
    map: &mut [u8],
    bytes: &mut [u8],
    name: &[u8],
    scope: u64,
) -> usize
    requires { (n : ℕ) × (room : ℕ) × (h : Heap) × SymbolOpen n room h name.now words.old map.old bytes.old }
    ensures { (n room : ℕ) (h : Heap) → SymbolOpen n room h name.now words.old map.old bytes.old → SymbolMade n room h name.now scope result words.new map.new bytes.new }
{
    let size = name.len();
    let place = leaf_rooms::append_text(words, bytes, name);
    let s = new_cell(words, map, VCell::Symbol(place, size));
    leaf_symbols::add(words, s, scope);
    s
}

// "A symbol is found or made under (name, 0), an identifier under (name, scope)."
pub fn put_symbol(
    words: &mut [u64],
    map: &mut [u8],
    bytes: &mut [u8],
    name: &[u8],
    scope: u64,
) -> usize
    requires { (n : ℕ) × (room : ℕ) × (h : Heap) × SymbolReady n room h name.now scope words.old map.old bytes.old }
    ensures { (n room : ℕ) (h : Heap) → SymbolReady n room h name.now scope words.old map.old bytes.old → SymbolPut n room h name.now scope result words.new map.new bytes.new }
{
    match leaf_find::find(words, bytes, name, scope) {
        Some(s) => s,
        None => make_symbol(words, map, bytes, name, scope),
    }
}

// A slot, or the cell of a scalar.
#[derive(Clone, Copy)]
pub enum Place {
    At(usize),
    New(VCell),
}

pub fn place_of(v: Value) -> Place
    ensures { shown_place result ≡ shape_of (value_of v) }
{
    match v {
        Value::Slot(s) => Place::At(s),
        Value::Undefined => Place::New(VCell::Undefined),
        Value::Nil => Place::New(VCell::Nil),
        Value::Eof => Place::New(VCell::Eof),
        Value::Void => Place::New(VCell::Void),
        Value::Bool(b) => Place::New(VCell::Bool(b)),
        Value::Char(n) => Place::New(VCell::Char(n)),
        Value::Number(n) => Place::New(VCell::Number(n)),
    }
}

// "every car and cdr in a slot", "The outer answer is always a slot": a value's own slot, or a new one for a scalar.
pub fn in_slot(words: &mut [u64], map: &mut [u8], v: Value) -> usize
    requires { (n : ℕ) × (h : Heap) × SlotOpen n h (value_of v) words.old map.old }
    ensures { (n : ℕ) (h : Heap) → SlotOpen n h (value_of v) words.old map.old → SlotMade n h (value_of v) result words.new map.new }
{
    match place_of(v) {
        Place::At(s) => s,
        Place::New(c) => new_cell(words, map, c),
    }
}

// "copies the resulting cell into that slot": the value's cell as it stands now.
pub fn copy_cell(words: &mut [u64], slot: usize, v: Value)
    requires { (n : ℕ) × (h : Heap) × CopyOpen n h slot (value_of v) words.old }
    ensures { (n : ℕ) (h : Heap) → CopyOpen n h slot (value_of v) words.old → words.new ≡ words_of n (with_cell h slot (shown h (value_of v))) }
{
    let c = match place_of(v) {
        Place::At(s) => leaf_cells::load(words, s),
        Place::New(c) => c,
    };
    leaf_cells::store(words, slot, c);
}
