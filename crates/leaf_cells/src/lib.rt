// Cells and elements in the lent lists (vcell.rs). Document 01, "Port order": "`VCell` becomes an enum by value whose vector case
// holds a place and a length; an answer enum holds that enum." The lists are laid out as rules' Layout says: words with 8 of header
// and a row of 8 a slot, elements of 3 words.
#![tactic(auto)]

ghost use Rattle.std.specs.Prelude.{◌≡◌, ◌+◌, ◌*◌, ◌≤◌, length, get_or};
ghost use Rattle.rules.specs.Layout.{cell_words, cell_from, value_words, value_from};
ghost use Rattle.leaf_cells.specs.Words.{three};
ghost use Rattle.leaf_rooms.specs.Rooms.{stored};
ghost use Rattle.leaf_cells.specs.Cells.{cell_of, loaded, Stored, lookup_of, looked_up};
ghost use Rattle.leaf_cells.specs.Elements.{value_of, loaded_element, ElementStored};

use leaf_map::State;

// "Cells kept: Bool, Char, Nil, Number, Pair, Symbol, String, Vector, Eof, Undefined, Void." A number is its 64 bits; a
// pair has two slots; symbol, string and vector have a block's place and length.
#[derive(Clone, Copy, Debug, PartialEq, Eq)]
pub enum VCell {
    Undefined,
    Nil,
    Eof,
    Void,
    Bool(bool),
    Char(u64),
    Number(u64),
    Pair(usize, usize),
    Symbol(usize, usize),
    String(usize, usize),
    Vector(usize, usize),
}

// A cell's or an element's three words.
#[derive(Clone, Copy, Debug, PartialEq, Eq)]
pub struct Words {
    pub kind: u64,
    pub first: u64,
    pub second: u64,
}

// The cell of three words; an unknown kind is taken for Undefined.
// Kept: `From` is no plainer: this and the three like it have the names of the rules' definitions that they compute.
#[tactic(auto, unfolding(rules::specs::Layout::layout_rules))]
pub fn cell_from(kind: u64, a: u64, b: u64) -> VCell
    ensures { cell_of result ≡ cell_from kind a b }
{
    match kind {
        1 => VCell::Nil,
        2 => VCell::Eof,
        3 => VCell::Void,
        4 => VCell::Bool(a == 1),
        5 => VCell::Char(a),
        6 => VCell::Number(a),
        7 => VCell::String(a as usize, b as usize),
        8 => VCell::Symbol(a as usize, b as usize),
        9 => VCell::Pair(a as usize, b as usize),
        10 => VCell::Vector(a as usize, b as usize),
        _ => VCell::Undefined,
    }
}

fn three_words(kind: u64, first: u64, second: u64) -> Words
    ensures { result ≡ record { kind = kind; first = first; second = second } }
{
    Words {
        kind,
        first,
        second,
    }
}

// The three words of a cell.
#[tactic(auto, unfolding(rules::specs::Layout::layout_rules))]
pub fn cell_words(c: VCell) -> Words
    ensures { three result ≡ cell_words (cell_of c) }
{
    match c {
        VCell::Undefined => three_words(0, 0, 0),
        VCell::Nil => three_words(1, 0, 0),
        VCell::Eof => three_words(2, 0, 0),
        VCell::Void => three_words(3, 0, 0),
        VCell::Bool(b) => three_words(4, b as u64, 0),
        VCell::Char(n) => three_words(5, n, 0),
        VCell::Number(n) => three_words(6, n, 0),
        VCell::String(p, n) => three_words(7, p as u64, n as u64),
        VCell::Symbol(p, n) => three_words(8, p as u64, n as u64),
        VCell::Pair(a, d) => three_words(9, a as u64, d as u64),
        VCell::Vector(p, n) => three_words(10, p as u64, n as u64),
    }
}

// The cell in a slot's row.
#[tactic(auto, unfolding(crate::specs::Cells::loaded))]
pub fn load(words: &[u64], slot: usize) -> VCell
    requires { 8 * slot + 16 ≤ length words.now }
    ensures { cell_of result ≡ loaded words.now slot }
{
    let at = 8 + 8 * slot;
    cell_from(words[at], words[at + 1], words[at + 2])
}

// What a slot shows: its cell if it is in use, below the capacity and in the map as Allocated.
#[tactic(auto, unfolding(crate::specs::Cells::looked_up, rules::specs::Map::map_rules))]
pub fn look_up(words: &[u64], map: &[u8], slot: usize) -> Option<VCell>
    requires { (8 ≤ length words.now) × (8 * get_or words.now 1 0 + 8 ≤ length words.now) }
    ensures { lookup_of result ≡ looked_up words.now map.now slot }
{
    if slot < words[1] as usize && leaf_map::get(map, slot) == State::Allocated {
        Some(load(words, slot))
    } else {
        None
    }
}

// Three words written from a place on.
#[tactic(auto, unfolding(leaf_rooms::specs::Rooms::stored))]
fn write_three(list: &mut [u64], at: usize, w: Words)
    requires { at + 3 ≤ length list.old }
    ensures { list.new ≡ stored list.old at (three w) }
{
    list[at] = w.kind;
    list[at + 1] = w.first;
    list[at + 2] = w.second;
}

// A slot's cell before and after a store.
#[derive(Clone, Copy, Debug, PartialEq, Eq)]
pub struct Change {
    pub old: VCell,
    pub new: VCell,
}

// Stores a cell into a slot's row; the row's other columns and all other rows stay.
#[tactic(auto, unfolding(crate::specs::Cells::stored_cell))]
pub fn store(words: &mut [u64], slot: usize, new: VCell) -> Change
    requires { 8 * slot + 16 ≤ length words.old }
    ensures { Stored words.old words.new slot new result }
{
    let old = load(words, slot);
    write_three(words, 8 + 8 * slot, cell_words(new));
    Change { old, new }
}

// "a value is a slot or a scalar": what a vector's element is.
#[derive(Clone, Copy, Debug, PartialEq, Eq)]
pub enum Value {
    Slot(usize),
    Undefined,
    Nil,
    Eof,
    Void,
    Bool(bool),
    Char(u64),
    Number(u64),
}

// The value of an element's kind and first field; an unknown kind is taken for Undefined.
#[tactic(auto, unfolding(rules::specs::Layout::layout_rules))]
pub fn value_from(kind: u64, a: u64) -> Value
    ensures { value_of result ≡ value_from kind a }
{
    match kind {
        1 => Value::Nil,
        2 => Value::Eof,
        3 => Value::Void,
        4 => Value::Bool(a == 1),
        5 => Value::Char(a),
        6 => Value::Number(a),
        15 => Value::Slot(a as usize),
        _ => Value::Undefined,
    }
}

// The three words of a value.
#[tactic(auto, unfolding(rules::specs::Layout::layout_rules))]
pub fn value_words(v: Value) -> Words
    ensures { three result ≡ value_words (value_of v) }
{
    match v {
        Value::Slot(s) => three_words(15, s as u64, 0),
        Value::Undefined => three_words(0, 0, 0),
        Value::Nil => three_words(1, 0, 0),
        Value::Eof => three_words(2, 0, 0),
        Value::Void => three_words(3, 0, 0),
        Value::Bool(b) => three_words(4, b as u64, 0),
        Value::Char(n) => three_words(5, n, 0),
        Value::Number(n) => three_words(6, n, 0),
    }
}

// The element at an index of the element arena.
#[tactic(auto, unfolding(crate::specs::Elements::loaded_element))]
pub fn load_element(elems: &[u64], at: usize) -> Value
    requires { 3 * at + 3 ≤ length elems.now }
    ensures { value_of result ≡ loaded_element elems.now at }
{
    let place = 3 * at;
    value_from(elems[place], elems[place + 1])
}

// An element before and after a store.
#[derive(Clone, Copy, Debug, PartialEq, Eq)]
pub struct ElementChange {
    pub old: Value,
    pub new: Value,
}

// Stores a value as the element at an index; all other elements stay.
#[tactic(auto, unfolding(crate::specs::Elements::stored_element))]
pub fn store_element(elems: &mut [u64], at: usize, new: Value) -> ElementChange
    requires { 3 * at + 3 ≤ length elems.old }
    ensures { ElementStored elems.old elems.new at new result }
{
    let old = load_element(elems, at);
    write_three(elems, 3 * at, value_words(new));
    ElementChange { old, new }
}
