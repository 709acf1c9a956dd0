// The line of a slot in the listing that the program `sheet` prints. Document 01, "Sheets": "Cells print as `kind:` and the sheet's
// text, nil, eof, undef and void bare; `sym:HEX`; `vec:` and comma-joined elements, a slot as `@N`." It is written from the start
// of a lent buffer, and its length answered.
#![tactic(auto)]

ghost use Rattle.std.specs.Prelude.{◌∷◌, ◌++◌, ◌+◌, ◌*◌, ◌≤◌, length};
ghost use Rattle.laws.specs.Basics.{ascii};
ghost use Rattle.rules.specs.Layout.{heap_of};
ghost use Rattle.rules.specs.Text.{decimal, hex};
ghost use Rattle.rules.specs.Listing.{print_slot};
ghost use Rattle.leaf_cells.specs.Cells.{cell_of};
ghost use Rattle.text_numbers.specs.Answers.{Printed};
ghost use Rattle.leaf_lists.specs.Lists.{lent_of};
ghost use Rattle.sheet_print.specs.Printing.{most_line, most_cell, Within, listed, element_text, cell_text, ShownIn, slot_text};

use heap_sound::Sound;
use leaf_cells::{VCell, Value};

// A vector's elements, with commas between.
fn print_elements(elems: &[u64], place: usize, size: usize, out: &mut [u8], at: usize) -> usize
    requires size_in_bounds { 3 * (place + size) ≤ length elems.now }
    requires size_in_bounds_2 { at + 26 * size ≤ length out.old }
    ensures { Within (26 * size) out.old at (listed (element_text elems.now place) size) out.new result }
{
    let mut end = at;
    for i in 0..size {
        let next = sheet_print::print_comma(i, out, end);
        end = sheet_values::print_value(leaf_cells::load_element(elems, place + i), out, next);
    }
    end
}

// "`vec:` and comma-joined elements"
fn print_vector(elems: &[u64], place: usize, size: usize, out: &mut [u8], at: usize) -> usize
    requires size_in_bounds { 3 * (place + size) ≤ length elems.now }
    requires size_in_bounds_2 { at + 4 + 26 * size ≤ length out.old }
    ensures { Within (4 + 26 * size) out.old at (ascii "vec:" ++ listed (element_text elems.now place) size) out.new result }
{
    let end = text_numbers::print_text(b"vec:", out, at);
    print_elements(elems, place, size, out, end)
}

// A key, and a text in hex.
fn print_hexed(key: &[u8], text: &[u8], out: &mut [u8], at: usize) -> usize
    requires { at + length key.now + 2 * length text.now ≤ length out.old }
    ensures { Printed out.old at (key.now ++ hex text.now) out.new result }
{
    let end = text_numbers::print_text(key, out, at);
    text_numbers::print_hex(text, out, end)
}

// A pair's two slots.
fn print_pair(car: usize, cdr: usize, out: &mut [u8], at: usize) -> usize
    requires { at + 46 ≤ length out.old }
    ensures { Within 46 out.old at (ascii "pair:" ++ (decimal car ++ (44 ∷ decimal cdr))) out.new result }
{
    let end = sheet_print::print_keyed(b"pair:", car as u64, out, at);
    sheet_print::print_keyed(b",", cdr as u64, out, end)
}

// A cell whose block lies in the arenas.
fn print_cell(bytes: &[u8], elems: &[u64], c: VCell, out: &mut [u8], at: usize) -> usize
    requires shown_in { ShownIn (length bytes.now) (length elems.now) (cell_of c) }
    requires most_cell_in_bounds { at + most_cell ≤ length out.old }
    ensures { Within most_cell out.old at (cell_text bytes.now elems.now (cell_of c)) out.new result }
{
    match c {
        VCell::Undefined => sheet_values::print_value(Value::Undefined, out, at),
        VCell::Nil => sheet_values::print_value(Value::Nil, out, at),
        VCell::Eof => sheet_values::print_value(Value::Eof, out, at),
        VCell::Void => sheet_values::print_value(Value::Void, out, at),
        VCell::Bool(b) => sheet_values::print_value(Value::Bool(b), out, at),
        VCell::Char(n) => sheet_values::print_value(Value::Char(n), out, at),
        VCell::Number(n) => sheet_values::print_value(Value::Number(n), out, at),
        VCell::Pair(a, d) => print_pair(a, d, out, at),
        VCell::Symbol(p, n) => print_hexed(b"sym:", leaf_rooms::text(bytes, p, n), out, at),
        VCell::String(p, n) => print_hexed(b"str:", leaf_rooms::text(bytes, p, n), out, at),
        VCell::Vector(p, n) => print_vector(elems, p, n, out, at),
    }
}

// What a slot shows, or that it is free.
fn print_shown(heap: Sound<'_>, slot: usize, out: &mut [u8], at: usize) -> usize
    requires { at + most_cell ≤ length out.old }
    ensures { Within most_cell out.old at (slot_text (heap_of (lent_of heap.entry.lists)) slot) out.new result }
{
    let lists = heap.lists;
    match leaf_cells::look_up(lists.words, lists.map, slot) {
        Some(c) => print_cell(lists.bytes, lists.elems, c, out, at),
        None => text_numbers::print_text(b"free", out, at),
    }
}

// The line of a slot.
pub fn slot_line(heap: Sound<'_>, slot: usize, out: &mut [u8]) -> usize
    requires { most_line ≤ length out.old }
    ensures { Within most_line out.old 0 (print_slot (heap_of (lent_of heap.entry.lists)) slot) out.new result }
{
    let key = sheet_print::print_keyed(b"slot", slot as u64, out, 0);
    out[key] = b'=';
    let end = print_shown(heap, slot, out, key + 1);
    out[end] = b'\n';
    end + 1
}
