// A symbol found in the table (heap.rs: put, put_scoped_symbol). Document 01: "A symbol is found or made under (name, 0), an identifier
// under (name, scope)". An entry's name is that of its slot's symbol.
#![tactic(auto)]

ghost use Rattle.std.specs.Prelude.{◌≡◌, ◌+◌, ◌*◌, ◌≤◌, length};
ghost use Rattle.laws.specs.Basics.{same};
ghost use Rattle.leaf_symbols.specs.Table.{bytes_used, name_of, Tabled, found_in};
ghost use Rattle.leaf_find.specs.Finds.{shown_found};

use leaf_cells::VCell;

// A word of the header.
const BYTES_USED: usize = 4;

// The slot's symbol has this name; of a cell that is no symbol the name is empty.
pub fn name_is(words: &[u64], bytes: &[u8], slot: usize, name: &[u8]) -> bool
    requires slot_in_bounds { 8 * slot + 16 ≤ length words.now }
    requires words_in_bounds { bytes_used words.now ≤ length bytes.now }
    ensures { result ≡ same (name_of words.now bytes.now slot) name.now }
{
    match leaf_cells::load(words, slot) {
        VCell::Symbol(place, size) => {
            let used = words[BYTES_USED] as usize;
            leaf_names::part(&bytes[..used], place, size) == name
        }
        _ => name.is_empty(),
    }
}

// "A symbol is found .. under (name, 0), an identifier under (name, scope)": the first entry with that scope and name.
pub fn find(words: &[u64], bytes: &[u8], name: &[u8], scope: u64) -> Option<usize>
    requires tabled { Tabled words.now }
    requires words_in_bounds { bytes_used words.now ≤ length bytes.now }
    ensures { shown_found result ≡ found_in words.now bytes.now name.now scope }
{
    let count = words[leaf_symbols::TABLE_COUNT] as usize;
    for i in 0..count {
        let at = 8 + 8 * i;
        let slot = words[at + 5] as usize;
        if words[at + 6] == scope && name_is(words, bytes, slot, name) {
            return Some(slot);
        }
    }
    None
}
