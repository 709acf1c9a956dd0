// The order of names, and of a symbol table's entries by their keys. Document 01: "the symbol table has one entry a (name,
// scope)". The order is by name bytes, a shorter name before a longer one that begins with it, then by scope.
//
// Entry e has its key at e of `keys`, and its name's bytes in `bytes`. What of a key would lie outside is cut off, so that any
// two entries can be compared: an entry past the keys has the empty name and scope 0.
#![tactic(auto)]

ghost use Rattle.std.specs.Prelude.{◌≡◌, take, drop};
ghost use Rattle.laws.specs.Basics.{same};
ghost use Rattle.leaf_names.specs.Ordering.{shown, name_compare, key_compare};
ghost use Rattle.leaf_names.specs.Keys.{key_in, key_of, stored, alike};

use std::cmp::Ordering;

// Where an entry's name stands among the bytes, and its scope.
#[derive(Clone, Copy, Debug, PartialEq, Eq, Default)]
pub struct Key {
    pub place: usize,
    pub size: usize,
    pub scope: u64,
}

// The two have the same bytes.
#[tactic(auto, using(crate::proofs::Shown::same_shown))]
pub fn same(a: &[u8], b: &[u8]) -> bool
    ensures { result ≡ same a.now b.now }
{
    a == b
}

// The part of the bytes from a place on; what would lie outside is cut off.
pub fn part(bytes: &[u8], place: usize, size: usize) -> &[u8]
    ensures { result.now ≡ take size (drop place bytes.now) }
{
    let from = &bytes[place.min(bytes.len())..];
    &from[..size.min(from.len())]
}

impl Key {
    // The name, as the part of the bytes that holds it.
    pub fn name<'a>(&self, bytes: &'a [u8]) -> &'a [u8]
        ensures { result.now ≡ (key_in bytes.now self.now).name }
    {
        part(bytes, self.place, self.size)
    }

    // How this key's name stands to another's. A part of the bytes that both share is not read, so that many entries over one
    // long name cost no more than over a short one.
    fn compare_names(&self, other: &Key, bytes: &[u8]) -> Ordering
        ensures { shown result ≡ name_compare (key_in bytes.now self.now).name (key_in bytes.now other.now).name }
    {
        if self.place == other.place && self.size == other.size {
            Ordering::Equal
        } else {
            self.name(bytes).cmp(&other.name(bytes))
        }
    }

    // How this key stands to another: by name, then by scope.
    pub fn compare(&self, other: &Key, bytes: &[u8]) -> Ordering
        ensures { shown result ≡ key_compare (key_in bytes.now self.now) (key_in bytes.now other.now) }
    {
        let by_name = self.compare_names(other, bytes);
        by_name.then(self.scope.cmp(&other.scope))
    }
}

// An entry's key.
pub fn key_at(keys: &[Key], e: usize) -> Key
    ensures { result ≡ stored keys.now e }
{
    keys.get(e).copied().unwrap_or_default()
}

// How the key of entry `d` stands to that of entry `e`.
pub fn compare_keys(keys: &[Key], bytes: &[u8], d: usize, e: usize) -> Ordering
    ensures { shown result ≡ key_compare (key_of keys.now bytes.now d) (key_of keys.now bytes.now e) }
{
    key_at(keys, d).compare(&key_at(keys, e), bytes)
}

// The two entries have one key.
pub fn alike(keys: &[Key], bytes: &[u8], d: usize, e: usize) -> bool
    ensures { result ≡ alike keys.now bytes.now d e }
{
    compare_keys(keys, bytes, d, e).is_eq()
}
