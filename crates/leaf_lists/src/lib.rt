// The four lists that a caller lends, which hold one heap and travel together: lent to be read, and lent to be changed. What
// they are is the rules' Layout: words with a header and a row a slot, the state map, the byte arena, the element arena.
#![tactic(auto)]

ghost use Rattle.std.specs.Prelude.{◌≡◌};
ghost use Rattle.leaf_lists.specs.Lists.{lent_of, held};

// Lent to be read.
#[derive(Clone, Copy)]
pub struct Lists<'a> {
    pub words: &'a [u64],
    pub map: &'a [u8],
    pub bytes: &'a [u8],
    pub elems: &'a [u64],
}

// Lent to be changed.
#[derive(Drop)]
pub struct ListsMut<'a> {
    pub words: &'a mut [u64],
    pub map: &'a mut [u8],
    pub bytes: &'a mut [u8],
    pub elems: &'a mut [u64],
}

impl ListsMut<'_> {
    // The lists as they stand, to be read.
    pub fn lists(&self) -> Lists<'_>
        ensures { lent_of result ≡ held self.now }
    {
        Lists {
            words: self.words,
            map: self.map,
            bytes: self.bytes,
            elems: self.elems,
        }
    }
}
