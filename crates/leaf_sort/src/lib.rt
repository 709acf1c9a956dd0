// A symbol table's entries put into the order of their keys. Document 01: "the symbol table has one entry a (name, scope)", which
// is seen of a sorted table at its neighbours.
//
// `order` lists entries by their numbers; an entry's key lies in `keys` and `bytes` as leaf_names has it.
#![tactic(auto)]

ghost use Rattle.std.specs.Prelude.{◌≡◌};
ghost use Rattle.leaf_names.specs.Keys.{Goes, neighbours_differ};
ghost use Rattle.leaf_sort.specs.Arranged.{Arranged};

use leaf_names::Key;

// Arranges the entries listed by name, then by scope, in place. Entries under one key may come to stand in either order: so the
// promise is the same numbers, each as often, and sorted, and not one list. Where no two entries share a key it is one list
// (`sort_determined`).
pub fn sort(order: &mut [usize], keys: &[Key], bytes: &[u8])
    ensures { Arranged (Goes keys.now bytes.now) order.old order.new }
{
    order.sort_unstable_by(|d, e| leaf_names::compare_keys(keys, bytes, *d, *e));
}

// No two neighbours are under one key: of a sorted list, no two entries at all (`distinct_all`).
pub fn distinct(order: &[usize], keys: &[Key], bytes: &[u8]) -> bool
    ensures { result ≡ neighbours_differ keys.now bytes.now order.now }
{
    order
        .windows(2)
        .all(|pair| !leaf_names::alike(keys, bytes, pair[0], pair[1]))
}
