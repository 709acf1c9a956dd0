// The collection as one call, behind the door's tests: mark what the roots reach, sweep the rest, pack the arenas, clear the
// scratch. Document 01: "Added by this port: .. the collection as one call"; "On return scratch is all zero".
#![tactic(auto)]

ghost use Rattle.std.specs.Prelude.{◌≡◌, ℕ, ◌<◌, get_or};
ghost use Rattle.rules.specs.Calls.{cleared};
ghost use Rattle.rules.specs.Collect.{collect};
ghost use Rattle.rules.specs.Layout.{rooms_of, heap_of, lent_of};
ghost use Rattle.leaf_lists.specs.Lists.{held, SameLists};
ghost use Rattle.heap_mark.specs.Marks.{CanMark, marked_map};
ghost use Rattle.heap_sweep.specs.Sweeps.{swept, sweep_dropped, CanDrop};
ghost use Rattle.heap_collect.specs.Ready.{Ready};

use leaf_lists::ListsMut;

// What the roots reach is marked, and the rest freed. The elements stay: they are lent as the other lists are, since a list cannot
// be lent to be read beside one of the same four that is lent to be changed.
fn mark_and_sweep(
    words: &mut [u64],
    map: &mut [u8],
    elems: &mut [u64],
    scratch: &mut [u64],
    roots: &[u64],
)
    requires marks { CanMark words.old map.old elems.old scratch.old roots.now }
    requires sweeps { ((k : ℕ) → get_or map.old k 0 < 256) → CanDrop words.old (marked_map words.old map.old elems.old roots.now) }
    ensures bytes { (k : ℕ) → get_or map.old k 0 < 256 }
    ensures swept { swept words.new map.new ≡ sweep_dropped (swept words.old (marked_map words.old map.old elems.old roots.now)) }
    ensures elems_stay { elems.new ≡ elems.old }
{
    heap_mark::mark(words, map, elems, scratch, roots);
    heap_sweep::sweep(words, map);
}

// Collects a sound heap from roots that are in use.
pub fn collect(heap: &mut ListsMut<'_>, scratch: &mut [u64], roots: &[u64])
    requires { Ready (held heap.old) scratch.old roots.now }
    ensures same_lists { SameLists heap.old heap.new }
    ensures elems_after { held heap.new ≡ lent_of (rooms_of (held heap.old)) (collect roots.now (heap_of (held heap.old))) }
    ensures scratch_after { scratch.new ≡ cleared scratch.old }
{
    mark_and_sweep(heap.words, heap.map, heap.elems, scratch, roots);
    heap_pack::pack(heap);
    leaf_clear::clear_words(scratch);
}
