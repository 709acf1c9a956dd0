// A fresh heap in lent lists, whatever they held. Document 01, "Slots and growth": "Fresh: the first slot given is 0, then 1";
// and "spare room is zero". Whether the lists and the chunk allow it is asked before: `heap_sound_rows::numbers`.
#![tactic(auto)]

ghost use Rattle.std.specs.Prelude.{true, ◌≡◌};
ghost use Rattle.rules.specs.Heap.{fresh};
ghost use Rattle.rules.specs.Layout.{rooms_of, lent_of};
ghost use Rattle.rules.specs.Sound.{setup_numbers};
ghost use Rattle.leaf_lists.specs.Lists.{held, SameLists};

use leaf_lists::ListsMut;

// "Fresh": the lists are those of a heap of one chunk, all its slots free.
pub fn fresh(heap: &mut ListsMut<'_>, chunk: usize)
    requires { setup_numbers chunk (held heap.old) ≡ true }
    ensures same_lists { SameLists heap.old heap.new }
    ensures fresh { held heap.new ≡ lent_of (rooms_of (held heap.old)) (fresh chunk) }
{
    leaf_clear::clear_words(heap.words);
    leaf_clear::clear_bytes(heap.map);
    leaf_clear::clear_bytes(heap.bytes);
    leaf_clear::clear_words(heap.elems);
    leaf_free::fresh(heap.words, chunk);
}
