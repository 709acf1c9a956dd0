// The checked door of the collection. Document 01, "Slots and growth"; its refusals are 20, 19 and 14 for a root, which is found
// before anything is marked. It takes any lists and any roots. "A refusal answers its number only, and leaves heap and output as
// they stood."
#![tactic(auto)]

ghost use Rattle.std.specs.Prelude.{◌≡◌};
ghost use Rattle.rules.specs.Calls.{left, collect_call};
ghost use Rattle.leaf_lists.specs.Lists.{held, SameLists};
ghost use Rattle.refusals.specs.Told.{answer_of};

use leaf_lists::ListsMut;
use refusals::Refusal;

// Keeps what the roots reach. "A collection refuses by 14 a root that is not in use": before anything is marked.
pub fn collect(heap: &mut ListsMut<'_>, scratch: &mut [u64], roots: &[u64]) -> Result<(), Refusal>
    ensures same { SameLists heap.old heap.new }
    ensures leaves { left (answer_of result) (held heap.new) scratch.new ≡ collect_call (held heap.old) scratch.old roots.now }
{
    let sound = heap_sound::checked(heap.lists())?;
    if heap_given::scratch_short(sound, scratch.len()) {
        return Err(Refusal::ShortScratch);
    }
    if !heap_mark::roots_in_use(sound.lists.words, sound.lists.map, roots) {
        leaf_clear::clear_words(scratch);
        return Err(Refusal::NoSuchSlot);
    }
    heap_collect::collect(heap, scratch, roots);
    Ok(())
}
