// The checked door of reading. Document 01, "Reading back"; its refusals are 20, 19, 11, 12, 14 and 18, in that order of the
// table. It takes any lists and any numbers. "A refusal answers its number only, and leaves heap and output as they stood."
// "Output past an answer stays."
#![tactic(auto)]

ghost use Rattle.std.specs.Prelude.{◌≡◌};
ghost use Rattle.rules.specs.Calls.{read_call};
ghost use Rattle.leaf_lists.specs.Lists.{lent_of};
ghost use Rattle.refusals.specs.Told.{answer_of};
ghost use Rattle.doors_read.specs.Answers.{read_left};

use leaf_lists::Lists;
use refusals::Refusal;

// Reads a value, a slot or a scalar, into the lent output in the form of a datum that put takes, and answers the length written.
pub fn read(
    heap: Lists<'_>,
    scratch: &mut [u64],
    out: &mut [u8],
    kind: u64,
    a: u64,
) -> Result<u64, Refusal>
    ensures { read_left (answer_of result) scratch.new out.new ≡ read_call (lent_of heap.entry) scratch.old out.old kind a }
{
    let sound = heap_sound::checked(heap)?;
    if heap_given::scratch_short(sound, scratch.len()) {
        return Err(Refusal::ShortScratch);
    }
    let v = match heap_given::given_value(kind, a) {
        Ok(v) => v,
        Err(fault) => {
            leaf_clear::clear_words(scratch);
            return Err(Refusal::from(fault));
        }
    };
    if !heap_given::value_in_use(heap.map, heap.words[1] as usize, v) {
        leaf_clear::clear_words(scratch);
        return Err(Refusal::NoSuchSlot);
    }
    let length = heap_read::read(heap, scratch, out, v)?;
    Ok(length as u64)
}
