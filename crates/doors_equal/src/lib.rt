// The checked doors of equality. Document 01, "Equality"; the refusals of `eqv` are 20, 11 and 14, those of `equal` 20, 19, 11 and 14.
// They take any lists and any numbers; `eqv` takes no scratch. "A refusal answers its number only, and leaves heap and output as
// they stood." The heap is only read.
#![tactic(auto)]

ghost use Rattle.std.specs.Prelude.{◌≡◌, false, ltb, length, get_or};
ghost use Rattle.rules.specs.Numbers.{scratch_words};
ghost use Rattle.rules.specs.Layout.{heap_of};
ghost use Rattle.rules.specs.Calls.{eqv_call, EqualValues, EqualCall};
ghost use Rattle.leaf_cells.specs.Elements.{value_of};
ghost use Rattle.leaf_lists.specs.Lists.{lent_of};
ghost use Rattle.refusals.specs.Told.{answer_of};
ghost use Rattle.doors_equal.specs.Answers.{equal_left};
ghost use Rattle.doors_equal.specs.Behind.{eqv_behind};

use heap_sound::Sound;
use leaf_cells::Value;
use leaf_lists::Lists;
use refusals::Refusal;

// `eqv` of two values that were given: 14.
fn eqv_values(heap: Sound<'_>, v: Value, w: Value) -> Result<bool, Refusal>
    ensures { answer_of result ≡ eqv_behind (lent_of heap.entry.lists) (value_of v) (value_of w) }
{
    let map = heap.lists.map;
    let capacity = heap.lists.words[1] as usize;
    if !heap_given::value_in_use(map, capacity, v) {
        return Err(Refusal::NoSuchSlot);
    }
    if !heap_given::value_in_use(map, capacity, w) {
        return Err(Refusal::NoSuchSlot);
    }
    Ok(heap_eqv::eqv(heap.lists, v, w))
}

// Whether two values are `eqv`: 20, 11 or 14 where not both may be compared. It takes no scratch.
pub fn eqv(heap: Lists<'_>, kind: u64, a: u64, kind2: u64, a2: u64) -> Result<bool, Refusal>
    ensures { answer_of result ≡ eqv_call (lent_of heap.entry) kind a kind2 a2 }
{
    let sound = heap_sound::checked(heap)?;
    let v = heap_given::given_value(kind, a)?;
    let w = heap_given::given_value(kind2, a2)?;
    eqv_values(sound, v, w)
}

// `equal` of two values that were given: 14.
fn equal_values(heap: Sound<'_>, scratch: &mut [u64], v: Value, w: Value) -> Result<bool, Refusal>
    requires { ltb (length scratch.old) (scratch_words (get_or heap.lists.words.now 1 0)) ≡ false }
    ensures { EqualValues (heap_of (lent_of heap.entry.lists)) scratch.old (value_of v) (value_of w) (equal_left (answer_of result) scratch.new) }
{
    let map = heap.lists.map;
    let capacity = heap.lists.words[1] as usize;
    if !heap_given::value_in_use(map, capacity, v) {
        leaf_clear::clear_words(scratch);
        return Err(Refusal::NoSuchSlot);
    }
    if !heap_given::value_in_use(map, capacity, w) {
        leaf_clear::clear_words(scratch);
        return Err(Refusal::NoSuchSlot);
    }
    Ok(heap_equal::equal(heap.lists, scratch, v, w))
}

// Whether two values are `equal`: 20, 19, 11 or 14 where not both may be compared.
pub fn equal(
    heap: Lists<'_>,
    scratch: &mut [u64],
    kind: u64,
    a: u64,
    kind2: u64,
    a2: u64,
) -> Result<bool, Refusal>
    ensures { EqualCall (lent_of heap.entry) scratch.old kind a kind2 a2 (equal_left (answer_of result) scratch.new) }
{
    let sound = heap_sound::checked(heap)?;
    if heap_given::scratch_short(sound, scratch.len()) {
        return Err(Refusal::ShortScratch);
    }
    let v = match heap_given::given_value(kind, a) {
        Ok(v) => v,
        Err(fault) => {
            leaf_clear::clear_words(scratch);
            return Err(Refusal::from(fault));
        }
    };
    let w = match heap_given::given_value(kind2, a2) {
        Ok(w) => w,
        Err(fault) => {
            leaf_clear::clear_words(scratch);
            return Err(Refusal::from(fault));
        }
    };
    equal_values(sound, scratch, v, w)
}
