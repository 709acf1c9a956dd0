// A put whole, behind the door's tests: the check of the datum (11, 12, 13), what it needs against what is there (16, 17),
// the put itself, and the scratch cleared. Document 01: "Where several apply the first in table order is given. A refusal
// answers its number only, and leaves heap and output as they stood." "On return scratch is all zero".
#![tactic(auto)]

ghost use Rattle.std.specs.Prelude.{◌≡◌};
ghost use Rattle.rules.specs.Calls.{left};
ghost use Rattle.leaf_lists.specs.Lists.{held, SameLists};
ghost use Rattle.heap_check.proofs.Answers.{Accepted};
ghost use Rattle.refusals.specs.Told.{answer_of};
ghost use Rattle.heap_put_whole.specs.Whole.{put_behind, Ready, Outcome};

use leaf_lists::ListsMut;
use refusals::Refusal;

// Puts a datum that passed the check, if what it needs is there.
fn put_checked(heap: &mut ListsMut<'_>, scratch: &mut [u64], datum: &[u8]) -> Result<usize, Refusal>
    requires ready { Ready (held heap.old) scratch.old }
    requires accepted { Accepted datum.now }
    ensures same { SameLists heap.old heap.new }
    ensures outcome { Outcome (held heap.old) scratch.old datum.now result (held heap.new) }
{
    let lent = heap.lists();
    let needed = heap_needs::needs(lent.words, lent.bytes, datum);
    heap_needs::short(lent.words, needed, lent.bytes.len(), lent.elems.len() / 3)?;
    let p = heap_put::put_in_slot(heap, scratch, 0, datum);
    Ok(p.value)
}

// Puts a datum that may be anything.
fn put_any(heap: &mut ListsMut<'_>, scratch: &mut [u64], datum: &[u8]) -> Result<usize, Refusal>
    requires { Ready (held heap.old) scratch.old }
    ensures same { SameLists heap.old heap.new }
    ensures outcome { Outcome (held heap.old) scratch.old datum.now result (held heap.new) }
{
    heap_check::check(datum)?;
    put_checked(heap, scratch, datum)
}

// The put of a lent datum into a sound heap, with scratch of the length that the formula says. It answers the datum's slot.
pub fn put(heap: &mut ListsMut<'_>, scratch: &mut [u64], datum: &[u8]) -> Result<usize, Refusal>
    requires { Ready (held heap.old) scratch.old }
    ensures same { SameLists heap.old heap.new }
    ensures put { left (answer_of result) (held heap.new) scratch.new ≡ put_behind (held heap.old) scratch.old datum.now }
{
    let answer = put_any(heap, scratch, datum);
    leaf_clear::clear_words(scratch);
    answer
}
