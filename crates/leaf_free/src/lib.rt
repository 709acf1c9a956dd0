// The free list, growth and allocating (heap.rs): document 01, "Slots and growth": "When the list is empty, n chunks grow
// to n × 3/2 rounded up; the new slots join in rising order, so the highest is given first. If the grown size exceeds the
// lent slots it does not grow." The list stands in the lent words: its length in the header, its places in a column of
// the rows, the next slot at the highest place in use.
#![tactic(auto)]

ghost use Rattle.std.specs.Prelude.{◌≡◌, ◌^◌, ◌<◌, ◌≤◌, length};
ghost use Rattle.rules.specs.Heap.{grown, fitting, reaches, most_growths};
ghost use Rattle.leaf_free.specs.FreeList.{count_of, place, pushed, fresh_words, grown_words, ready, CanStart, CanGrow, CanPop, CanAlloc, Popped};

use leaf_map::State;

// Words of the header.
const CHUNK: usize = 0;

const CAPACITY: usize = 1;

const FREE_COUNT: usize = 2;

const GROWTH: usize = 6;

// No size up to 4,096 grows in more steps.
const MOST_GROWTHS: usize = 32;

// "n chunks grow to n × 3/2 rounded up"
#[tactic(auto, using(rules::proofs::Growth::chunks_small, rules::proofs::Growth::grown_small), unfolding(rules::specs::Heap::grown))]
pub fn grown(chunk: usize, size: usize) -> usize
    requires chunk_nonzero { 0 < chunk }
    requires chunk_bound { chunk ≤ 4096 }
    requires size_bound { size ≤ 4096 }
    ensures { result ≡ grown chunk size }
{
    (3 * (size / chunk) + 1) / 2 * chunk
}

// The size at which growth within the lent slots ends.
pub fn fitting(chunk: usize, lent: usize, from: usize) -> usize
    requires chunk_nonzero { 0 < chunk }
    requires chunk_bound { chunk ≤ 4096 }
    requires lent_bound { lent ≤ 4096 }
    requires from_le_lent { from ≤ lent }
    ensures { result ≡ fitting most_growths chunk lent from }
{
    let mut size = from;
    for _ in 0..MOST_GROWTHS {
        let next = grown(chunk, size);
        if lent < next {
            break;
        }
        size = next;
    }
    size
}

// "growth reaches the capacity": growing from one chunk comes to the goal.
pub fn reaches(chunk: usize, goal: usize) -> bool
    requires chunk_nonzero { 0 < chunk }
    requires chunk_bound { chunk ≤ 4096 }
    requires goal_bound { goal ≤ 4096 }
    ensures { result ≡ reaches most_growths chunk goal chunk }
{
    let mut size = chunk;
    for _ in 0..MOST_GROWTHS {
        if goal <= size {
            break;
        }
        size = grown(chunk, size);
    }
    size == goal
}

// The word that is the free list's place i.
fn place(i: usize) -> usize
    requires { place i < 2 ^ 64 }
    ensures { result ≡ place i }
{
    8 * i + 12
}

// Puts a slot on top of the list. A row must be left for its place.
#[tactic(auto, unfolding(crate::specs::FreeList::pushed))]
pub fn push(words: &mut [u64], slot: usize)
    requires { place (count_of words.old) < length words.old }
    ensures { words.new ≡ pushed words.old slot }
{
    let at = place(words[FREE_COUNT] as usize);
    words[at] = slot as u64;
    words[FREE_COUNT] += 1;
}

// "Fresh: the first slot given is 0, then 1": the header and the list of a heap of one chunk, in words that were zero.
pub fn fresh(words: &mut [u64], chunk: usize)
    requires { CanStart words.old chunk }
    ensures { words.new ≡ fresh_words words.old chunk }
{
    words[CHUNK] = chunk as u64;
    words[CAPACITY] = chunk as u64;
    words[GROWTH] = 1;
    for s in (0..chunk).rev() {
        push(words, s);
    }
}

// "the new slots join in rising order, so the highest is given first". Whether the grown size fits is asked before.
pub fn grow(words: &mut [u64])
    requires { CanGrow words.old }
    ensures { words.new ≡ grown_words words.old }
{
    let size = words[CAPACITY] as usize;
    let goal = grown(words[CHUNK] as usize, size);
    words[CAPACITY] = goal as u64;
    for s in size..goal {
        push(words, s);
    }
}

// Takes the next slot off the list and makes it Allocated.
#[tactic(auto, using(crate::proofs::Steps::pops_state), unfolding(crate::specs::FreeList::popped))]
pub fn pop(words: &mut [u64], map: &mut [u8]) -> usize
    requires { CanPop words.old map.old }
    ensures { Popped words.old map.old result words.new map.new }
{
    let count = words[FREE_COUNT] as usize;
    let last = count - 1;
    let at = place(last);
    let slot = words[at] as usize;
    words[at] = 0;
    words[FREE_COUNT] = last as u64;
    leaf_map::set(map, slot, State::Allocated);
    slot
}

// A slot; "When the list is empty", the heap grows first.
#[tactic(auto, using(crate::proofs::Steps::ready_empty, crate::proofs::Steps::ready_already))]
pub fn alloc(words: &mut [u64], map: &mut [u8]) -> usize
    requires { CanAlloc words.old map.old }
    ensures { Popped (ready words.old) map.old result words.new map.new }
{
    if words[FREE_COUNT] == 0 {
        grow(words);
    }
    pop(words, map)
}
