// The doors once more, for a host in C or Rust to link (c_doors_c exports them): the calls of document 01 over numbers and
// lent lists, in no other words than the doors'. A slice is a pointer and then a length. Each answers "0 or the refusal", by
// document 01's number, and gives what was asked for through its last parameters: "A refusal answers its number only, and
// leaves heap and output as they stood."
#![tactic(auto)]

ghost use Rattle.std.specs.Prelude.{◌≡◌};
ghost use Rattle.rules.specs.Refusals.{told};
ghost use Rattle.rules.specs.Calls.{setup, put_call, read_call, collect_call, cell_store, element_store, eqv_call, EqualCall, text_call, capacity_call, free_call, used_call};
ghost use Rattle.heap_sound_rows.specs.Rows.{lists};
ghost use Rattle.refusals.specs.Told.{answer_of};
ghost use Rattle.doors.specs.Answers.{block_answer};
ghost use Rattle.c_doors.specs.Told.{Told, ToldBlock, ToldSetup, ToldPut, ToldRead, ToldCollect, ToldStore, ToldTruth, ToldEqual};

use doors::TextBlock;
use leaf_lists::{Lists, ListsMut};
use refusals::Refusal;

// A number that was asked for, and 0; or the refusal's number.
fn tell(answer: Result<u64, Refusal>, asked: &mut u64) -> u32
    ensures { Told (answer_of answer) asked.old result asked.new }
{
    match answer {
        Ok(n) => {
            *asked = n;
            0
        }
        Err(none) => none.number(),
    }
}

// 0, or the refusal's number.
fn tell_done(answer: Result<(), Refusal>) -> u32
    ensures { result ≡ told (answer_of answer) }
{
    match answer {
        Ok(()) => 0,
        Err(refusal) => refusal.number(),
    }
}

// 1 or 0 for yes or no, and 0; or the refusal's number.
fn tell_truth(answer: Result<bool, Refusal>, truth: &mut u64) -> u32
    ensures { ToldTruth (answer_of answer) truth.old result truth.new }
{
    match answer {
        Ok(t) => {
            *truth = u64::from(t);
            0
        }
        Err(refusal) => refusal.number(),
    }
}

// A block's place and size, and 0; or the refusal's number.
fn tell_block(answer: Result<TextBlock, Refusal>, place: &mut u64, size: &mut u64) -> u32
    ensures { ToldBlock (block_answer answer) place.old size.old result place.new size.new }
{
    match answer {
        Ok(block) => {
            *place = block.place as u64;
            *size = block.size as u64;
            0
        }
        Err(no_text) => no_text.number(),
    }
}

// "10 | setup, which gives no other": a fresh heap in the lent lists, whatever they held.
pub fn talvongre_setup(
    words: &mut [u64],
    map: &mut [u8],
    bytes: &mut [u8],
    elems: &mut [u64],
    chunk: u64,
) -> u32
    ensures { ToldSetup (setup chunk (lists words.old map.old bytes.old elems.old)) result (lists words.new map.new bytes.new elems.new) }
{
    let mut heap = ListsMut {
        words,
        map,
        bytes,
        elems,
    };
    tell_done(doors::setup(&mut heap, chunk))
}

// Puts a lent datum: 20, 19, 11, 12, 13, 16 or 17, or 0 and its slot.
pub fn talvongre_put(
    words: &mut [u64],
    map: &mut [u8],
    bytes: &mut [u8],
    elems: &mut [u64],
    scratch: &mut [u64],
    datum: &[u8],
    slot: &mut u64,
) -> u32
    ensures { ToldPut (put_call (lists words.old map.old bytes.old elems.old) scratch.old datum.now) slot.old result (lists words.new map.new bytes.new elems.new) scratch.new slot.new }
{
    let mut heap = ListsMut {
        words,
        map,
        bytes,
        elems,
    };
    tell(doors::put(&mut heap, scratch, datum), slot)
}

// Reads a value into the lent output: 20, 19, 11, 12, 14 or 18, or 0 and the length written.
pub fn talvongre_read(
    words: &[u64],
    map: &[u8],
    bytes: &[u8],
    elems: &[u64],
    scratch: &mut [u64],
    out: &mut [u8],
    kind: u64,
    a: u64,
    length: &mut u64,
) -> u32
    ensures { ToldRead (read_call (lists words.now map.now bytes.now elems.now) scratch.old out.old kind a) length.old result scratch.new out.new length.new }
{
    let heap = Lists {
        words,
        map,
        bytes,
        elems,
    };
    tell(doors_read::read(heap, scratch, out, kind, a), length)
}

// Keeps what the roots reach: 20, 19 or 14, or 0.
pub fn talvongre_collect(
    words: &mut [u64],
    map: &mut [u8],
    bytes: &mut [u8],
    elems: &mut [u64],
    scratch: &mut [u64],
    roots: &[u64],
) -> u32
    ensures { ToldCollect (collect_call (lists words.old map.old bytes.old elems.old) scratch.old roots.now) result (lists words.new map.new bytes.new elems.new) scratch.new }
{
    let mut heap = ListsMut {
        words,
        map,
        bytes,
        elems,
    };
    tell_done(doors_collect::collect(&mut heap, scratch, roots))
}

// "Cell store: a scalar or a pair of used slots into a used slot": 20, 11, 14 or 15, or 0.
pub fn talvongre_cell_store(
    words: &mut [u64],
    map: &[u8],
    bytes: &[u8],
    elems: &[u64],
    slot: u64,
    kind: u64,
    a: u64,
    b: u64,
) -> u32
    ensures { ToldStore (cell_store (lists words.old map.now bytes.now elems.now) slot kind a b) result (lists words.new map.now bytes.now elems.now) }
{
    tell_done(doors_store::cell_store(words, map, bytes, elems, slot, kind, a, b))
}

// "Element store: a scalar or a used slot": 20, 11, 14 or 15, or 0.
pub fn talvongre_element_store(
    words: &[u64],
    map: &[u8],
    bytes: &[u8],
    elems: &mut [u64],
    slot: u64,
    k: u64,
    kind: u64,
    a: u64,
) -> u32
    ensures { ToldStore (element_store (lists words.now map.now bytes.now elems.old) slot k kind a) result (lists words.now map.now bytes.now elems.new) }
{
    tell_done(doors_store::element_store(words, map, bytes, elems, slot, k, kind, a))
}

// `eqv` of two values: 20, 11 or 14, or 0 and the truth.
pub fn talvongre_eqv(
    words: &[u64],
    map: &[u8],
    bytes: &[u8],
    elems: &[u64],
    kind: u64,
    a: u64,
    kind2: u64,
    a2: u64,
    truth: &mut u64,
) -> u32
    ensures { ToldTruth (eqv_call (lists words.now map.now bytes.now elems.now) kind a kind2 a2) truth.old result truth.new }
{
    let heap = Lists {
        words,
        map,
        bytes,
        elems,
    };
    tell_truth(doors_equal::eqv(heap, kind, a, kind2, a2), truth)
}

// `equal` of two values: 20, 19, 11 or 14, or 0 and the truth.
pub fn talvongre_equal(
    words: &[u64],
    map: &[u8],
    bytes: &[u8],
    elems: &[u64],
    scratch: &mut [u64],
    kind: u64,
    a: u64,
    kind2: u64,
    a2: u64,
    truth: &mut u64,
) -> u32
    ensures { ToldEqual (EqualCall (lists words.now map.now bytes.now elems.now) scratch.old kind a kind2 a2) truth.old result scratch.new truth.new }
{
    let heap = Lists {
        words,
        map,
        bytes,
        elems,
    };
    tell_truth(doors_equal::equal(heap, scratch, kind, a, kind2, a2), truth)
}

// "A string or name is read as the part of the byte arena that holds it": 20, 14 or 15, or 0 with that part's place and size.
pub fn talvongre_text(
    words: &[u64],
    map: &[u8],
    bytes: &[u8],
    elems: &[u64],
    slot: u64,
    place: &mut u64,
    size: &mut u64,
) -> u32
    ensures { ToldBlock (text_call (lists words.now map.now bytes.now elems.now) slot) place.old size.old result place.new size.new }
{
    let heap = Lists {
        words,
        map,
        bytes,
        elems,
    };
    tell_block(doors::text_block(heap, slot), place, size)
}

// The capacity: 20, or 0 and the count.
pub fn talvongre_capacity(
    words: &[u64],
    map: &[u8],
    bytes: &[u8],
    elems: &[u64],
    count: &mut u64,
) -> u32
    ensures { Told (capacity_call (lists words.now map.now bytes.now elems.now)) count.old result count.new }
{
    let heap = Lists {
        words,
        map,
        bytes,
        elems,
    };
    tell(doors::capacity(heap), count)
}

// The free count, the free list's length: 20, or 0 and the count.
pub fn talvongre_free(
    words: &[u64],
    map: &[u8],
    bytes: &[u8],
    elems: &[u64],
    count: &mut u64,
) -> u32
    ensures { Told (free_call (lists words.now map.now bytes.now elems.now)) count.old result count.new }
{
    let heap = Lists {
        words,
        map,
        bytes,
        elems,
    };
    tell(doors::free(heap), count)
}

// The used count, capacity less the free list: 20, or 0 and the count.
pub fn talvongre_used(
    words: &[u64],
    map: &[u8],
    bytes: &[u8],
    elems: &[u64],
    count: &mut u64,
) -> u32
    ensures { Told (used_call (lists words.now map.now bytes.now elems.now)) count.old result count.new }
{
    let heap = Lists {
        words,
        map,
        bytes,
        elems,
    };
    tell(doors::used(heap), count)
}
