// The C boundary: the calls of `c_doors` under the names that a host in C links, with the same clauses, and nothing else. A
// slice is a pointer and then a length (include/talvongre.h).
#![tactic(auto)]

ghost use Rattle.rules.specs.Calls.{setup, put_call, read_call, collect_call, cell_store, element_store, eqv_call, EqualCall, text_call, capacity_call, free_call, used_call};
ghost use Rattle.heap_sound_rows.specs.Rows.{lists};
ghost use Rattle.c_doors.specs.Told.{Told, ToldBlock, ToldSetup, ToldPut, ToldRead, ToldCollect, ToldStore, ToldTruth, ToldEqual};

// "10 | setup, which gives no other": a fresh heap in the lent lists, whatever they held.
#[unsafe(no_mangle)]
pub extern "C" fn talvongre_setup(
    words: &mut [u64],
    map: &mut [u8],
    bytes: &mut [u8],
    elems: &mut [u64],
    chunk: u64,
) -> u32
    ensures { ToldSetup (setup chunk (lists words.old map.old bytes.old elems.old)) result (lists words.new map.new bytes.new elems.new) }
{
    c_doors::talvongre_setup(words, map, bytes, elems, chunk)
}

// Puts a lent datum: 20, 19, 11, 12, 13, 16 or 17, or 0 and its slot.
#[unsafe(no_mangle)]
pub extern "C" fn talvongre_put(
    words: &mut [u64],
    map: &mut [u8],
    bytes: &mut [u8],
    elems: &mut [u64],
    scratch: &mut [u64],
    datum: &[u8],
    slot: &mut u64,
) -> u32
    ensures { ToldPut (put_call (lists words.old map.old bytes.old elems.old) scratch.old datum.now) slot.old result (lists words.new map.new bytes.new elems.new) scratch.new slot.new }
{
    c_doors::talvongre_put(words, map, bytes, elems, scratch, datum, slot)
}

// Reads a value into the lent output: 20, 19, 11, 12, 14 or 18, or 0 and the length written.
#[unsafe(no_mangle)]
pub extern "C" fn talvongre_read(
    words: &[u64],
    map: &[u8],
    bytes: &[u8],
    elems: &[u64],
    scratch: &mut [u64],
    out: &mut [u8],
    kind: u64,
    a: u64,
    length: &mut u64,
) -> u32
    ensures { ToldRead (read_call (lists words.now map.now bytes.now elems.now) scratch.old out.old kind a) length.old result scratch.new out.new length.new }
{
    c_doors::talvongre_read(words, map, bytes, elems, scratch, out, kind, a, length)
}

// Keeps what the roots reach: 20, 19 or 14, or 0.
#[unsafe(no_mangle)]
pub extern "C" fn talvongre_collect(
    words: &mut [u64],
    map: &mut [u8],
    bytes: &mut [u8],
    elems: &mut [u64],
    scratch: &mut [u64],
    roots: &[u64],
) -> u32
    ensures { ToldCollect (collect_call (lists words.old map.old bytes.old elems.old) scratch.old roots.now) result (lists words.new map.new bytes.new elems.new) scratch.new }
{
    c_doors::talvongre_collect(words, map, bytes, elems, scratch, roots)
}

// "Cell store: a scalar or a pair of used slots into a used slot": 20, 11, 14 or 15, or 0.
#[unsafe(no_mangle)]
pub extern "C" fn talvongre_cell_store(
    words: &mut [u64],
    map: &[u8],
    bytes: &[u8],
    elems: &[u64],
    slot: u64,
    kind: u64,
    a: u64,
    b: u64,
) -> u32
    ensures { ToldStore (cell_store (lists words.old map.now bytes.now elems.now) slot kind a b) result (lists words.new map.now bytes.now elems.now) }
{
    c_doors::talvongre_cell_store(words, map, bytes, elems, slot, kind, a, b)
}

// "Element store: a scalar or a used slot": 20, 11, 14 or 15, or 0.
#[unsafe(no_mangle)]
pub extern "C" fn talvongre_element_store(
    words: &[u64],
    map: &[u8],
    bytes: &[u8],
    elems: &mut [u64],
    slot: u64,
    k: u64,
    kind: u64,
    a: u64,
) -> u32
    ensures { ToldStore (element_store (lists words.now map.now bytes.now elems.old) slot k kind a) result (lists words.now map.now bytes.now elems.new) }
{
    c_doors::talvongre_element_store(words, map, bytes, elems, slot, k, kind, a)
}

// `eqv` of two values: 20, 11 or 14, or 0 and the truth.
#[unsafe(no_mangle)]
pub extern "C" fn talvongre_eqv(
    words: &[u64],
    map: &[u8],
    bytes: &[u8],
    elems: &[u64],
    kind: u64,
    a: u64,
    kind2: u64,
    a2: u64,
    truth: &mut u64,
) -> u32
    ensures { ToldTruth (eqv_call (lists words.now map.now bytes.now elems.now) kind a kind2 a2) truth.old result truth.new }
{
    c_doors::talvongre_eqv(words, map, bytes, elems, kind, a, kind2, a2, truth)
}

// `equal` of two values: 20, 19, 11 or 14, or 0 and the truth.
#[unsafe(no_mangle)]
pub extern "C" fn talvongre_equal(
    words: &[u64],
    map: &[u8],
    bytes: &[u8],
    elems: &[u64],
    scratch: &mut [u64],
    kind: u64,
    a: u64,
    kind2: u64,
    a2: u64,
    truth: &mut u64,
) -> u32
    ensures { ToldEqual (EqualCall (lists words.now map.now bytes.now elems.now) scratch.old kind a kind2 a2) truth.old result scratch.new truth.new }
{
    c_doors::talvongre_equal(words, map, bytes, elems, scratch, kind, a, kind2, a2, truth)
}

// "A string or name is read as the part of the byte arena that holds it": 20, 14 or 15, or 0 with that part's place and size.
#[unsafe(no_mangle)]
pub extern "C" fn talvongre_text(
    words: &[u64],
    map: &[u8],
    bytes: &[u8],
    elems: &[u64],
    slot: u64,
    place: &mut u64,
    size: &mut u64,
) -> u32
    ensures { ToldBlock (text_call (lists words.now map.now bytes.now elems.now) slot) place.old size.old result place.new size.new }
{
    c_doors::talvongre_text(words, map, bytes, elems, slot, place, size)
}

// The capacity: 20, or 0 and the count.
#[unsafe(no_mangle)]
pub extern "C" fn talvongre_capacity(
    words: &[u64],
    map: &[u8],
    bytes: &[u8],
    elems: &[u64],
    count: &mut u64,
) -> u32
    ensures { Told (capacity_call (lists words.now map.now bytes.now elems.now)) count.old result count.new }
{
    c_doors::talvongre_capacity(words, map, bytes, elems, count)
}

// The free count, the free list's length: 20, or 0 and the count.
#[unsafe(no_mangle)]
pub extern "C" fn talvongre_free(
    words: &[u64],
    map: &[u8],
    bytes: &[u8],
    elems: &[u64],
    count: &mut u64,
) -> u32
    ensures { Told (free_call (lists words.now map.now bytes.now elems.now)) count.old result count.new }
{
    c_doors::talvongre_free(words, map, bytes, elems, count)
}

// The used count, capacity less the free list: 20, or 0 and the count.
#[unsafe(no_mangle)]
pub extern "C" fn talvongre_used(
    words: &[u64],
    map: &[u8],
    bytes: &[u8],
    elems: &[u64],
    count: &mut u64,
) -> u32
    ensures { Told (used_call (lists words.now map.now bytes.now elems.now)) count.old result count.new }
{
    c_doors::talvongre_used(words, map, bytes, elems, count)
}
