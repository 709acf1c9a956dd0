// What a put will take (put's second pass): slots, bytes of texts and elements of vectors, told from the lent datum and the
// symbol table before the heap is touched. Document 01, "What a caller is told": 16, "the slots needed exceed the free ones
// plus all growth that fits", and 17, "an arena has less room than needed". One loop over the nodes, with a stack of the
// data that are still awaited and the names met so far.
#![tactic(auto)]

ghost use Rattle.std.specs.Prelude.{◌≡◌, ◌+◌, ◌-◌, ◌^◌, ◌≤◌, ◌<◌, length, take, drop, true, []};
ghost use Rattle.leaf_nodes.specs.Reads.{text_length};
ghost use Rattle.rules.specs.Datum.{Datum, encode, datum_fits};
ghost use Rattle.heap_needs.specs.Needs.{met, a_name, symbol_needs, node_needs, need, no_needs};
ghost use Rattle.heap_needs.specs.Lacks.{Measured, short_of};
ghost use Rattle.heap_needs.specs.Pass.{names_in, Within, needs_in, known_in, Lent, node_of, following, flags, Countable, Counted, with_more, Clear, Pushed, Going, Turned, Started, DatumThere, needed};

use arrayvec::ArrayVec;
use leaf_nodes::Node;
use refusals::Refusal;

// "4,096 nodes": no more names, and no more data awaited.
const NODES: usize = 4096;

// Words of the header.
const CHUNK: usize = 0;

const CAPACITY: usize = 1;

const FREE_COUNT: usize = 2;

const BYTES_USED: usize = 4;

const ELEMENTS_USED: usize = 5;

// What a put will take.
#[derive(Clone, Copy)]
pub struct Needed {
    pub slots: usize,
    pub bytes: usize,
    pub elements: usize,
}

// A name met: its place and size in the lent datum, and its scope.
#[derive(Clone, Copy, Default)]
struct Name {
    place: usize,
    size: usize,
    scope: u64,
}

// What the nodes so far take, the next node's place, and how many data are awaited.
#[derive(Clone, Copy)]
struct Tally {
    slots: usize,
    bytes: usize,
    elements: usize,
    at: usize,
    top: usize,
}

// The name was met under this scope. The latest are looked at first, since a datum names again what it has named lately.
fn is_met(names: &[Name], datum: &[u8], name: &[u8], scope: u64) -> bool
    requires { Within names.now datum.now }
    ensures { result ≡ met (names_in names.now datum.now) name.now scope }
{
    for i in (0..names.len()).rev() {
        let n = names[i];
        if n.scope == scope && leaf_names::same(&datum[n.place..n.place + n.size], name) {
            return true;
        }
    }
    false
}

// A new name: a slot, its bytes, and an entry of the table.
fn make_name(
    datum: &[u8],
    names: &mut ArrayVec<Name, NODES>,
    t: Tally,
    size: usize,
    end: usize,
    scope: u64,
) -> Tally
    requires { Countable names.old.items datum.now t size end }
    ensures { Counted names.old.items names.new.items datum.now t result size 0 (a_name (take size (drop (end - size) datum.now)) scope (needs_in names.old.items datum.now t)) }
{
    names.push(Name {
        place: end - size,
        size,
        scope,
    });
    more(t, 1, size, 0)
}

// The table has a symbol of this name, which ends at a place of the datum, under this scope.
fn is_known(words: &[u64], bytes: &[u8], datum: &[u8], size: usize, end: usize, scope: u64) -> bool
    requires lent { Lent words.now bytes.now }
    requires size_le_end { size ≤ end }
    requires end_in_bounds { end ≤ length datum.now }
    ensures { result ≡ known_in words.now bytes.now (take size (drop (end - size) datum.now)) scope }
{
    let start = end - size;
    leaf_find::find(words, bytes, &datum[start..end], scope).is_some()
}

// "A symbol is found or made": found in the table or among the names met, it takes nothing.
fn count_name(
    words: &[u64],
    bytes: &[u8],
    datum: &[u8],
    names: &mut ArrayVec<Name, NODES>,
    t: Tally,
    size: usize,
    end: usize,
    scope: u64,
) -> Tally
    requires lent { Lent words.now bytes.now }
    requires countable { Countable names.old.items datum.now t size end }
    ensures { Counted names.old.items names.new.items datum.now t result size 0 (symbol_needs (known_in words.now bytes.now) (take size (drop (end - size) datum.now)) scope (needs_in names.old.items datum.now t)) }
{
    if is_known(words, bytes, datum, size, end, scope) {
        return t;
    }
    let start = end - size;
    if is_met(names, datum, &datum[start..end], scope) {
        return t;
    }
    make_name(datum, names, t, size, end, scope)
}

// A slot, some bytes and some elements more.
fn more(t: Tally, slots: usize, bytes: usize, elements: usize) -> Tally
    requires slots_bound { t.slots + slots < 2 ^ 64 }
    requires bytes_bound { t.bytes + bytes < 2 ^ 64 }
    requires elements_bound { t.elements + elements < 2 ^ 64 }
    ensures { result ≡ with_more t slots bytes elements }
{
    let mut u = t;
    u.slots = t.slots + slots;
    u.bytes = t.bytes + bytes;
    u.elements = t.elements + elements;
    u
}

// What the node takes whose bytes end at a place of the datum.
fn count(
    words: &[u64],
    bytes: &[u8],
    datum: &[u8],
    names: &mut ArrayVec<Name, NODES>,
    t: Tally,
    node: Node,
    wanted: bool,
    end: usize,
) -> Tally
    requires lent { Lent words.now bytes.now }
    requires countable { Countable names.old.items datum.now t (text_length node) end }
    requires node_bound { following node ≤ 4096 }
    ensures { Counted names.old.items names.new.items datum.now t result (text_length node) (following node) (node_needs (known_in words.now bytes.now) wanted (node_of node (take (text_length node) (drop (end - text_length node) datum.now))) (needs_in names.old.items datum.now t)) }
{
    match node {
        Node::Plain(_) => { if wanted { more(t, 1, 0, 0) } else { t } }
        Node::String(n) => more(t, 1, n, 0),
        Node::Symbol(n) => count_name(words, bytes, datum, names, t, n, end, 0),
        Node::Ident(scope, n) => count_name(words, bytes, datum, names, t, n, end, scope),
        Node::Ref(_) => t,
        Node::Pair | Node::Def(_) => more(t, 1, 0, 0),
        Node::Vector(n) => more(t, 1, 0, n),
    }
}

// Kept: a stack of bytes with its top: a vector's n flags stand above the top already, where an ArrayVec would push n times false.

// The data that follow a node are awaited, the first of them on top. A place of the stack is 1 where a scalar wants a slot,
// and 0 above the top.
fn push(stack: &mut [u8; 4096], top: usize, node: Node) -> usize
    requires clear { Clear stack.old top }
    requires node_bound { top + following node ≤ 4096 }
    ensures { Pushed stack.old stack.new top result (flags (node_of node [])) }
{
    match node {
        Node::Pair => {
            stack[top] = 1;
            stack[top + 1] = 1;
            top + 2
        }
        Node::Vector(n) => top + n,
        Node::Def(_) => top + 1,
        _ => top,
    }
}

// One node.
fn turn(
    words: &[u64],
    bytes: &[u8],
    datum: &[u8],
    names: &mut ArrayVec<Name, NODES>,
    stack: &mut [u8; 4096],
    t: Tally,
) -> Tally
    requires lent { Lent words.now bytes.now }
    requires top_nonzero { 0 < t.top }
    requires going { Going (known_in words.now bytes.now) datum.now names.old.items stack.old t }
    ensures { Turned (known_in words.now bytes.now) datum.now names.old.items stack.old names.new.items stack.new t result }
{
    let top = t.top - 1;
    let wanted = stack[top] == 1;
    stack[top] = 0;
    let at = t.at;
    let Ok(read) = leaf_nodes::read_node(&datum[at..]) else {
        unreachable!()
    };
    let node = read.node;
    let end = at + read.size;
    let mut u = count(words, bytes, datum, names, t, node, wanted, end);
    u.at = end;
    u.top = push(stack, top, node);
    u
}

// "The outer answer is always a slot."
fn start(stack: &mut [u8; 4096]) -> Tally
    requires { Clear stack.old 0 }
    ensures { Started stack.new result }
{
    stack[0] = 1;
    Tally {
        slots: 0,
        bytes: 0,
        elements: 0,
        at: 0,
        top: 1,
    }
}

// What the put of a datum takes.
pub fn needs(words: &[u64], bytes: &[u8], datum: &[u8]) -> Needed
    requires lent { Lent words.now bytes.now }
    requires datum_there { DatumThere datum.now }
    ensures { (d : Datum) → datum.now ≡ encode d → datum_fits d ≡ true → result ≡ needed (need (known_in words.now bytes.now) true d no_needs) }
{
    let mut names = ArrayVec::new();
    let mut stack = [0; 4096];
    let mut t = start(&mut stack);
    while 0 < t.top {
        t = turn(words, bytes, datum, &mut names, &mut stack, t);
    }
    Needed {
        slots: t.slots,
        bytes: t.bytes,
        elements: t.elements,
    }
}

// Holds what is needed against the free slots and all growth that fits (16), then against the room left in the two arenas, of
// which the lengths are given (17).
pub fn short(words: &[u64], needed: Needed, bytes: usize, elements: usize) -> Result<(), Refusal>
    requires { Measured words.now bytes elements }
    ensures { result ≡ short_of words.now needed bytes elements }
{
    let lent = (words.len() - 8) / 8;
    let capacity = words[CAPACITY] as usize;
    let most = leaf_free::fitting(words[CHUNK] as usize, lent, capacity);
    let free = words[FREE_COUNT] as usize;
    if free + (most - capacity) < needed.slots {
        return Err(Refusal::NoSlots);
    }
    let text_room = bytes - words[BYTES_USED] as usize;
    let room = elements - words[ELEMENTS_USED] as usize;
    if text_room < needed.bytes || room < needed.elements {
        return Err(Refusal::NoRoom);
    }
    Ok(())
}
