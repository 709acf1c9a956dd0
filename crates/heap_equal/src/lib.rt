// `equal` of two values (compare.rs). Document 01, "Equality": "true if `eqv`; two pairs, by the pair walk; two vectors of one
// length, element by element; two strings by content; else false. Pair walk: the cars are `equal`; then, if both cdr cells are
// pairs, the same again; otherwise `eqv` of the two cells themselves. .. The answer is false exactly when a finite chain of
// such steps fails." Two slots become one class before anything of them is compared, strings too, so that no two slots of one
// class are compared again: the time goes with the slots and elements met, however the data share. What has been found of two
// slots by `equal` says nothing of the walk from them, so the walk has classes of its own. The scratch of c slots: c words of
// classes, c words of the walk's classes, then the pairs of slots whose parts are still to be compared.
#![tactic(auto)]

ghost use Rattle.std.specs.Prelude.{◌≡◌, [], ◌∷◌, ◌+◌, ◌*◌, ◌≤◌, ◌<◌, length};
ghost use Rattle.rules.specs.Cells.{slot};
ghost use Rattle.rules.specs.Layout.{heap_of};
ghost use Rattle.rules.specs.Equal.{eqv, alike, Equal};
ghost use Rattle.leaf_cells.specs.Cells.{loaded};
ghost use Rattle.leaf_cells.specs.Elements.{value_of};
ghost use Rattle.leaf_lists.specs.Lists.{lent_of};
ghost use Rattle.heap_eqv.specs.Eqv.{Comparable};
ghost use Rattle.heap_equal.specs.Parts.{parted, facing};
ghost use Rattle.heap_equal.specs.Boards.{CanJoinAlike, AlikeJoined, CanJoin, WalksJoined, PairPushed, Ready, by_eqv, NextTold, Elements, UsedSlots, WalkTold, Decides, Room, Clear, Answered};

use leaf_cells::{VCell, Value};
use leaf_lists::Lists;

// The parts by which two cells are compared: car, cdr, car and cdr of two pairs; the elements' places and number of two vectors
// of one length; or none.
// Kept: `Unlike` as a third case: each match tells all three at once, where an Option of two would be told in two steps.
#[derive(Clone, Copy)]
enum Parts {
    Pairs(usize, usize, usize, usize),
    Vectors(usize, usize, usize),
    Unlike,
}

// Kept: three outcomes, of which two are no failure; an Option of an enum would say them in two steps.
// The pair walk goes on from two slots, with the stack's height; or it has come to its end; or it has failed.
#[derive(Clone, Copy)]
enum Walked {
    On(usize, usize, usize),
    Ends,
    Differs,
}

// What two slots are compared by.
fn parts_of(words: &[u64], s: usize, t: usize) -> Parts
    requires { (8 * s + 16 ≤ length words.now) × (8 * t + 16 ≤ length words.now) }
    ensures { result ≡ parted (loaded words.now s) (loaded words.now t) }
{
    let x = leaf_cells::load(words, s);
    let y = leaf_cells::load(words, t);
    match x {
        VCell::Pair(a, d) => match y {
            VCell::Pair(b, e) => Parts::Pairs(a, d, b, e),
            _ => Parts::Unlike,
        },
        VCell::Vector(p, m) => match y {
            VCell::Vector(q, n) => {
                if m != n {
                    return Parts::Unlike;
                }
                Parts::Vectors(p, q, m)
            }
            _ => Parts::Unlike,
        },
        _ => Parts::Unlike,
    }
}

// Two slots of one class; false where they were already.
fn join_alike(scratch: &mut [u64], c: usize, s: usize, t: usize) -> bool
    requires { CanJoinAlike c scratch.old s t }
    ensures { AlikeJoined c scratch.old s t scratch.new result }
{
    leaf_classes::join(&mut scratch[..c], s, t)
}

// Two slots of one class of the walk; false where they were already.
fn join_walks(scratch: &mut [u64], c: usize, s: usize, t: usize) -> bool
    requires { CanJoin c scratch.old s t }
    ensures { WalksJoined c scratch.old s t scratch.new result }
{
    let end = c + c;
    leaf_classes::join(&mut scratch[c..end], s, t)
}

// Two slots on the stack.
fn push_pair(scratch: &mut [u64], c: usize, top: usize, s: usize, t: usize) -> usize
    requires { 2 * c + 2 * top + 1 < length scratch.old }
    ensures { PairPushed c scratch.old top s t scratch.new result }
{
    let at = 2 * c + 2 * top;
    scratch[at] = s as u64;
    scratch[at + 1] = t as u64;
    top + 1
}

// Each push answers the height of the stack of pairs to compare, or none where two values differ.

// Two slots that should be `equal`: nothing is to do where they are of one class, which they are from now on; they are if they
// are `eqv`; otherwise their parts have to be.
fn push_slots(
    heap: Lists<'_>,
    scratch: &mut [u64],
    c: usize,
    top: usize,
    s: usize,
    t: usize,
) -> Option<usize>
    requires ready { Ready (lent_of heap) c scratch.old top }
    requires used_slots { UsedSlots (heap_of (lent_of heap)) s t }
    ensures { NextTold (heap_of (lent_of heap.entry)) c (alike (slot s) (slot t) ∷ []) scratch.old top scratch.new result }
{
    if !join_alike(scratch, c, s, t) {
        return Some(top);
    }
    if heap_eqv::eqv(heap, Value::Slot(s), Value::Slot(t)) {
        return Some(top);
    }
    let parts = parts_of(heap.words, s, t);
    match parts {
        Parts::Unlike => None,
        _ => Some(push_pair(scratch, c, top, s, t)),
    }
}

// Two values, one of which is a scalar: they are `eqv`, or they differ.
fn push_scalar(heap: Lists<'_>, top: usize, v: Value, w: Value) -> Option<usize>
    requires { Comparable (lent_of heap) (value_of v) (value_of w) }
    ensures { result ≡ by_eqv (eqv (heap_of (lent_of heap.entry)) (value_of v) (value_of w)) top }
{
    if heap_eqv::eqv(heap, v, w) {
        return Some(top);
    }
    None
}

// Two values that should be `equal`.
fn push_alike(
    heap: Lists<'_>,
    scratch: &mut [u64],
    c: usize,
    top: usize,
    v: Value,
    w: Value,
) -> Option<usize>
    requires ready { Ready (lent_of heap) c scratch.old top }
    requires comparable { Comparable (lent_of heap) (value_of v) (value_of w) }
    ensures { NextTold (heap_of (lent_of heap.entry)) c (alike (value_of v) (value_of w) ∷ []) scratch.old top scratch.new result }
{
    let Value::Slot(s) = v else {
        return push_scalar(heap, top, v, w);
    };
    let Value::Slot(t) = w else {
        return push_scalar(heap, top, v, w);
    };
    push_slots(heap, scratch, c, top, s, t)
}

// "two vectors of one length, element by element"
fn push_elements(
    heap: Lists<'_>,
    scratch: &mut [u64],
    c: usize,
    top: usize,
    p: usize,
    q: usize,
    n: usize,
) -> Option<usize>
    requires ready { Ready (lent_of heap) c scratch.old top }
    requires elements { Elements (lent_of heap) p q n }
    ensures { NextTold (heap_of (lent_of heap.entry)) c (facing heap.entry.elems.now p q n) scratch.old top scratch.new result }
{
    let mut height = top;
    for j in 0..n {
        let v = leaf_cells::load_element(heap.elems, p + j);
        let w = leaf_cells::load_element(heap.elems, q + j);
        height = push_alike(heap, scratch, c, height, v, w)?;
    }
    Some(height)
}

// One step of the pair walk. Here too the two slots become one class before their cells are compared.
fn walk_step(
    heap: Lists<'_>,
    scratch: &mut [u64],
    c: usize,
    top: usize,
    s: usize,
    t: usize,
) -> Walked
    requires ready { Ready (lent_of heap) c scratch.old top }
    requires used_slots { UsedSlots (heap_of (lent_of heap)) s t }
    ensures { WalkTold (heap_of (lent_of heap.entry)) c s t scratch.old top scratch.new result }
{
    if !join_walks(scratch, c, s, t) {
        return Walked::Ends;
    }
    let parts = parts_of(heap.words, s, t);
    let Parts::Pairs(a, d, b, e) = parts else {
        let x = leaf_cells::load(heap.words, s);
        let y = leaf_cells::load(heap.words, t);
        if heap_eqv::eqv_cells(heap.bytes, x, y) {
            return Walked::Ends;
        }
        return Walked::Differs;
    };
    let next = push_alike(heap, scratch, c, top, Value::Slot(a), Value::Slot(b));
    match next {
        Some(n) => Walked::On(n, d, e),
        None => Walked::Differs,
    }
}

// The pairs on the stack, until none is left or a step fails.
// Kept: loops left by a label, the form that the paper names for the pair walk (docs/DECISIONS.md, "Forms").
fn compare(heap: Lists<'_>, scratch: &mut [u64], c: usize, height: usize) -> bool
    requires { Ready (lent_of heap) c scratch.old height }
    ensures { Decides (heap_of (lent_of heap.entry)) c scratch.old height result }
{
    let mut yes = true;
    let mut top = height;
    'pending: while 0 < top {
        top -= 1;
        let at = 2 * c + 2 * top;
        let mut s = scratch[at] as usize;
        let mut t = scratch[at + 1] as usize;
        let parts = parts_of(heap.words, s, t);
        match parts {
            Parts::Pairs(_, _, _, _) => loop {
                let step = walk_step(heap, scratch, c, top, s, t);
                match step {
                    Walked::On(n, d, e) => {
                        top = n;
                        s = d;
                        t = e;
                    }
                    Walked::Ends => break,
                    Walked::Differs => {
                        yes = false;
                        break 'pending;
                    }
                }
            },
            Parts::Vectors(p, q, n) => {
                let next = push_elements(heap, scratch, c, top, p, q, n);
                match next {
                    Some(k) => top = k,
                    None => {
                        yes = false;
                        break 'pending;
                    }
                }
            }
            Parts::Unlike => {}
        }
    }
    yes
}

// In scratch that is all zero.
fn decide(heap: Lists<'_>, scratch: &mut [u64], v: Value, w: Value) -> bool
    requires comparable { Comparable (lent_of heap) (value_of v) (value_of w) }
    requires room { Room (lent_of heap) scratch.old }
    requires clear { Clear scratch.old }
    ensures { Equal (heap_of (lent_of heap.entry)) (value_of v) (value_of w) result }
{
    let c = heap.words[1] as usize;
    let next = push_alike(heap, scratch, c, 0, v, w);
    match next {
        Some(top) => compare(heap, scratch, c, top),
        None => false,
    }
}

// Two values of a sound heap, whose slots are in use.
pub fn equal(heap: Lists<'_>, scratch: &mut [u64], v: Value, w: Value) -> bool
    requires comparable { Comparable (lent_of heap) (value_of v) (value_of w) }
    requires room { Room (lent_of heap) scratch.old }
    ensures { Answered (heap_of (lent_of heap.entry)) scratch.old (value_of v) (value_of w) scratch.new result }
{
    leaf_clear::clear_words(scratch);
    let answer = decide(heap, scratch, v, w);
    leaf_clear::clear_words(scratch);
    answer
}
