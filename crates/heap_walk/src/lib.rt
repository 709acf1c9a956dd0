// The walk that gives labels (heap.rs: scan_for_cycles). Document 01, "Reading back": "Walk car before cdr,
// elements in order, each pair or vector once. A slot met again while on the current path gets, if it has none, the next
// label from 0."
//
// The scratch has a word for each slot: 0 not met, 1 met, 2 on the path, and four for each label, counted from 1. The walk
// recurses over slots; a path has each slot once, so the bound of the capacity and one is never used up.
//
// Kept: the marks are numbers, since the scratch is lent as words (the C interface) and has no room for more.
// Kept: single slices: with `Lists` a read of the deepest datum took 2,625,832 bytes of stack, past the bar of 2 MiB (docs/LIMITS.md).
#![tactic(auto)]

ghost use Rattle.std.specs.Prelude.{◌≡◌, ◌+◌, ◌*◌, ◌≤◌, ◌<◌, length};
ghost use Rattle.rules.specs.Heap.{Heap};
ghost use Rattle.rules.specs.Layout.{Rooms};
ghost use Rattle.leaf_cells.specs.Cells.{loaded};
ghost use Rattle.leaf_cells.specs.Elements.{value_of};
ghost use Rattle.heap_walk.specs.Walks.{has_parts};
ghost use Rattle.heap_walk.specs.Marks.{MetAgain};
ghost use Rattle.heap_walk.specs.Tasks.{Job, Task, Done, PartsTask, PartsDone, ElementsTask, ElementsDone, ElementTask, ElementDone, LabelTask, LabelDone};

use leaf_cells::{VCell, Value};

// The slot holds a pair or a vector.
fn has_parts(words: &[u64], slot: usize) -> bool
    requires { 8 * slot + 16 ≤ length words.now }
    ensures { result ≡ has_parts (loaded words.now slot) }
{
    matches!(
        leaf_cells::load(words, slot),
        VCell::Pair(_, _) | VCell::Vector(_, _)
    )
}

// A slot met again: one on the path that has no label gets the next. The answer is how many labels there are now.
fn met_again(marks: &mut [u64], count: usize, slot: usize) -> usize
    requires { (slot < length marks.old) × (count ≤ 4096) }
    ensures { MetAgain marks.old count slot marks.new result }
{
    if marks[slot] == 2 {
        marks[slot] = 4 * count as u64 + 6;
        count + 1
    } else {
        count
    }
}

// Walks from a slot. The answer is how many labels there are then.
#[cycle(walking)]
fn walk(
    words: &[u64],
    elems: &[u64],
    marks: &mut [u64],
    count: usize,
    slot: usize,
    left: usize,
) -> usize
    requires { (j : Job) × Task j slot left count words.now elems.now marks.old }
    ensures { (j : Job) → Task j slot left count words.now elems.now marks.old → Done j slot left result marks.new }
{
    if left == 0 || !has_parts(words, slot) {
        return count;
    }
    if marks[slot] != 0 {
        return met_again(marks, count, slot);
    }
    marks[slot] = 2;
    let known = walk_parts(words, elems, marks, count, slot, left - 1);
    marks[slot] -= 1;
    known
}

// Walks what a slot's cell holds: "car before cdr, elements in order".
#[cycle(walking)]
fn walk_parts(
    words: &[u64],
    elems: &[u64],
    marks: &mut [u64],
    count: usize,
    slot: usize,
    left: usize,
) -> usize
    requires { (j : Job) × PartsTask j slot left count words.now elems.now marks.old }
    ensures { (j : Job) → PartsTask j slot left count words.now elems.now marks.old → PartsDone j slot left result marks.new }
{
    match leaf_cells::load(words, slot) {
        VCell::Pair(a, d) => {
            let known = walk(words, elems, marks, count, a, left);
            walk(words, elems, marks, known, d, left)
        }
        VCell::Vector(place, n) => walk_elements(words, elems, marks, count, place, n, left),
        _ => count,
    }
}

// Walks n elements from a place on.
#[cycle(walking)]
fn walk_elements(
    words: &[u64],
    elems: &[u64],
    marks: &mut [u64],
    count: usize,
    place: usize,
    n: usize,
    left: usize,
) -> usize
    requires { (j : Job) × ElementsTask j place n left count words.now elems.now marks.old }
    ensures { (j : Job) → ElementsTask j place n left count words.now elems.now marks.old → ElementsDone j place n left result marks.new }
{
    let mut known = count;
    for i in 0..n {
        known = walk_element(words, elems, marks, known, place + i, left);
    }
    known
}

// Walks the element at a place; a scalar leads nowhere.
#[cycle(walking)]
fn walk_element(
    words: &[u64],
    elems: &[u64],
    marks: &mut [u64],
    count: usize,
    place: usize,
    left: usize,
) -> usize
    requires { (j : Job) × ElementTask j place left count words.now elems.now marks.old }
    ensures { (j : Job) → ElementTask j place left count words.now elems.now marks.old → ElementDone j place left result marks.new }
{
    match leaf_cells::load_element(elems, place) {
        Value::Slot(s) => walk(words, elems, marks, count, s, left),
        _ => count,
    }
}

// The labels of a value's reading, in scratch that is zero. The answer is how many there are.
pub fn label(words: &[u64], elems: &[u64], marks: &mut [u64], v: Value) -> usize
    requires { (r : Rooms) × (h : Heap) × LabelTask r h (value_of v) words.now elems.now marks.old }
    ensures { (r : Rooms) (h : Heap) → LabelTask r h (value_of v) words.now elems.now marks.old → LabelDone h (value_of v) result marks.new }
{
    match v {
        Value::Slot(s) => walk(words, elems, marks, 0, s, words[1] as usize + 1),
        _ => 0,
    }
}
