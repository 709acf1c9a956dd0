// The build of a datum from the heap (heap.rs: build_cell, build_cell_body). Document 01, "Reading back": "Then build in the
// same order: a labelled slot is a definition at first meeting and a reference later. Sharing without a cycle is written out
// again in full."
//
// The builder recurses over slots, and the nodes that may still be written fall. The scratch has a word for each slot, as the
// walk left it: four for each label, counted from 1, and what is over tells whether the label's definition has begun: 2 says
// so. What is written past the end of the output is left out, so that an empty part counts the bytes.
// Kept: single slices: with `Lists` a read of the deepest datum took 2,625,832 bytes of stack, past the bar of 2 MiB (docs/LIMITS.md).
#![tactic(auto)]

ghost use Rattle.heap_build.specs.Tasks.{Job, Task, Done, CellTask, CellDone, PairTask, PairDone, VectorTask, VectorDone, ElementsTask, ElementsDone, ElementTask, ElementDone};

use leaf_cells::{VCell, Value};
use leaf_write::Page;

// Builds what a slot shows: a labelled one is a definition at first meeting and a reference later.
#[cycle(building)]
pub fn build(
    words: &[u64],
    bytes: &[u8],
    elems: &[u64],
    marks: &mut [u64],
    out: &mut [u8],
    slot: usize,
    p: Page,
) -> Option<Page>
    requires { (j : Job) × Task j slot p words.now bytes.now elems.now marks.old out.old }
    ensures { (j : Job) → Task j slot p words.now bytes.now elems.now marks.old out.old → Done j slot result marks.new out.new }
{
    let m = marks[slot];
    match (m / 4, m % 4) {
        (0, _) => build_cell(words, bytes, elems, marks, out, slot, p),
        (label, 2) => leaf_write::field(out, 13, 4, label - 1, p),
        (label, _) => {
            marks[slot] = 4 * label + 2;
            let head = leaf_write::field(out, 12, 4, label - 1, p)?;
            build_cell(words, bytes, elems, marks, out, slot, head)
        }
    }
}

// Builds a slot's cell.
#[cycle(building)]
fn build_cell(
    words: &[u64],
    bytes: &[u8],
    elems: &[u64],
    marks: &mut [u64],
    out: &mut [u8],
    slot: usize,
    p: Page,
) -> Option<Page>
    requires { (j : Job) × CellTask j slot p words.now bytes.now elems.now marks.old out.old }
    ensures { (j : Job) → CellTask j slot p words.now bytes.now elems.now marks.old out.old → CellDone j slot result marks.new out.new }
{
    match leaf_cells::load(words, slot) {
        VCell::Pair(a, d) => build_pair(words, bytes, elems, marks, out, a, d, p),
        VCell::Vector(place, n) => build_vector(words, bytes, elems, marks, out, place, n, p),
        VCell::Symbol(place, n) => leaf_write::text(out, 8, leaf_rooms::text(bytes, place, n), p),
        VCell::String(place, n) => leaf_write::text(out, 7, leaf_rooms::text(bytes, place, n), p),
        cell => leaf_write::scalar(out, leaf_cells::cell_words(cell), p),
    }
}

// A pair: car, then cdr.
#[cycle(building)]
fn build_pair(
    words: &[u64],
    bytes: &[u8],
    elems: &[u64],
    marks: &mut [u64],
    out: &mut [u8],
    a: usize,
    d: usize,
    p: Page,
) -> Option<Page>
    requires { (j : Job) × PairTask j a d p words.now bytes.now elems.now marks.old out.old }
    ensures { (j : Job) → PairTask j a d p words.now bytes.now elems.now marks.old out.old → PairDone j a d result marks.new out.new }
{
    let head = leaf_write::field(out, 9, 0, 0, p)?;
    let car = build(words, bytes, elems, marks, out, a, head)?;
    build(words, bytes, elems, marks, out, d, car)
}

// A vector: how many elements, then each.
#[cycle(building)]
fn build_vector(
    words: &[u64],
    bytes: &[u8],
    elems: &[u64],
    marks: &mut [u64],
    out: &mut [u8],
    place: usize,
    n: usize,
    p: Page,
) -> Option<Page>
    requires { (j : Job) × VectorTask j place n p words.now bytes.now elems.now marks.old out.old }
    ensures { (j : Job) → VectorTask j place n p words.now bytes.now elems.now marks.old out.old → VectorDone j place n result marks.new out.new }
{
    let head = leaf_write::field(out, 10, 4, n as u64, p)?;
    build_elements(words, bytes, elems, marks, out, place, n, head)
}

// The n elements from a place on.
#[cycle(building)]
fn build_elements(
    words: &[u64],
    bytes: &[u8],
    elems: &[u64],
    marks: &mut [u64],
    out: &mut [u8],
    place: usize,
    n: usize,
    p: Page,
) -> Option<Page>
    requires { (j : Job) × ElementsTask j place n p words.now bytes.now elems.now marks.old out.old }
    ensures { (j : Job) → ElementsTask j place n p words.now bytes.now elems.now marks.old out.old → ElementsDone j place n result marks.new out.new }
{
    let mut q = p;
    for i in 0..n {
        q = build_element(words, bytes, elems, marks, out, place + i, q)?;
    }
    Some(q)
}

// The element at a place.
#[cycle(building)]
fn build_element(
    words: &[u64],
    bytes: &[u8],
    elems: &[u64],
    marks: &mut [u64],
    out: &mut [u8],
    place: usize,
    p: Page,
) -> Option<Page>
    requires { (j : Job) × ElementTask j place p words.now bytes.now elems.now marks.old out.old }
    ensures { (j : Job) → ElementTask j place p words.now bytes.now elems.now marks.old out.old → ElementDone j place result marks.new out.new }
{
    match leaf_cells::load_element(elems, place) {
        Value::Slot(s) => build(words, bytes, elems, marks, out, s, p),
        v => leaf_write::scalar(out, leaf_cells::value_words(v), p),
    }
}
