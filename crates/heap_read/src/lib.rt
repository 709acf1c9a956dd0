// A read whole, behind the door's tests (heap.rs: get_as_cell): the walk that gives labels, the build once over an empty part of
// the output, which finds 12 and 18 before a byte is written, and once more over the output; then the scratch cleared. Document
// 01, "Reading back"; "A refusal answers its number only, and leaves heap and output as they stood." "Output past an answer
// stays."
#![tactic(auto)]

ghost use Rattle.std.specs.Prelude.{◌≡◌, ℕ, ◌*◌, ◌/◌, length, get_or, List};
ghost use Rattle.rules.specs.Heap.{Heap};
ghost use Rattle.rules.specs.Layout.{Rooms};
ghost use Rattle.rules.specs.Calls.{read_value};
ghost use Rattle.leaf_cells.specs.Elements.{value_of};
ghost use Rattle.heap_read.specs.Whole.{Held, ValueTask, ValueDone, MarkedTask, BlankTask, Answered, read_left};

use leaf_cells::Value;
use leaf_lists::Lists;
use leaf_write::Page;
use refusals::Refusal;

// Builds a value from the first node on.
fn build_value(heap: Lists<'_>, marks: &mut [u64], out: &mut [u8], v: Value) -> Option<Page>
    requires { (r : Rooms) × (h : Heap) × (labels : List ℕ) × ValueTask r h labels (value_of v) heap.words.now heap.bytes.now heap.elems.now marks.old }
    ensures { (r : Rooms) (h : Heap) (labels : List ℕ) → ValueTask r h labels (value_of v) heap.entry.words.now heap.entry.bytes.now heap.entry.elems.now marks.old → ValueDone h labels (value_of v) out.old result marks.new out.new }
{
    let p = Page { left: 4096, at: 0 };
    match v {
        Value::Slot(s) => heap_build::build(heap.words, heap.bytes, heap.elems, marks, out, s, p),
        _ => leaf_write::scalar(out, leaf_cells::value_words(v), p),
    }
}

// No definition has begun any more; the labels stay.
fn forget(marks: &mut [u64])
    ensures { (s : ℕ) → get_or marks.new s 0 ≡ get_or marks.old s 0 / 4 * 4 }
{
    for m in marks.iter_mut() {
        *m = *m / 4 * 4;
    }
}

// Reads a value whose labels are marked.
fn read_marked(
    heap: Lists<'_>,
    marks: &mut [u64],
    out: &mut [u8],
    v: Value,
) -> Result<usize, Refusal>
    requires { (r : Rooms) × (h : Heap) × MarkedTask r h (value_of v) heap.words.now heap.bytes.now heap.elems.now marks.old }
    ensures { (r : Rooms) (h : Heap) → MarkedTask r h (value_of v) heap.entry.words.now heap.entry.bytes.now heap.entry.elems.now marks.old → Answered h (value_of v) out.old result out.new }
{
    let counted = build_value(heap, marks, &mut [], v).ok_or(Refusal::OverLimit)?;
    if counted.at > out.len() {
        return Err(Refusal::ShortOutput);
    }
    // What was counted is what is written now.
    forget(marks);
    build_value(heap, marks, out, v);
    Ok(counted.at)
}

// Reads a value with scratch that is zero.
fn read_blank(
    heap: Lists<'_>,
    scratch: &mut [u64],
    out: &mut [u8],
    v: Value,
) -> Result<usize, Refusal>
    requires { (r : Rooms) × (h : Heap) × BlankTask r h (value_of v) heap.words.now heap.bytes.now heap.elems.now scratch.old }
    ensures { (r : Rooms) (h : Heap) → BlankTask r h (value_of v) heap.entry.words.now heap.entry.bytes.now heap.entry.elems.now scratch.old → Answered h (value_of v) out.old result out.new }
{
    let count = heap_walk::label(heap.words, heap.elems, scratch, v);
    if count > 64 {
        return Err(Refusal::OverLimit);
    }
    read_marked(heap, scratch, out, v)
}

// The read of a value of a sound heap that names a slot in use, or of an allowed scalar. Answers the length written, or the
// refusal.
pub fn read(
    heap: Lists<'_>,
    scratch: &mut [u64],
    out: &mut [u8],
    v: Value,
) -> Result<usize, Refusal>
    requires { (r : Rooms) × (h : Heap) × Held r h (value_of v) (length scratch.old) heap.words.now heap.bytes.now heap.elems.now }
    ensures { (r : Rooms) (h : Heap) → Held r h (value_of v) (length scratch.old) heap.entry.words.now heap.entry.bytes.now heap.entry.elems.now → read_left result scratch.new out.new ≡ read_value h scratch.old out.old (value_of v) }
{
    leaf_clear::clear_words(scratch);
    let a = read_blank(heap, scratch, out, v);
    leaf_clear::clear_words(scratch);
    a
}
