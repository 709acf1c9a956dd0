// The labels of one put, kept in the scratch (heap.rs, put_cell_with_labels: the map of labels). Document 01: "Within one
// put the latest definition of a label counts, also after its inner datum has ended."
#![tactic(auto)]

ghost use Rattle.std.specs.Prelude.{◌≡◌, ◌+◌, ◌*◌, ◌≤◌, ◌<◌, length, unwrap_or, IfSome};
ghost use Rattle.rules.specs.Put.{slot_of};
ghost use Rattle.heap_labels.specs.Labels.{labels_in, index_of, Defined};

// Kept: pairs of words with their count beside them, since the scratch is lent words, by the C interface.

// Where a label stands among the first `count`.
fn place_of(labels: &[u64], count: usize, label: u64) -> Option<usize>
    requires { 2 * count ≤ length labels.now }
    ensures place { unwrap_or result count ≡ index_of label (labels_in labels.now count) }
    ensures within { IfSome result (λ i. i < count) }
{
    for i in 0..count {
        if labels[2 * i] == label {
            return Some(i);
        }
    }
    None
}

// The slot of a label's latest definition; 0 where it has none.
// Kept: 0 for none, as the rules' `slot_of` has it, which the clause names.
pub fn slot_of(labels: &[u64], count: usize, label: u64) -> usize
    requires { 2 * count ≤ length labels.now }
    ensures { result ≡ slot_of label (labels_in labels.now count) }
{
    match place_of(labels, count, label) {
        Some(i) => labels[2 * i + 1] as usize,
        None => 0,
    }
}

// A definition of a label takes the place of an earlier one. The answer is how many labels there are now.
pub fn define(labels: &mut [u64], count: usize, label: u64, slot: usize) -> usize
    requires { 2 * count + 2 ≤ length labels.old }
    ensures { Defined labels.old count label slot labels.new result }
{
    let place = place_of(labels, count, label);
    let i = place.unwrap_or(count);
    labels[2 * i] = label;
    labels[2 * i + 1] = slot as u64;
    if place.is_some() { count } else { count + 1 }
}
