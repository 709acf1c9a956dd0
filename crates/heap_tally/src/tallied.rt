// What is tallied of the nodes so far, as a value that can be copied.
ghost use Rattle.std.specs.Prelude.{◌≤◌};

// The nodes so far, whether one broke a number of its own or a label was one too many, whether a reference came early, and
// the distinct labels, the first `known` of the array.
// Kept: two flags beside each other, since either can hold without the other, and 12 is told before 13.
// Kept: an array with its count, since a tally can be copied, which an ArrayVec can't.
#[derive(Clone, Copy)]
pub struct Tally {
    pub nodes: u64,
    pub over: bool,
    pub early: bool,
    pub known: usize,
    pub labels: [u64; 64],
    pub ghost kept: { known ≤ 64 },
}
