// What is tallied of a datum's nodes, node by node, by the check of put. Document 01, "Numbers": "A datum: 4,096 nodes, 64 distinct
// labels, vectors of 1,024, strings of 4,096 bytes, names of 255 bytes (0 allowed)"; and row 13, "a label is referred to before a
// definition of it has begun".
#![tactic(auto)]

ghost use Rattle.std.specs.Prelude.{◌≡◌, [], false, ◌+◌, ◌^◌, ◌<◌};
ghost use Rattle.rules.specs.Nodes as rules;
ghost use Rattle.rules.specs.Datum.{node_within};
ghost use Rattle.rules.proofs.Flat.{follow};
ghost use Rattle.heap_tally.specs.Pass.{tally_of, tally, mentioned, stepped, capped, Shown};

use leaf_nodes::Node;

mod tallied;

pub use tallied::Tally;

const LABELS: usize = 64;

impl Tally {
    pub fn new() -> Tally
        ensures { tally_of result ≡ tally 0 false false [] }
    {
        Tally {
            nodes: 0,
            over: false,
            early: false,
            known: 0,
            labels: [0; LABELS],
        }
    }

    // A label is mentioned: where it is new it is kept, and a reference to it came early.
    fn mention(&mut self, label: u64, refers: bool)
        ensures { tally_of self.new ≡ mentioned refers label (tally_of self.old) }
    {
        if self.labels[..self.known].contains(&label) {
            return;
        }
        if self.known == LABELS {
            self.over = true;
            return;
        }
        self.labels[self.known] = label;
        self.known += 1;
        self.early |= refers;
    }

    // One more node, which keeps its own number or not, then its label if it has one.
    pub fn step(&mut self, node: Node)
        requires { self.old.nodes + 1 < 2 ^ 64 }
        ensures { (n : rules.Node) → Shown node n → tally_of self.new ≡ stepped (tally_of self.old) n }
    {
        self.nodes += 1;
        self.over |= !within(node);
        match node {
            Node::Ref(label) => self.mention(label, true),
            Node::Def(label) => self.mention(label, false),
            _ => {}
        }
    }
}

// "vectors of 1,024, strings of 4,096 bytes, names of 255 bytes (0 allowed)"
fn within(node: Node) -> bool
    ensures { (n : rules.Node) → Shown node n → result ≡ node_within n }
{
    match node {
        Node::String(n) => n <= 4096,
        Node::Symbol(n) | Node::Ident(_, n) => n <= 255,
        Node::Vector(n) => n <= 1024,
        _ => true,
    }
}

// How many data follow a node.
pub fn following(node: Node) -> usize
    ensures { (n : rules.Node) → Shown node n → result ≡ follow n }
{
    match node {
        Node::Pair => 2,
        Node::Vector(n) => n,
        Node::Def(_) => 1,
        _ => 0,
    }
}

// The data wanted after a node. Each takes a byte, so where more are wanted than bytes are left one more than these says
// the same, and no sum can wrap.
pub fn still_wanted(others: usize, more: usize, left: usize) -> usize
    requires { left + 1 < 2 ^ 64 }
    ensures { result ≡ capped left (more + others) }
{
    more.saturating_add(others).min(left + 1)
}
