// The parts of a put that hold no other datum: scalars, texts and references to labels; and what kind of node a datum
// begins with. Document 01, "Slots and growth".
#![tactic(auto)]

ghost use Rattle.std.specs.Prelude.{◌≡◌, List, ℕ};
ghost use Rattle.rules.specs.Nodes.{Atom, read_node};
ghost use Rattle.rules.specs.Datum.{atom};
ghost use Rattle.rules.specs.Layout.{Rooms};
ghost use Rattle.rules.specs.Put.{Making};
ghost use Rattle.leaf_nodes.specs.Reads.{ReadAs};
ghost use Rattle.heap_atoms.specs.Makings.{head_of, shown_shape};
ghost use Rattle.heap_atoms.specs.Tasks.{AtomTask, AtomDone};

use leaf_cells::Value;
use leaf_nodes::Node;

// A part of a datum that was put: what it gave, the bytes that it took of the lent datum, and how many labels there are now.
#[derive(Clone, Copy)]
pub struct Put<T> {
    pub value: T,
    pub size: usize,
    pub labels: usize,
}

// What a datum begins with.
#[derive(Clone, Copy)]
pub enum Shape {
    Atom,
    Pair,
    Vector(usize),
    Label(u64),
}

pub fn shape_of(datum: &[u8]) -> Shape
    ensures { shown_shape result ≡ head_of (read_node datum.now) }
{
    let Ok(read) = leaf_nodes::read_node(datum) else {
        return Shape::Atom;
    };
    match read.node {
        Node::Pair => Shape::Pair,
        Node::Vector(n) => Shape::Vector(n),
        Node::Def(l) => Shape::Label(l),
        _ => Shape::Atom,
    }
}

fn put_as(value: Value, size: usize, labels: usize) -> Put<Value>
    ensures { result ≡ record { value = value; size = size; labels = labels } }
{
    Put {
        value,
        size,
        labels,
    }
}

// Puts a leaf: "a scalar", a string, a symbol or identifier, or a reference to a label.
pub fn put_atom(
    words: &mut [u64],
    map: &mut [u8],
    bytes: &mut [u8],
    labels: &[u64],
    count: usize,
    datum: &[u8],
) -> Put<Value>
    requires { (r : Rooms) × (f : ℕ) × (m : Making) × (a : Atom) × (rest : List ℕ) × AtomTask r f m a rest count datum.now words.old map.old bytes.old labels.now }
    ensures { (r : Rooms) (f : ℕ) (m : Making) (a : Atom) (rest : List ℕ) → AtomTask r f m a rest count datum.now words.old map.old bytes.old labels.now → AtomDone r m a count result.value result.size result.labels words.new map.new bytes.new }
{
    let Ok(read) = leaf_nodes::read_node(datum) else {
        unreachable!()
    };
    let size = read.size;
    match read.node {
        Node::Plain(v) => put_as(v, size, count),
        Node::String(n) => {
            let from = size - n;
            let s = heap_steps::put_string(words, map, bytes, &datum[from..size]);
            put_as(Value::Slot(s), size, count)
        }
        Node::Symbol(n) => {
            let from = size - n;
            let s = heap_steps::put_symbol(words, map, bytes, &datum[from..size], 0);
            put_as(Value::Slot(s), size, count)
        }
        Node::Ident(scope, n) => {
            let from = size - n;
            let s = heap_steps::put_symbol(words, map, bytes, &datum[from..size], scope);
            put_as(Value::Slot(s), size, count)
        }
        Node::Ref(l) => put_as(
            Value::Slot(heap_labels::slot_of(labels, count, l)),
            size,
            count,
        ),
        Node::Pair | Node::Vector(_) | Node::Def(_) => unreachable!(),
    }
}
