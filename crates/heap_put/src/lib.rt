// Putting a datum (heap.rs: put_cell, maybe_put_cell). Document 01, "Slots and growth": "a pair puts car, then cdr, then
// itself, every car and cdr in a slot. Vector elements that are scalars stay in the vector; others take slots, in order,
// before the vector does." "A label definition takes a slot first, puts the inner datum .., and copies the resulting cell
// into that slot."
//
// The put of a datum calls those of a pair, a vector and a label, which call it back; what is left of the datum falls. It
// is done only where all of it is known to fit, so nothing here refuses.
#![tactic(auto)]

ghost use Rattle.std.specs.Prelude.{◌≡◌, List, ℕ};
ghost use Rattle.rules.specs.Datum.{Datum, Data, pair, vector, def, how_many};
ghost use Rattle.rules.specs.Layout.{Rooms};
ghost use Rattle.rules.specs.Put.{Making};
ghost use Rattle.leaf_lists.specs.Lists.{SameLists};
ghost use Rattle.heap_atoms.specs.Tasks.{Task, Done, SlotTask, SlotDone, ElementTask, ElementDone, AllTask, AllDone};

use heap_atoms::{Put, Shape};
use leaf_cells::{VCell, Value};
use leaf_lists::ListsMut;

// Puts the datum at the start of what is lent.
#[cycle(putting)]
pub fn put_datum(
    heap: &mut ListsMut<'_>,
    labels: &mut [u64],
    count: usize,
    datum: &[u8],
) -> Put<Value>
    requires { (r : Rooms) × (f : ℕ) × (m : Making) × (t : Datum) × (rest : List ℕ) × Task r f m t rest count datum.now heap.old.words.now heap.old.map.now heap.old.bytes.now heap.old.elems.now labels.old }
    ensures same { SameLists heap.old heap.new }
    ensures done { (r : Rooms) (f : ℕ) (m : Making) (t : Datum) (rest : List ℕ) → Task r f m t rest count datum.now heap.old.words.now heap.old.map.now heap.old.bytes.now heap.old.elems.now labels.old → Done r m t result.value result.size result.labels heap.new.words.now heap.new.map.now heap.new.bytes.now heap.new.elems.now labels.new }
{
    match heap_atoms::shape_of(datum) {
        Shape::Atom => heap_atoms::put_atom(heap.words, heap.map, heap.bytes, labels, count, datum),
        Shape::Pair => put_pair(heap, labels, count, datum),
        Shape::Vector(n) => put_vector(heap, labels, count, datum, n),
        Shape::Label(l) => put_label(heap, labels, count, datum, l),
    }
}

// Puts the datum at the start of what is lent, in a slot.
#[cycle(putting)]
pub fn put_in_slot(
    heap: &mut ListsMut<'_>,
    labels: &mut [u64],
    count: usize,
    datum: &[u8],
) -> Put<usize>
    requires { (r : Rooms) × (f : ℕ) × (m : Making) × (t : Datum) × (rest : List ℕ) × SlotTask r f m t rest count datum.now heap.old.words.now heap.old.map.now heap.old.bytes.now heap.old.elems.now labels.old }
    ensures same { SameLists heap.old heap.new }
    ensures done { (r : Rooms) (f : ℕ) (m : Making) (t : Datum) (rest : List ℕ) → SlotTask r f m t rest count datum.now heap.old.words.now heap.old.map.now heap.old.bytes.now heap.old.elems.now labels.old → SlotDone r m t result.value result.size result.labels heap.new.words.now heap.new.map.now heap.new.bytes.now heap.new.elems.now labels.new }
{
    let p = put_datum(heap, labels, count, datum);
    Put {
        value: heap_steps::in_slot(heap.words, heap.map, p.value),
        size: p.size,
        labels: p.labels,
    }
}

// "a pair puts car, then cdr, then itself": what is left of the datum after the car is handed on as a part to the cdr's.
#[cycle(putting)]
fn put_pair(heap: &mut ListsMut<'_>, labels: &mut [u64], count: usize, datum: &[u8]) -> Put<Value>
    requires { (r : Rooms) × (f : ℕ) × (m : Making) × (a : Datum) × (d : Datum) × (rest : List ℕ) × Task r f m (pair a d) rest count datum.now heap.old.words.now heap.old.map.now heap.old.bytes.now heap.old.elems.now labels.old }
    ensures same { SameLists heap.old heap.new }
    ensures done { (r : Rooms) (f : ℕ) (m : Making) (a : Datum) (d : Datum) (rest : List ℕ) → Task r f m (pair a d) rest count datum.now heap.old.words.now heap.old.map.now heap.old.bytes.now heap.old.elems.now labels.old → Done r m (pair a d) result.value result.size result.labels heap.new.words.now heap.new.map.now heap.new.bytes.now heap.new.elems.now labels.new }
{
    let car = put_in_slot(heap, labels, count, &datum[1..]);
    let next = 1 + car.size;
    let cdr = put_in_slot(heap, labels, car.labels, &datum[next..]);
    let s = heap_steps::new_cell(heap.words, heap.map, VCell::Pair(car.value, cdr.value));
    Put {
        value: Value::Slot(s),
        size: next + cdr.size,
        labels: cdr.labels,
    }
}

// The block first, the elements in order, then the vector's slot.
#[cycle(putting)]
fn put_vector(
    heap: &mut ListsMut<'_>,
    labels: &mut [u64],
    count: usize,
    datum: &[u8],
    n: usize,
) -> Put<Value>
    requires { (r : Rooms) × (f : ℕ) × (m : Making) × (ds : Data) × (rest : List ℕ) × (e : n ≡ how_many ds) × Task r f m (vector ds) rest count datum.now heap.old.words.now heap.old.map.now heap.old.bytes.now heap.old.elems.now labels.old }
    ensures same { SameLists heap.old heap.new }
    ensures done { (r : Rooms) (f : ℕ) (m : Making) (ds : Data) (rest : List ℕ) (e : n ≡ how_many ds) → Task r f m (vector ds) rest count datum.now heap.old.words.now heap.old.map.now heap.old.bytes.now heap.old.elems.now labels.old → Done r m (vector ds) result.value result.size result.labels heap.new.words.now heap.new.map.now heap.new.bytes.now heap.new.elems.now labels.new }
{
    let place = leaf_rooms::reserve_elements(heap.words, n);
    let done = put_elements(heap, labels, count, &datum[5..], place, n);
    let s = heap_steps::new_cell(heap.words, heap.map, VCell::Vector(place, n));
    Put {
        value: Value::Slot(s),
        size: 5 + done.size,
        labels: done.labels,
    }
}

// Puts n data as the elements from a place on. No value is left to give: they stand in the elements.
#[cycle(putting)]
fn put_elements(
    heap: &mut ListsMut<'_>,
    labels: &mut [u64],
    count: usize,
    datum: &[u8],
    place: usize,
    n: usize,
) -> Put<()>
    requires { (r : Rooms) × (f : ℕ) × (m : Making) × (ds : Data) × (rest : List ℕ) × AllTask r f m ds rest place n count datum.now heap.old.words.now heap.old.map.now heap.old.bytes.now heap.old.elems.now labels.old }
    ensures same { SameLists heap.old heap.new }
    ensures done { (r : Rooms) (f : ℕ) (m : Making) (ds : Data) (rest : List ℕ) → AllTask r f m ds rest place n count datum.now heap.old.words.now heap.old.map.now heap.old.bytes.now heap.old.elems.now labels.old → AllDone r m ds place result.size result.labels heap.new.words.now heap.new.map.now heap.new.bytes.now heap.new.elems.now labels.new }
{
    let mut at = 0;
    let mut known = count;
    for i in 0..n {
        let p = put_element(heap, labels, known, &datum[at..], place + i);
        at += p.size;
        known = p.labels;
    }
    Put {
        value: (),
        size: at,
        labels: known,
    }
}

// Puts a datum as the element at a place.
#[cycle(putting)]
fn put_element(
    heap: &mut ListsMut<'_>,
    labels: &mut [u64],
    count: usize,
    datum: &[u8],
    place: usize,
) -> Put<()>
    requires { (r : Rooms) × (f : ℕ) × (m : Making) × (t : Datum) × (rest : List ℕ) × ElementTask r f m t rest place count datum.now heap.old.words.now heap.old.map.now heap.old.bytes.now heap.old.elems.now labels.old }
    ensures same { SameLists heap.old heap.new }
    ensures done { (r : Rooms) (f : ℕ) (m : Making) (t : Datum) (rest : List ℕ) → ElementTask r f m t rest place count datum.now heap.old.words.now heap.old.map.now heap.old.bytes.now heap.old.elems.now labels.old → ElementDone r m t place result.size result.labels heap.new.words.now heap.new.map.now heap.new.bytes.now heap.new.elems.now labels.new }
{
    let p = put_datum(heap, labels, count, datum);
    leaf_cells::store_element(heap.elems, place, p.value);
    Put {
        value: (),
        size: p.size,
        labels: p.labels,
    }
}

// A slot first, then the inner datum, whose cell is copied into that slot as it stands then.
#[cycle(putting)]
fn put_label(
    heap: &mut ListsMut<'_>,
    labels: &mut [u64],
    count: usize,
    datum: &[u8],
    l: u64,
) -> Put<Value>
    requires { (r : Rooms) × (f : ℕ) × (m : Making) × (d : Datum) × (rest : List ℕ) × Task r f m (def l d) rest count datum.now heap.old.words.now heap.old.map.now heap.old.bytes.now heap.old.elems.now labels.old }
    ensures same { SameLists heap.old heap.new }
    ensures done { (r : Rooms) (f : ℕ) (m : Making) (d : Datum) (rest : List ℕ) → Task r f m (def l d) rest count datum.now heap.old.words.now heap.old.map.now heap.old.bytes.now heap.old.elems.now labels.old → Done r m (def l d) result.value result.size result.labels heap.new.words.now heap.new.map.now heap.new.bytes.now heap.new.elems.now labels.new }
{
    let slot = leaf_free::alloc(heap.words, heap.map);
    let known = heap_labels::define(labels, count, l, slot);
    let p = put_datum(heap, labels, known, &datum[5..]);
    heap_steps::copy_cell(heap.words, slot, p.value);
    Put {
        value: Value::Slot(slot),
        size: 5 + p.size,
        labels: p.labels,
    }
}
