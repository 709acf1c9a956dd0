// Sweeping (gc.rs, heap.rs: sweep, free). Document 01, "Slots and growth": "It frees, in rising order, what is not reached,
// writes Undefined there, and puts each on top of the list." "A swept symbol leaves the table." Before it what is reached was
// marked Used; afterwards every slot is Free or Allocated.
#![tactic(auto)]

ghost use Rattle.std.specs.Prelude.{◌≡◌};
ghost use Rattle.heap_sweep.specs.Sweeps.{swept, sweep_slot, sweep_all, sweep_dropped, CanSlot, CanSweep, CanDrop};

use leaf_cells::VCell;
use leaf_map::State;

// One slot: a marked one is Allocated again, another that is Allocated is freed.
fn sweep_slot(words: &mut [u64], map: &mut [u8], slot: usize)
    requires { CanSlot words.old map.old slot }
    ensures { swept words.new map.new ≡ sweep_slot slot (swept words.old map.old) }
{
    match leaf_map::get(map, slot) {
        State::Used => leaf_map::set(map, slot, State::Allocated),
        State::Allocated => {
            leaf_map::set(map, slot, State::Free);
            leaf_free::push(words, slot);
            leaf_cells::store(words, slot, VCell::Undefined);
        }
        State::Free | State::Three => {}
    }
}

// Every slot, in rising order.
fn sweep_slots(words: &mut [u64], map: &mut [u8])
    requires { CanSweep words.old map.old }
    ensures { swept words.new map.new ≡ sweep_all (swept words.old map.old) }
{
    let capacity = words[1] as usize;
    for slot in 0..capacity {
        sweep_slot(words, map, slot);
    }
}

// Frees what is not marked, and drops the table's entries of what was freed.
pub fn sweep(words: &mut [u64], map: &mut [u8])
    requires { CanDrop words.old map.old }
    ensures { swept words.new map.new ≡ sweep_dropped (swept words.old map.old) }
{
    sweep_slots(words, map);
    leaf_symbols::drop_freed(words, map);
}
