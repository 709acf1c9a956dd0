// Runs the state map on stored cases. A case is a line "SLOT STATE", each one digit: the slot of a map of two bytes is given
// the state, Used by marking. The answer is a line: the two bytes, the eight states, the count of set low bits, and
// whether the slot is marked. What the cases are, and their answers, is made by tools/leaf_cases.py.
#![tactic(auto)]

ghost use Rattle.std.specs.Prelude.{◌≡◌, ◌<◌, length};

use leaf_map::State;
use std::io;
use std::io::Write;
use stored_cases::{Gathered, Spaced, digit};

const WIDTH: usize = 4;

// at most so many bytes are read
const INPUT: usize = 4096;

fn change(map: &mut [u8], slot: usize, state: u8)
    requires { length map.old ≡ 2 }
{
    if slot < 8 && state < 4 {
        match State::of_bits(state) {
            State::Used => leaf_map::mark(map, slot),
            other => leaf_map::set(map, slot, other),
        }
    }
}

fn answer(map: &[u8], slot: usize, out: &mut impl Write) -> io::Result<()>
    requires { length map.now ≡ 2 }
{
    write!(out, "{}", Spaced(map))?;
    for s in 0..8 {
        write!(out, "{} ", u8::from(leaf_map::get(map, s)))?;
    }
    writeln!(
        out,
        "{} {}",
        leaf_map::used(map),
        u8::from(leaf_map::is_marked(map, slot))
    )
}

// A byte that is no digit stands for no slot and no state.
fn run(map: &mut [u8], input: &[u8], out: &mut impl Write) -> io::Result<()>
    requires { length map.old ≡ 2 }
{
    for case in input.chunks_exact(WIDTH) {
        let slot = usize::from(digit(case[0], 10).unwrap_or(9));
        change(map, slot, digit(case[2], 10).unwrap_or(9));
        answer(map, slot, out)?;
    }
    Ok(())
}

fn main(rt: HostRuntime) -> io::Result<()> {
    let mut space = [0u8; INPUT];
    let n = whole_input::read_full(&mut rt.reader(), &mut space)?;
    let mut out = Gathered::new(io::writer(&rt));
    let mut map = [0u8; 2];
    run(&mut map, &space[..n], &mut out)?;
    out.flush()
}
