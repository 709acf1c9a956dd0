// Runs growth and allocating on stored cases. A case is a line "CCCC LLLL", chunk and lent slots. The answer is a line of
// the sizes that the heap grows to, then "ends" with the size at which growth ends and whether growth reaches that size
// and the lent slots; where at most 24 slots are lent, a second line has all slots in the order in which they are given.
// What the cases are, and their answers, is made by tools/free_cases.py.
#![tactic(auto)]

ghost use Rattle.std.specs.Prelude.{◌≡◌, ◌+◌, ◌*◌, ◌%◌, ◌≤◌, length};
ghost use Rattle.laws.specs.Basics.{zeros};
ghost use Rattle.rules.specs.Layout.{map_bytes};

use std::io;
use std::io::Write;
use stored_cases::{Gathered, number};

// at most so many bytes are read
const INPUT: usize = 4096;

const WIDTH: usize = 10;

const MOST: usize = 24;

fn sizes(chunk: usize, lent: usize, out: &mut impl Write) -> io::Result<()>
    requires le_chunk { 4 ≤ chunk }
    requires chunk_le_lent { chunk ≤ lent }
    requires lent_bound { lent ≤ 4096 }
{
    let mut size = chunk;
    write!(out, "{size} ")?;
    for _ in 0..16u8 {
        let next = leaf_free::grown(chunk, size);
        if next <= lent {
            write!(out, "{next} ")?;
            size = next;
        }
    }
    let end = leaf_free::fitting(chunk, lent, chunk);
    let size_reached = u8::from(leaf_free::reaches(chunk, size));
    let lent_reached = u8::from(leaf_free::reaches(chunk, lent));
    writeln!(out, "ends {end} {size_reached} {lent_reached} ")
}

// Every slot that a heap of these lent slots can give.
fn slots(
    words: &mut [u64],
    map: &mut [u8],
    chunk: usize,
    lent: usize,
    out: &mut impl Write,
) -> io::Result<()>
    requires words_value { words.old ≡ zeros (8 + 8 * lent) }
    requires map_value { map.old ≡ zeros (map_bytes lent) }
    requires le_chunk { 4 ≤ chunk }
    requires chunk_value { chunk % 4 ≡ 0 }
    requires chunk_le_lent { chunk ≤ lent }
    requires lent_bound { lent ≤ 4096 }
{
    leaf_free::fresh(words, chunk);
    let size = leaf_free::fitting(chunk, lent, chunk);
    for _ in 0..size {
        write!(out, "{} ", leaf_free::alloc(words, map))?;
    }
    writeln!(out)
}

fn answer(chunk: usize, lent: usize, out: &mut impl Write) -> io::Result<()> {
    if 4 <= chunk && chunk % 4 == 0 && chunk <= lent && lent <= 4096 {
        sizes(chunk, lent, out)?;
        if lent <= MOST {
            let mut words = [0u64; 200];
            let mut map = [0u8; 6];
            slots(
                &mut words[..8 + 8 * lent],
                &mut map[..(lent + 3) / 4],
                chunk,
                lent,
                out,
            )?;
        }
    }
    Ok(())
}

// The chunk and the lent slots of a case.
fn read(case: &[u8]) -> (usize, usize)
    requires { length case.now ≡ 10 }
{
    (
        number(&case[..4], 10) as usize,
        number(&case[5..9], 10) as usize,
    )
}

fn run(input: &[u8], out: &mut impl Write) -> io::Result<()> {
    for case in input.chunks_exact(WIDTH) {
        let (chunk, lent) = read(case);
        answer(chunk, lent, out)?;
    }
    Ok(())
}

fn main(rt: HostRuntime) -> io::Result<()> {
    let mut space = [0u8; INPUT];
    let n = whole_input::read_full(&mut rt.reader(), &mut space)?;
    let mut out = Gathered::new(io::writer(&rt));
    run(&space[..n], &mut out)?;
    out.flush()
}
