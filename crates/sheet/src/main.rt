// The program `sheet`: one sheet from standard input, its answer on standard output. Document 01, "Sheets". One byte more
// than 32 KiB is read, which is enough to know that there are more.
#![tactic(auto)]

use std::io;
use std::io::Write;

const INPUT: usize = 32769;

fn main(rt: HostRuntime) -> io::Result<()> {
    let mut space = [0u8; INPUT];
    let n = whole_input::read_full(&mut rt.reader(), &mut space)?;
    let mut out = io::writer(&rt);
    sheet_answer::answer(&space[..n], &mut out)?;
    out.flush()
}
