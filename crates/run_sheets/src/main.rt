// Runs stored sheets, one after the other, as the program `sheet` runs one. Standard input has for each sheet a line with its
// length in five digits, then its bytes; a line `---` follows each answer. What the sheets are, and where their answers come
// from (the original Rust, or document 01 for refusals), is in tools/sheet_cases.py.
#![tactic(auto)]

use std::io;
use std::io::{ErrorKind, Read, Write};
use stored_cases::number;

// Fills the room; false where the input ends before.
fn fill(input: &mut impl Read, room: &mut [u8]) -> io::Result<bool> {
    match input.read_exact(room) {
        Ok(()) => Ok(true),
        Err(e) if e.kind() == ErrorKind::UnexpectedEof => Ok(false),
        Err(e) => Err(e),
    }
}

// The next sheet's answer; false where there is none, or its length is past the room.
fn next(input: &mut impl Read, space: &mut [u8], out: &mut impl Write) -> io::Result<bool> {
    let mut line = [0u8; 6];
    if !fill(input, &mut line)? {
        return Ok(false);
    }
    let size = number(&line[..5], 10) as usize;
    if space.len() < size || !fill(input, &mut space[..size])? {
        return Ok(false);
    }
    sheet_answer::answer(&mut space[..size], out)?;
    writeln!(out, "---")?;
    Ok(true)
}

fn main(rt: HostRuntime) -> io::Result<()> {
    let mut input = rt.reader();
    let mut out = io::writer(&rt);
    let mut space = [0u8; 65536];
    for _ in 0..100000u32 {
        if !next(&mut input, &mut space, &mut out)? {
            break;
        }
    }
    out.flush()
}
