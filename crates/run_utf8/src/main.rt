// Runs the UTF-8 check on stored cases. A case is a line of bytes in hex, or `u` and a code point in four such bytes, highest
// first. The answer is a line: 1 where the bytes are UTF-8, or the code point a scalar value, and else 0. What the cases
// are, and their answers, is made by tools/leaf_cases.py.
#![tactic(auto)]

ghost use Rattle.std.specs.Prelude.{◌*◌, ◌≤◌, length};

use std::io;
use std::io::Write;
use stored_cases::{Gathered, unhex};

// at most so many bytes are read
const INPUT: usize = 65536;

// The answer to the case that the text begins with, and how many bytes of it that was.
fn answer(text: &[u8], bytes: &mut [u8]) -> (bool, usize)
    requires { 4 ≤ length bytes.old }
    ensures { result.1 ≤ length text.now }
{
    if let Some(code_point) = text.strip_prefix(b"u") {
        let n = unhex(code_point, bytes);
        let number = u32::from_be_bytes([bytes[0], bytes[1], bytes[2], bytes[3]]);
        (leaf_utf8::is_scalar_value(u64::from(number)), 1 + 2 * n)
    } else {
        let n = unhex(text, bytes);
        (leaf_utf8::is_utf8(&bytes[..n]), 2 * n)
    }
}

// Answers one case after the other. Each ends in a line's end.
fn run(text: &[u8], bytes: &mut [u8], out: &mut impl Write) -> io::Result<()>
    requires { 4 ≤ length bytes.old }
{
    let mut rest = text;
    while !rest.is_empty() {
        let (yes, n) = answer(rest, bytes);
        writeln!(out, "{}", u8::from(yes))?;
        let Some((_, after)) = rest[n..].split_first() else {
            return Ok(());
        };
        rest = after;
    }
    Ok(())
}

fn main(rt: HostRuntime) -> io::Result<()> {
    let mut space = [0u8; INPUT];
    let n = whole_input::read_full(&mut rt.reader(), &mut space)?;
    let mut out = Gathered::new(io::writer(&rt));
    let mut bytes = [0u8; 64];
    run(&space[..n], &mut bytes, &mut out)?;
    out.flush()
}
