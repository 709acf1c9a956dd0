// Runs the check of a datum on stored cases. A case is a line: the datum's bytes in hex. The answer is a line: `ok`, or
// `refused=` with the refusal's number; for 11 the fault and the node follow. What the cases are, and their answers, is
// made by tools/check_cases.py.
#![tactic(auto)]

use leaf_nodes::Fault;
use refusals::Refusal;
use std::io;
use std::io::Write;
use stored_cases::{Gathered, unhex};

// at most so many bytes are read
const INPUT: usize = 131072;

fn fault_name(fault: Fault) -> &'static str {
    match fault {
        Fault::UnknownKind => "unknown-kind",
        Fault::CutShort => "cut-short",
        Fault::LeftOver => "left-over",
        Fault::BadBool => "bad-bool",
        Fault::BadChar => "bad-char",
        Fault::BadUtf8 => "bad-utf8",
    }
}

fn say(checked: Result<(), Refusal>, out: &mut impl Write) -> io::Result<()> {
    let Err(refusal) = checked else {
        return writeln!(out, "ok");
    };
    write!(out, "refused={}", refusal.number())?;
    if let Refusal::Malformed(fault, node) = refusal {
        write!(out, " {} {node}", fault_name(fault))?;
    }
    writeln!(out)
}

// Answers one case after the other. Each ends in a line's end.
fn run(text: &[u8], bytes: &mut [u8], out: &mut impl Write) -> io::Result<()> {
    let mut rest = text;
    while !rest.is_empty() {
        let n = unhex(rest, bytes);
        say(heap_check::check(&bytes[..n]), out)?;
        let Some((_, after)) = rest[2 * n..].split_first() else {
            return Ok(());
        };
        rest = after;
    }
    Ok(())
}

fn main(rt: HostRuntime) -> io::Result<()> {
    let mut space = [0u8; INPUT];
    let n = whole_input::read_full(&mut rt.reader(), &mut space)?;
    let mut out = Gathered::new(io::writer(&rt));
    let mut bytes = [0u8; 8192];
    run(&space[..n], &mut bytes, &mut out)?;
    out.flush()
}
