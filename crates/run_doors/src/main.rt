// Runs the doors on stored cases: lent lists are set up, data put, single values changed and put back, and every call is asked
// in between. A case is a line "O IIIII VVVVVVVVVVVVVVVV HEX": what is done, an index, a value, and a datum's bytes, all in hex.
// The answer is a line: what the calls tell, and a sum over the lent lists. Numbers that a call may write are 777 before it.
// What the cases are, and their answers, is made by tools/doors_cases.py.
#![tactic(auto)]

ghost use Rattle.std.specs.Prelude.{◌≡◌, ◌≤◌, length};

use std::io;
use std::io::Write;
use stored_cases::{Gathered, Spaced, number};

// at most so many bytes are read
const INPUT: usize = 262144;

// room for 4,097 slots, 65,537 bytes and 16,385 elements, so that each most can be passed
const WORDS: usize = 32784;

const MAP: usize = 1026;

const BYTES: usize = 65537;

const ELEMENTS: usize = 49156;

const SCRATCH: usize = 32896;

// A line's fields. A datum's digits may be missing.
#[derive(Clone, Copy)]
struct Case<'a> {
    op: u8,
    list: u8,
    at: usize,
    n: u64,
    datum: &'a [u8],
}

impl Case<'_> {
    // None of a line too short, which is left out.
    fn of(line: &[u8]) -> Option<Case<'_>> {
        if line.len() < 24 {
            return None;
        }
        Some(Case {
            op: line[0],
            list: line[6],
            at: number(&line[2..7], 16) as usize,
            n: number(&line[8..24], 16),
            datum: &line[24..],
        })
    }
}

// The lists as they are lent to the calls.
#[derive(Drop)]
struct Lent<'a> {
    words: &'a mut [u64],
    map: &'a mut [u8],
    bytes: &'a mut [u8],
    elems: &'a mut [u64],
    scratch: &'a mut [u64],
}

fn mixed<T: Copy>(list: &[T], start: u64) -> u64
where
    u64: From<T>,
{
    let mut sum = start;
    for n in list {
        sum = sum.rotate_left(7).wrapping_add(u64::from(*n));
    }
    sum
}

impl Lent<'_> {
    // "s": setup with a chunk.
    fn setup(&mut self, chunk: u64, out: &mut impl Write) -> io::Result<()> {
        let told = c_doors::talvongre_setup(self.words, self.map, self.bytes, self.elems, chunk);
        write!(out, "{told} ")
    }

    fn counts(&self, out: &mut impl Write) -> io::Result<()> {
        let mut n = 777;
        let told = c_doors::talvongre_capacity(
            self.words, self.map, self.bytes, self.elems, &mut n,
        );
        write!(out, "{told} {n} ")?;
        n = 777;
        let told = c_doors::talvongre_free(self.words, self.map, self.bytes, self.elems, &mut n);
        write!(out, "{told} {n} ")?;
        n = 777;
        let told = c_doors::talvongre_used(self.words, self.map, self.bytes, self.elems, &mut n);
        write!(out, "{told} {n} ")
    }

    fn text(&self, slot: u64, out: &mut impl Write) -> io::Result<()> {
        let mut place = 777;
        let mut size = 777;
        let told = c_doors::talvongre_text(
            self.words, self.map, self.bytes, self.elems, slot, &mut place, &mut size,
        );
        write!(out, "{told} {place} {size} ")?;
        let text = doors::text(self.words, self.map, self.bytes, self.elems, slot);
        write!(out, "{}", Spaced(text))
    }

    // Puts the datum of these digits; a byte that is no digit counts as 0.
    fn put(&mut self, digits: &[u8], out: &mut impl Write) -> io::Result<()> {
        let mut datum = [0u8; 8192];
        for (byte, pair) in datum.iter_mut().zip(digits.chunks_exact(2)) {
            *byte = (number(pair, 16) % 256) as u8;
        }
        let size = datum.len().min(digits.len() / 2);
        let mut slot = 777;
        let told = c_doors::talvongre_put(
            self.words,
            self.map,
            self.bytes,
            self.elems,
            self.scratch,
            &datum[..size],
            &mut slot,
        );
        write!(out, "{told} {slot} ")
    }

    // "q" asks for every count and the text of a slot, and then puts no datum.
    fn calls(&mut self, case: Case<'_>, out: &mut impl Write) -> io::Result<()> {
        // Kept: letters; an enum of commands is no plainer, since each letter is matched here and nowhere else.
        match case.op {
            b's' => self.setup(case.n, out),
            b'p' => self.put(case.datum, out),
            b'q' => {
                self.counts(out)?;
                self.text(case.n, out)?;
                self.put(case.datum, out)
            }
            _ => Ok(()),
        }
    }

    fn show(&self, out: &mut impl Write) -> io::Result<()> {
        let words = mixed(self.words, 0);
        let bytes = mixed(self.bytes, mixed(self.map, words));
        let all = mixed(self.scratch, mixed(self.elems, bytes));
        writeln!(out, "| {all}")
    }
}

// The lists, and how much of each is lent.
#[derive(Drop)]
struct Room {
    words: [u64; WORDS],
    map: [u8; MAP],
    bytes: [u8; BYTES],
    elems: [u64; ELEMENTS],
    scratch: [u64; SCRATCH],
    lent_words: usize,
    lent_map: usize,
    lent_bytes: usize,
    lent_elems: usize,
    lent_scratch: usize,
}

fn store<T: Copy>(list: &mut [T], at: usize, x: T) {
    if at < list.len() {
        list[at] = x;
    }
}

// So much of a list, or all of it.
fn part<T>(list: &mut [T], size: usize) -> &mut [T] {
    let n = list.len().min(size);
    &mut list[..n]
}

impl Room {
    // "l": how much of a list is lent from now on.
    fn lend(&mut self, list: u8, n: usize) {
        match list {
            b'0' => self.lent_words = n,
            b'1' => self.lent_map = n,
            b'2' => self.lent_bytes = n,
            b'3' => self.lent_elems = n,
            _ => self.lent_scratch = n,
        }
    }

    // "w", "m", "b", "e", "x": one value of a list is changed.
    fn change(&mut self, case: Case<'_>) {
        match case.op {
            b'l' => self.lend(case.list, case.n as usize),
            b'w' => store(&mut self.words, case.at, case.n),
            b'm' => store(&mut self.map, case.at, (case.n % 256) as u8),
            b'b' => store(&mut self.bytes, case.at, (case.n % 256) as u8),
            b'e' => store(&mut self.elems, case.at, case.n),
            b'x' => store(&mut self.scratch, case.at, case.n),
            _ => {}
        }
    }

    fn run(&mut self, case: Case<'_>, out: &mut impl Write) -> io::Result<()> {
        self.change(case);
        let mut lent = Lent {
            words: part(&mut self.words, self.lent_words),
            map: part(&mut self.map, self.lent_map),
            bytes: part(&mut self.bytes, self.lent_bytes),
            elems: part(&mut self.elems, self.lent_elems),
            scratch: part(&mut self.scratch, self.lent_scratch),
        };
        lent.calls(case, out)?;
        lent.show(out)
    }
}

fn run(input: &[u8], out: &mut impl Write) -> io::Result<()> {
    let mut room = Room {
        words: [0; WORDS],
        map: [0; MAP],
        bytes: [0; BYTES],
        elems: [0; ELEMENTS],
        scratch: [0; SCRATCH],
        lent_words: 0,
        lent_map: 0,
        lent_bytes: 0,
        lent_elems: 0,
        lent_scratch: 0,
    };
    for line in input.split_inclusive(|byte| *byte == b'\n') {
        if let Some(case) = Case::of(line) {
            room.run(case, out)?;
        }
    }
    Ok(())
}

fn main(rt: HostRuntime) -> io::Result<()> {
    let mut space = [0u8; INPUT];
    let n = whole_input::read_full(&mut rt.reader(), &mut space)?;
    let mut out = Gathered::new(io::writer(&rt));
    run(&space[..n], &mut out)?;
    out.flush()
}
