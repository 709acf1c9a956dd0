// Runs the order of names on stored cases. A case is a list of entries, at most 512 and 16,384 bytes of names, and a dot: an
// entry is its name's bytes in hex, each with a space after it, then its scope in hex and a semicolon. The answer: for each two
// neighbours as given how the first's name stands to the second's (`<`, `=` or `>`) and whether the two are the same; then the
// entries in order, a line each, name in hex and scope in decimal; then whether no two share a key. What the cases are, and
// their answers, is made by tools/name_cases.py.
#![tactic(auto)]

ghost use Rattle.std.specs.Prelude.{◌≤◌, length};

use leaf_names::Key;
use std::cmp::Ordering;
use std::io;
use std::io::Write;
use stored_cases::{Gathered, Hex, digit};

// at most so many bytes are read
const INPUT: usize = 65536;

const ENTRIES: usize = 512;

const NAMES: usize = 16384;

// Lists the entries in the order given, and says how many they are.
fn list(order: &mut [usize], entries: usize) -> usize
    ensures { result ≤ length order.new }
{
    let n = entries.min(order.len());
    for e in 0..n {
        order[e] = e;
    }
    n
}

fn sign(order: Ordering) -> char {
    match order {
        Ordering::Less => '<',
        Ordering::Equal => '=',
        Ordering::Greater => '>',
    }
}

// How the names of neighbours stand to each other.
fn say_pairs(order: &[usize], keys: &[Key], bytes: &[u8], out: &mut impl Write) -> io::Result<()> {
    for pair in order.windows(2) {
        let first = leaf_names::key_at(keys, pair[0]);
        let second = leaf_names::key_at(keys, pair[1]);
        let a = first.name(bytes);
        let b = second.name(bytes);
        let sign = sign(a.cmp(&b));
        write!(out, "{sign}{}", u8::from(leaf_names::same(a, b)))?;
    }
    writeln!(out)
}

// The entries' keys in the list's order.
fn say_keys(order: &[usize], keys: &[Key], bytes: &[u8], out: &mut impl Write) -> io::Result<()> {
    for e in order {
        let key = leaf_names::key_at(keys, *e);
        writeln!(out, "{} {}", Hex(key.name(bytes)), key.scope)?;
    }
    Ok(())
}

// Says how the entries stand as given, and then sorted.
fn answer(order: &mut [usize], keys: &[Key], bytes: &[u8], out: &mut impl Write) -> io::Result<()> {
    say_pairs(order, keys, bytes, out)?;
    leaf_sort::sort(order, keys, bytes);
    say_keys(order, keys, bytes, out)?;
    writeln!(out, "{}", u8::from(leaf_sort::distinct(order, keys, bytes)))
}

// What was read of a case: the whole entries, the bytes of their names and of the one begun, where that one begins, and the hex
// digits since the last space or semicolon.
#[derive(Drop)]
struct Reading {
    keys: [Key; ENTRIES],
    bytes: [u8; NAMES],
    entries: usize,
    used: usize,
    place: usize,
    value: u64,
}

impl Reading {
    // One more byte of a name, if there is room.
    fn more_name(&mut self) {
        let used = self.used;
        if used < NAMES {
            self.bytes[used] = (self.value % 256) as u8;
            self.used = used + 1;
            self.value = 0;
        }
    }

    // One more entry, if there is room.
    fn more_entries(&mut self) {
        let e = self.entries;
        let place = self.place;
        if e < ENTRIES && place <= self.used {
            let size = self.used - place;
            let scope = self.value;
            self.keys[e] = Key { place, size, scope };
            self.entries = e + 1;
            self.place = self.used;
            self.value = 0;
        }
    }

    // One more digit; eight are kept.
    fn more_value(&mut self, d: u8) {
        self.value = self.value % 0x1000_0000 * 16 + u64::from(d);
    }

    // Answers the case that was read, and begins the next.
    fn answer(&mut self, out: &mut impl Write) -> io::Result<()> {
        let mut order = [0; ENTRIES];
        let n = list(&mut order, self.entries);
        answer(&mut order[..n], &self.keys, &self.bytes, out)?;
        self.entries = 0;
        self.used = 0;
        self.place = 0;
        self.value = 0;
        Ok(())
    }

    // Takes one byte of the text; any other is left out.
    fn take(&mut self, byte: u8, out: &mut impl Write) -> io::Result<()> {
        match byte {
            b' ' => self.more_name(),
            b';' => self.more_entries(),
            b'.' => self.answer(out)?,
            _ => {
                if let Some(d) = digit(byte, 16) {
                    self.more_value(d);
                }
            }
        }
        Ok(())
    }
}

fn run(text: &[u8], out: &mut impl Write) -> io::Result<()> {
    let mut reading = Reading {
        keys: [Key::default(); ENTRIES],
        bytes: [0; NAMES],
        entries: 0,
        used: 0,
        place: 0,
        value: 0,
    };
    for byte in text {
        reading.take(*byte, out)?;
    }
    Ok(())
}

fn main(rt: HostRuntime) -> io::Result<()> {
    let mut space = [0u8; INPUT];
    let n = whole_input::read_full(&mut rt.reader(), &mut space)?;
    let mut out = Gathered::new(io::writer(&rt));
    run(&space[..n], &mut out)?;
    out.flush()
}
