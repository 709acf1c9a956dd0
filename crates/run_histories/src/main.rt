// Runs stored histories of calls, one call a line, on one set of lent lists (260 slots, 8,192 bytes, 4,096 elements, and scratch
// for 256 slots). A line is a letter and numbers with a blank before each: "s CHUNK" setup, "p HEX" put of a datum's bytes, "c SLOT
// KIND A B" cell store, "e SLOT INDEX KIND A" element store, "g ROOT ROOT .." collection, "r LENGTH KIND A" read into an output of
// that length, "v KIND A KIND A" eqv, "q KIND A KIND A" equal, "d" the whole heap, "w INDEX NUMBER" a lent word written by hand; "#"
// begins a remark, which is said again. Each answer is as the oracle prints it, but a datum is its bytes in hex. What the histories
// are, and where their answers come from (the original Rust, or document 01 for refusals that it does not have), is in
// tools/history_cases.py.
#![tactic(auto)]

ghost use Rattle.std.specs.Prelude.{◌≡◌, ◌≤◌, length};
ghost use Rattle.leaf_lists.specs.Lists.{lent_of};

use leaf_lists::Lists;
use std::io;
use std::io::Write;
use stored_cases::{Gathered, Hex, digit, unhex};

// at most so many bytes are read
const INPUT: usize = 262144;

// A number of the list; 0 past its end.
fn word(list: &[u64], at: usize) -> u64 {
    list.get(at).copied().unwrap_or(0)
}

// The number that a field's digits write, its low 64 bits; any other byte changes nothing.
fn number(field: &[u8]) -> u64 {
    field.iter().filter_map(|byte| digit(*byte, 10)).fold(
        0,
        |n: u64, d| n.wrapping_mul(10).wrapping_add(u64::from(d)),
    )
}

// The numbers of a line, one for each blank, as far as there is room, and how many they are.
fn numbers(line: &[u8], list: &mut [u64]) -> usize
    ensures { result ≤ length list.new }
{
    let fields = line.split(|byte| *byte == b' ').skip(1);
    for (n, field) in list.iter_mut().zip(fields) {
        *n = number(field);
    }
    let blanks = line.iter().filter(|byte| **byte == b' ').count();
    blanks.min(list.len())
}

// The bytes that a line gives in hex, and how many they are; none where they are bad or too many.
fn bytes_of(line: &[u8], bytes: &mut [u8]) -> usize
    ensures { result ≤ length bytes.new }
{
    if line.len() < 3 {
        return 0;
    }
    let end = line.len() - 1;
    if bytes.len() < end / 2 {
        return 0;
    }
    let n = unhex(&line[2..end], bytes);
    if 2 * n == end - 2 { n } else { 0 }
}

// What a call told that gives no value.
fn tell(told: u32, out: &mut impl Write) -> io::Result<()> {
    match told {
        0 => writeln!(out, "ok"),
        number => writeln!(out, "refused={number}"),
    }
}

fn tell_slot(told: u32, slot: u64, out: &mut impl Write) -> io::Result<()> {
    match told {
        0 => writeln!(out, "slot={slot}"),
        _ => tell(told, out),
    }
}

fn tell_truth(told: u32, truth: u64, out: &mut impl Write) -> io::Result<()> {
    match told {
        0 => writeln!(out, "{}", truth != 0),
        _ => tell(told, out),
    }
}

// Bytes in hex, part by part: a datum can be long, and `Hex` shows each byte by itself.
fn print_hexed(bytes: &[u8], out: &mut impl Write) -> io::Result<()> {
    let mut digits = [0u8; 512];
    for part in bytes.chunks(256) {
        let n = text_numbers::print_hex(part, &mut digits, 0);
        out.write_all(&digits[..n.min(512)])?;
    }
    Ok(())
}

fn tell_datum(told: u32, datum: &[u8], out: &mut impl Write) -> io::Result<()> {
    match told {
        0 => {
            write!(out, "datum=")?;
            print_hexed(datum, out)?;
            writeln!(out)
        }
        _ => tell(told, out),
    }
}

// The lent lists.
#[derive(Drop)]
struct Lent {
    words: [u64; 2088],
    map: [u8; 65],
    bytes: [u8; 8192],
    elems: [u64; 12288],
    scratch: [u64; 2176],
}

impl Lent {
    fn lists(&self) -> Lists<'_>
        ensures { lent_of result ≡ record { words = self.now.words; map = self.now.map; bytes = self.now.bytes; elems = self.now.elems } }
    {
        Lists {
            words: &self.words,
            map: &self.map,
            bytes: &self.bytes,
            elems: &self.elems,
        }
    }

    // "p HEX"
    fn put(&mut self, line: &[u8], out: &mut impl Write) -> io::Result<()> {
        let mut datum = [0u8; 8192];
        let n = bytes_of(line, &mut datum);
        let mut slot = 0;
        let told = c_doors::talvongre_put(
            &mut self.words,
            &mut self.map,
            &mut self.bytes,
            &mut self.elems,
            &mut self.scratch,
            &datum[..n],
            &mut slot,
        );
        tell_slot(told, slot, out)
    }

    // "r LENGTH KIND A": a read into an output of the length that is given, if there is so much room.
    fn read(&mut self, length: u64, kind: u64, a: u64, out: &mut impl Write) -> io::Result<()> {
        let mut datum = [0u8; 16384];
        let room = length.min(16384) as usize;
        let mut size = 0;
        let told = c_doors::talvongre_read(
            &self.words,
            &self.map,
            &self.bytes,
            &self.elems,
            &mut self.scratch,
            &mut datum[..room],
            kind,
            a,
            &mut size,
        );
        let n = size.min(16384) as usize;
        tell_datum(told, &datum[..n], out)
    }

    // "v KIND A KIND A"
    fn eqv(&self, given: [u64; 4], out: &mut impl Write) -> io::Result<()> {
        let [kind, a, kind2, a2] = given;
        let mut truth = 0;
        let told = c_doors::talvongre_eqv(
            &self.words,
            &self.map,
            &self.bytes,
            &self.elems,
            kind,
            a,
            kind2,
            a2,
            &mut truth,
        );
        tell_truth(told, truth, out)
    }

    // "q KIND A KIND A"
    fn equal(&mut self, given: [u64; 4], out: &mut impl Write) -> io::Result<()> {
        let [kind, a, kind2, a2] = given;
        let mut truth = 0;
        let told = c_doors::talvongre_equal(
            &self.words,
            &self.map,
            &self.bytes,
            &self.elems,
            &mut self.scratch,
            kind,
            a,
            kind2,
            a2,
            &mut truth,
        );
        tell_truth(told, truth, out)
    }

    fn capacity(&self) -> usize
        ensures { result ≤ 4096 }
    {
        self.words[1].min(4096) as usize
    }

    // The symbol table's entry that leads to a slot, if there is one.
    fn print_entry(&self, slot: u64, out: &mut impl Write) -> io::Result<()> {
        let entries = self.words[3].min(4096) as usize;
        for i in 0..entries {
            if word(&self.words, 8 * i + 13) == slot {
                let scope = word(&self.words, 8 * i + 14);
                let text = doors::text(&self.words, &self.map, &self.bytes, &self.elems, slot);
                writeln!(out, "entry={scope}:{}:{slot}", Hex(text))?;
            }
        }
        Ok(())
    }

    fn print_entries(&self, out: &mut impl Write) -> io::Result<()> {
        for slot in 0..self.capacity() {
            self.print_entry(slot as u64, out)?;
        }
        Ok(())
    }

    fn print_states(&self, out: &mut impl Write) -> io::Result<()> {
        write!(out, "states=")?;
        for slot in 0..self.capacity() {
            write!(out, "{}", u8::from(leaf_map::get(&self.map, slot)))?;
        }
        writeln!(out)
    }

    // "d": the listing without roots, the symbol table by slot, and each slot's state.
    fn dump(&self, out: &mut impl Write) -> io::Result<()> {
        match heap_sound::checked(self.lists()) {
            Ok(sound) => sheet_answer::print_heap(sound, out)?,
            Err(unsound) => return tell(unsound.number(), out),
        }
        self.print_entries(out)?;
        self.print_states(out)
    }

    // "s CHUNK"
    fn setup(&mut self, chunk: u64) -> u32 {
        c_doors::talvongre_setup(
            &mut self.words,
            &mut self.map,
            &mut self.bytes,
            &mut self.elems,
            chunk,
        )
    }

    // "c SLOT KIND A B"
    fn cell_store(&mut self, given: [u64; 4]) -> u32 {
        let [slot, kind, a, b] = given;
        c_doors::talvongre_cell_store(
            &mut self.words,
            &self.map,
            &self.bytes,
            &self.elems,
            slot,
            kind,
            a,
            b,
        )
    }

    // "e SLOT INDEX KIND A"
    fn element_store(&mut self, given: [u64; 4]) -> u32 {
        let [slot, k, kind, a] = given;
        c_doors::talvongre_element_store(
            &self.words,
            &self.map,
            &self.bytes,
            &mut self.elems,
            slot,
            k,
            kind,
            a,
        )
    }

    // "g ROOT ROOT .."
    fn collect(&mut self, roots: &[u64]) -> u32 {
        c_doors::talvongre_collect(
            &mut self.words,
            &mut self.map,
            &mut self.bytes,
            &mut self.elems,
            &mut self.scratch,
            roots,
        )
    }

    // "w INDEX NUMBER": damage, or its repair; nothing past the lent words.
    fn write_word(&mut self, at: u64, number: u64) {
        if at < 2088 {
            self.words[at as usize] = number;
        }
    }

    // Answers one line.
    fn answer(&mut self, line: &[u8], given: &[u64], out: &mut impl Write) -> io::Result<()>
        requires { 1 ≤ length line.now }
    {
        let first = [
            word(given, 0),
            word(given, 1),
            word(given, 2),
            word(given, 3),
        ];
        // Kept: letters; an enum of commands is no plainer, since each letter is matched here and nowhere else.
        match line[0] {
            b's' => tell(self.setup(first[0]), out),
            b'p' => self.put(line, out),
            b'c' => tell(self.cell_store(first), out),
            b'e' => tell(self.element_store(first), out),
            b'g' => tell(self.collect(given), out),
            b'w' => {
                self.write_word(first[0], first[1]);
                Ok(())
            }
            b'r' => self.read(first[0], first[1], first[2], out),
            b'v' => self.eqv(first, out),
            b'q' => self.equal(first, out),
            b'd' => self.dump(out),
            b'#' => out.write_all(line),
            _ => writeln!(out, "unknown"),
        }
    }
}

// Answers one line after the other.
fn run(input: &[u8], out: &mut impl Write) -> io::Result<()> {
    let mut lent = Lent {
        words: [0; 2088],
        map: [0; 65],
        bytes: [0; 8192],
        elems: [0; 12288],
        scratch: [0; 2176],
    };
    let mut given = [0u64; 256];
    for line in input.split_inclusive(|byte| *byte == b'\n') {
        let n = numbers(line, &mut given);
        lent.answer(line, &given[..n], out)?;
    }
    Ok(())
}

fn main(rt: HostRuntime) -> io::Result<()> {
    let mut space = [0u8; INPUT];
    let n = whole_input::read_full(&mut rt.reader(), &mut space)?;
    let mut out = Gathered::new(io::writer(&rt));
    run(&space[..n], &mut out)?;
    out.flush()
}
