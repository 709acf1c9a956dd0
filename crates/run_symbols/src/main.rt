// Runs the symbol table on stored cases. A case is a line "OP XX N C TEXT": what is done, a slot in two hex digits, a scope or
// a number in sixteen, a name's length or a kind in one, and eight bytes of a name or digits of a size. The answer is a
// line: what the call tells, then all words. What the cases are, and their answers, is made by tools/symbol_cases.py.
#![tactic(auto)]

ghost use Rattle.std.specs.Prelude.{true, ◌≡◌, ◌≤◌, length};
ghost use Rattle.leaf_symbols.specs.Table.{bytes_used, Tabled};

use leaf_cells::VCell;
use leaf_map::State;
use std::io;
use std::io::Write;
use stored_cases::{Gathered, Spaced, number};

// at most so many bytes are read
const INPUT: usize = 65536;

const WIDTH: usize = 33;

// eight slots and 64 bytes
const SLOTS: usize = 8;

const WORDS: usize = 72;

const BYTES: usize = 64;

// A case's fields; the text's digits are a size too. There is no name where it is longer than the text.
#[derive(Clone, Copy)]
struct Case<'a> {
    op: u8,
    slot: usize,
    n: u64,
    kind: u64,
    text: &'a [u8],
    name: Option<&'a [u8]>,
}

impl Case<'_> {
    fn of(line: &[u8]) -> Case<'_>
        requires { length line.now ≡ 33 }
    {
        let kind = number(&line[22..23], 16);
        let text = &line[24..32];
        Case {
            op: line[0],
            slot: number(&line[2..4], 16) as usize,
            n: number(&line[5..21], 16),
            kind,
            text,
            name: text.get(..kind as usize),
        }
    }
}

// The lists that the cases change.
#[derive(Drop)]
struct Heap {
    words: [u64; WORDS],
    map: [u8; 2],
    bytes: [u8; BYTES],
}

// The table, its entries' slots and the bytes in use are within the rooms.
fn fits(words: &[u64]) -> bool
    requires { length words.now ≡ 72 }
    ensures { result ≡ true → Tabled words.now × (bytes_used words.now ≤ 64) }
{
    if words[3] > 8 || words[4] > 64 {
        return false;
    }
    for i in 0..words[3] as usize {
        if words[8 + 8 * i + 5] >= 8 {
            return false;
        }
    }
    true
}

impl Heap {
    fn find(&self, name: &[u8], scope: u64, out: &mut impl Write) -> io::Result<()> {
        if fits(&self.words) {
            match leaf_find::find(&self.words, &self.bytes, name, scope) {
                Some(slot) => write!(out, "{slot} ")?,
                None => write!(out, "missing ")?,
            }
        }
        Ok(())
    }

    fn name_is(&self, slot: usize, name: &[u8], out: &mut impl Write) -> io::Result<()> {
        if slot < SLOTS && self.words[4] <= 64 {
            let is = leaf_find::name_is(&self.words, &self.bytes, slot, name);
            write!(out, "{} ", u8::from(is))?;
        }
        Ok(())
    }

    fn store(&mut self, slot: usize, cell: VCell) {
        if slot < SLOTS {
            leaf_cells::store(&mut self.words, slot, cell);
        }
    }

    fn set_state(&mut self, slot: usize, state: State) {
        if slot < SLOTS {
            leaf_map::set(&mut self.map, slot, state);
        }
    }

    // A symbol of this name in the slot.
    fn name_slot(&mut self, slot: usize, name: &[u8]) {
        let used = self.words[4] as usize;
        if used <= BYTES && name.len() <= BYTES - used {
            let place = leaf_rooms::append_text(&mut self.words, &mut self.bytes, name);
            self.store(slot, VCell::Symbol(place, name.len()));
        }
    }

    fn add(&mut self, slot: usize, scope: u64) {
        if self.words[3] < 8 {
            leaf_symbols::add(&mut self.words, slot, scope);
        }
    }

    fn drop_freed(&mut self) {
        if self.words[3] <= 8 {
            leaf_symbols::drop_freed(&mut self.words, &self.map);
        }
    }

    fn run(&mut self, case: Case<'_>, out: &mut impl Write) -> io::Result<()> {
        // Kept: letters; an enum of commands is no plainer, since each letter is matched here and nowhere else.
        match (case.op, case.name) {
            (b'a', name) => {
                if let Some(name) = name {
                    self.name_slot(case.slot, name);
                }
                self.set_state(case.slot, State::Allocated);
                self.add(case.slot, case.n);
            }
            (b'x', _) => {
                self.set_state(case.slot, State::Free);
                self.store(case.slot, VCell::Undefined);
            }
            (b'c', _) => {
                let cell = leaf_cells::cell_from(case.kind, case.n, number(case.text, 16));
                self.store(case.slot, cell);
            }
            (b'd', _) => self.drop_freed(),
            (b'u', _) => self.words[4] = case.n,
            (b'f', Some(name)) => self.find(name, case.n, out)?,
            (b'n', Some(name)) => self.name_is(case.slot, name, out)?,
            _ => {}
        }
        writeln!(out, "| {}", Spaced(&self.words))
    }
}

fn run(input: &[u8], out: &mut impl Write) -> io::Result<()> {
    let mut heap = Heap {
        words: [0; WORDS],
        map: [0; 2],
        bytes: [0; BYTES],
    };
    for line in input.chunks_exact(WIDTH) {
        heap.run(Case::of(line), out)?;
    }
    Ok(())
}

fn main(rt: HostRuntime) -> io::Result<()> {
    let mut space = [0u8; INPUT];
    let n = whole_input::read_full(&mut rt.reader(), &mut space)?;
    let mut out = Gathered::new(io::writer(&rt));
    run(&space[..n], &mut out)?;
    out.flush()
}
