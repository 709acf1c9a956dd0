// Runs cells, elements, texts and blocks on stored cases. A case is a line "OP XX K A B" in hex digits: what is done, a slot,
// an index or a length, a kind, and two words of 16 digits. The answer is a line: what the call tells, then all words,
// bytes and elements. What the cases are, and their answers, is made by tools/leaf_cases.py.
#![tactic(auto)]

ghost use Rattle.std.specs.Prelude.{◌≡◌, length};

use leaf_cells::Words;
use leaf_map::State;
use std::io;
use std::io::Write;
use stored_cases::{Gathered, Spaced, number};

// at most so many bytes are read
const INPUT: usize = 65536;

const WIDTH: usize = 41;

// four slots, sixteen bytes, four elements
const SLOTS: usize = 4;

const WORDS: usize = 40;

const BYTES: usize = 16;

const ELEMENTS: usize = 4;

// A case's fields; the first word's digits are a text too.
#[derive(Clone, Copy)]
struct Case<'a> {
    op: u8,
    at: usize,
    kind: u64,
    text: &'a [u8],
    first: u64,
    second: u64,
}

impl Case<'_> {
    fn of(line: &[u8]) -> Case<'_>
        requires { length line.now ≡ 41 }
    {
        let text = &line[7..23];
        Case {
            op: line[0],
            at: number(&line[2..4], 16) as usize,
            kind: number(&line[5..6], 16),
            text,
            first: number(text, 16),
            second: number(&line[24..40], 16),
        }
    }
}

// The lists that the cases change.
#[derive(Drop)]
struct Heap {
    words: [u64; WORDS],
    map: [u8; 1],
    bytes: [u8; BYTES],
    elems: [u64; 3 * ELEMENTS],
}

fn print_three(w: Words, out: &mut impl Write) -> io::Result<()> {
    write!(out, "{} {} {} ", w.kind, w.first, w.second)
}

impl Heap {
    fn store_cell(&mut self, slot: usize, w: Words, out: &mut impl Write) -> io::Result<()> {
        if slot < SLOTS {
            let new = leaf_cells::cell_from(w.kind, w.first, w.second);
            let change = leaf_cells::store(&mut self.words, slot, new);
            print_three(leaf_cells::cell_words(change.old), out)?;
            print_three(
                leaf_cells::cell_words(leaf_cells::load(&self.words, slot)),
                out,
            )?;
        }
        Ok(())
    }

    fn store_element(&mut self, at: usize, w: Words, out: &mut impl Write) -> io::Result<()> {
        if at < ELEMENTS {
            let new = leaf_cells::value_from(w.kind, w.first);
            let change = leaf_cells::store_element(&mut self.elems, at, new);
            print_three(leaf_cells::value_words(change.old), out)?;
            print_three(
                leaf_cells::value_words(leaf_cells::load_element(&self.elems, at)),
                out,
            )?;
        }
        Ok(())
    }

    fn store_header(&mut self, k: usize, n: u64) {
        if k < 8 {
            self.words[k] = n;
        }
    }

    fn store_state(&mut self, slot: usize, state: u8) {
        if slot < SLOTS && state < 4 {
            leaf_map::set(&mut self.map, slot, State::of_bits(state));
        }
    }

    fn look_up(&self, slot: usize, out: &mut impl Write) -> io::Result<()> {
        if self.words[1] <= 4 {
            match leaf_cells::look_up(&self.words, &self.map, slot) {
                Some(c) => print_three(leaf_cells::cell_words(c), out)?,
                None => write!(out, "not in use ")?,
            }
        }
        Ok(())
    }

    fn text(&self, place: usize, size: usize, out: &mut impl Write) -> io::Result<()> {
        if place <= BYTES && size <= BYTES - place {
            write!(
                out,
                "{}",
                Spaced(leaf_rooms::text(&self.bytes, place, size))
            )?;
        }
        Ok(())
    }

    fn append(&mut self, text: &[u8], out: &mut impl Write) -> io::Result<()> {
        let used = self.words[4] as usize;
        if used <= BYTES && text.len() <= BYTES - used {
            let place = leaf_rooms::append_text(&mut self.words, &mut self.bytes, text);
            write!(out, "{place} ")
        } else {
            write!(out, "no room ")
        }
    }

    fn reserve(&mut self, n: usize, out: &mut impl Write) -> io::Result<()> {
        let used = self.words[5] as usize;
        if used <= ELEMENTS && n <= ELEMENTS - used {
            let place = leaf_rooms::reserve_elements(&mut self.words, n);
            write!(out, "{place} ")
        } else {
            write!(out, "no room ")
        }
    }

    fn run(&mut self, case: Case<'_>, out: &mut impl Write) -> io::Result<()> {
        let w = Words {
            kind: case.kind,
            first: case.first,
            second: case.second,
        };
        // Kept: letters; an enum of commands is no plainer, since each letter is matched here and nowhere else.
        match case.op {
            b'c' => self.store_cell(case.at, w, out)?,
            b'e' => self.store_element(case.at, w, out)?,
            b'h' => self.store_header(case.at, case.first),
            b'm' => self.store_state(case.at, (case.kind % 4) as u8),
            b'l' => self.look_up(case.at, out)?,
            b't' => self.text(case.first as usize, case.second as usize, out)?,
            b'a' => {
                if let Some(text) = case.text.get(..case.at) {
                    self.append(text, out)?;
                }
            }
            b'r' => self.reserve(case.at, out)?,
            _ => {}
        }
        Ok(())
    }

    fn show(&self, out: &mut impl Write) -> io::Result<()> {
        write!(out, "| {}", Spaced(&self.words))?;
        write!(out, "{}", Spaced(&self.bytes))?;
        writeln!(out, "{}", Spaced(&self.elems))
    }
}

fn run(input: &[u8], out: &mut impl Write) -> io::Result<()> {
    let mut heap = Heap {
        words: [0; WORDS],
        map: [0; 1],
        bytes: [0; BYTES],
        elems: [0; 3 * ELEMENTS],
    };
    for line in input.chunks_exact(WIDTH) {
        heap.run(Case::of(line), out)?;
        heap.show(out)?;
    }
    Ok(())
}

fn main(rt: HostRuntime) -> io::Result<()> {
    let mut space = [0u8; INPUT];
    let n = whole_input::read_full(&mut rt.reader(), &mut space)?;
    let mut out = Gathered::new(io::writer(&rt));
    run(&space[..n], &mut out)?;
    out.flush()
}
