// The parse of a whole sheet. Document 01, "Sheets": "A sheet is key=value lines ending in LF, in this order: `chunk=`,
// `slots=`, the data, `end=`. .. There may be no data." The data's bytes are written one behind the other, and where each
// ends is kept, so that a datum can be taken as a part of those bytes. Of bad text nothing is left: both rooms are zero.
#![tactic(auto)]

ghost use Rattle.std.specs.Prelude.{◌≡◌, ◌+◌, ◌*◌, ◌-◌, ◌≤◌, ◌<◌, length};
ghost use Rattle.sheet_parse.specs.Parsed.{Parsed, place_before, Within, part_of};
ghost use Rattle.sheet_parse.specs.Steps.{HeaderRead, FrontRead, line_told, told_at, LineRead, Roomy, stepped, stepped_ends, finished, finished_ends, NodesRead};

use sheet_nodes::Node;

// A sheet's chunk, slots, and how many data.
#[derive(Clone, Copy)]
pub struct Sheet {
    pub chunk: u64,
    pub slots: u64,
    pub count: usize,
}

// A header line's number, and where the next line begins.
#[derive(Clone, Copy)]
struct Header {
    number: u64,
    next: usize,
}

// Chunk and slots, and where the data begin.
#[derive(Clone, Copy)]
struct Front {
    chunk: u64,
    slots: u64,
    next: usize,
}

// A line of the data: the sheet's last line, or a node and where the next line begins.
#[derive(Clone, Copy)]
enum Reading {
    Last,
    Node(Node, usize),
}

// How many data, and how many bytes they are.
#[derive(Clone, Copy)]
struct Nodes {
    count: usize,
    used: usize,
}

// How far the data are read: the place in the text, the bytes written, where the datum begun begins in them, how many data
// it still wants, and how many data have ended.
#[derive(Clone, Copy)]
struct Progress {
    at: usize,
    used: usize,
    start: usize,
    wants: u64,
    count: usize,
}

impl Progress {
    // One node more: the datum begun ends with it, or wants others.
    fn advance(self, node: Node, next: usize, ends: &mut [u64]) -> Progress
        requires { Roomy self node.size node.follow (length ends.old) }
        ensures { (result ≡ stepped self node.size node.follow next) × (ends.new ≡ stepped_ends ends.old self node.size node.follow) }
    {
        let used = self.used + node.size;
        let wants = self.wants - 1 + node.follow;
        if wants > 0 {
            return Progress {
                at: next,
                used,
                wants,
                ..self
            };
        }
        ends[self.count] = used as u64;
        Progress {
            at: next,
            used,
            start: used,
            wants: 1,
            count: self.count + 1,
        }
    }

    // At the last line a datum begun ends, cut short. The answer is how many data there are.
    fn finish(self, ends: &mut [u64]) -> usize
        requires { self.count < length ends.old }
        ensures { (result ≡ finished self) × (ends.new ≡ finished_ends ends.old self) }
    {
        if self.start == self.used {
            return self.count;
        }
        ends[self.count] = self.used as u64;
        self.count + 1
    }
}

// The line at a place, which is to have the key.
fn header_at(key: &[u8], text: &[u8], from: usize) -> Option<Header>
    ensures { HeaderRead key.now text.now from result }
{
    let end = sheet_keys::line_end(text, from)?;
    let number = sheet_keys::header_line(key, &text[from..end])?;
    Some(Header {
        number,
        next: end + 1,
    })
}

// The first two lines.
fn first_lines(text: &[u8]) -> Option<Front>
    ensures { FrontRead text.now result }
{
    let chunk = header_at(b"chunk=", text, 0)?;
    let slots = header_at(b"slots=", text, chunk.next)?;
    Some(Front {
        chunk: chunk.number,
        slots: slots.number,
        next: slots.next,
    })
}

// A line of the data, of which it is known where the next one begins and whether the text ends there.
fn read_line(line: &[u8], next: usize, ended: bool, out: &mut [u8], used: usize) -> Option<Reading>
    requires { used + 9 + length line.now ≤ length out.old }
    ensures { LineRead out.old used (line_told line.now next ended) out.new result }
{
    if sheet_keys::is_end(line) {
        return if ended { Some(Reading::Last) } else { None };
    }
    let node = sheet_lines::node_line(line, out, used)?;
    Some(Reading::Node(node, next))
}

// The line at a place, its node written out.
fn read_at(text: &[u8], at: usize, out: &mut [u8], used: usize) -> Option<Reading>
    requires { used + 9 + (length text.now - at) ≤ length out.old }
    ensures { LineRead out.old used (told_at text.now at) out.new result }
{
    let end = sheet_keys::line_end(text, at)?;
    let next = end + 1;
    read_line(&text[at..end], next, next == text.len(), out, used)
}

// The lines from a place to the text's end.
fn node_lines(text: &[u8], from: usize, out: &mut [u8], ends: &mut [u64]) -> Option<Nodes>
    requires from_in_bounds { from ≤ length text.now }
    requires text_len_bound { length text.now ≤ 32768 }
    requires text_in_bounds { 2 * length text.now + 9 ≤ length out.old }
    requires text_len_bound_2 { length text.now ≤ 5 * length ends.old }
    ensures { NodesRead text.now from out.old ends.old out.new ends.new result }
{
    let mut p = Progress {
        at: from,
        used: 0,
        start: 0,
        wants: 1,
        count: 0,
    };
    loop {
        match read_at(text, p.at, out, p.used) {
            None => {
                leaf_clear::clear_bytes(out);
                leaf_clear::clear_words(ends);
                return None;
            }
            Some(Reading::Last) => {
                let count = p.finish(ends);
                return Some(Nodes {
                    count,
                    used: p.used,
                });
            }
            Some(Reading::Node(node, next)) => p = p.advance(node, next, ends),
        }
    }
}

// The sheet that a text is.
pub fn parse(text: &[u8], out: &mut [u8], ends: &mut [u64]) -> Option<Sheet>
    requires text_len_bound { length text.now ≤ 32768 }
    requires text_in_bounds { 2 * length text.now + 9 ≤ length out.old }
    requires text_len_bound_2 { length text.now ≤ 5 * length ends.old }
    ensures { Parsed text.now out.old ends.old out.new ends.new result }
{
    let Some(front) = first_lines(text) else {
        leaf_clear::clear_bytes(out);
        leaf_clear::clear_words(ends);
        return None;
    };
    let nodes = node_lines(text, front.next, out, ends)?;
    Some(Sheet {
        chunk: front.chunk,
        slots: front.slots,
        count: nodes.count,
    })
}

// Where a datum begins: where the one before it ends.
fn start_of(ends: &[u64], i: usize) -> usize
    requires { i < length ends.now }
    ensures { result ≡ place_before ends.now i }
{
    if i == 0 { 0 } else { ends[i - 1] as usize }
}

// A datum, as the part of the bytes that holds it.
// Kept: bytes and the places where the data end stand in two lent lists, as no heap is taken and `Parsed` states both, zero of bad text.
pub fn datum<'a>(out: &'a [u8], ends: &[u64], i: usize) -> &'a [u8]
    requires { Within out.now ends.now i }
    ensures { result.now ≡ part_of out.now ends.now i }
{
    let start = start_of(ends, i);
    let end = ends[i] as usize;
    &out[start..end]
}
