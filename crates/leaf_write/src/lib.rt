// Nodes of a datum written into the lent output, as far as it reaches (heap.rs: build_cell_body). Document 01, "Reading back",
// and "A datum: 4,096 nodes".
//
// A write past the output's end is left out, so that lending an empty part counts the bytes and writes none: that is how a
// read finds 12 and 18 before a byte is written.
#![tactic(auto)]

ghost use Rattle.std.specs.Prelude.{◌≡◌, ◌∷◌, ◌≤◌, length, set};
ghost use Rattle.laws.specs.Basics.{little};
ghost use Rattle.rules.specs.Cells.{Scalar};
ghost use Rattle.rules.specs.Layout.{scalar_words};
ghost use Rattle.rules.specs.Nodes.{write_text, write_scalar};
ghost use Rattle.leaf_cells.specs.Words.{three};
ghost use Rattle.leaf_rooms.specs.Rooms.{stored};
ghost use Rattle.leaf_write.specs.Pages.{Noted};

use leaf_cells::Words;

// How far a datum is written: the nodes that may still be written, and the bytes so far.
#[derive(Clone, Copy)]
pub struct Page {
    pub left: usize,
    pub at: usize,
}

// Bytes, as many as the output has places for.
fn put_bytes(out: &mut [u8], at: usize, bytes: &[u8])
    ensures { out.new ≡ stored out.old at bytes.now }
{
    if at < out.len() {
        let n = bytes.len().min(out.len() - at);
        leaf_rooms::write(out, at, &bytes[..n]);
    }
}

// A byte, where the output has a place for it.
fn put_byte(out: &mut [u8], at: usize, b: u8)
    ensures { out.new ≡ set out.old at b }
{
    if at < out.len() {
        out[at] = b;
    }
}

// The w lowest bytes of a number, lowest first.
// Kept: one by one, as is a kind: copied as a part of all eight, they took a tenth more stack of a deep read.
fn put_little(out: &mut [u8], at: usize, w: usize, n: u64)
    requires { (at ≤ 4294967296) × (w ≤ 8) }
    ensures { out.new ≡ stored out.old at (little w n) }
{
    let mut m = n;
    for i in 0..w {
        put_byte(out, at + i, (m % 256) as u8);
        m /= 256;
    }
}

// A node that is a kind and a number in w bytes; none where no node is left.
//
// Kept: a kind is a number, since it is a byte of the datum that C lends and is lent (the C interface; rules' Nodes numbers it).
pub fn field(out: &mut [u8], kind: u8, w: usize, n: u64, p: Page) -> Option<Page>
    requires { (p.at ≤ 67108864) × (w ≤ 8) }
    ensures { Noted out.old (kind ∷ little w n) p out.new result }
{
    let left = p.left.checked_sub(1)?;
    put_byte(out, p.at, kind);
    put_little(out, p.at + 1, w, n);
    Some(Page {
        left,
        at: p.at + (1 + w),
    })
}

// A string or a name: a kind, a length and the bytes; none where no node is left.
pub fn text(out: &mut [u8], kind: u8, t: &[u8], p: Page) -> Option<Page>
    requires { (p.at ≤ 67108864) × (length t.now ≤ 67108864) }
    ensures { Noted out.old (kind ∷ write_text t.now) p out.new result }
{
    let left = p.left.checked_sub(1)?;
    put_byte(out, p.at, kind);
    put_little(out, p.at + 1, 4, t.len() as u64);
    put_bytes(out, p.at + 5, t);
    Some(Page {
        left,
        at: p.at + (5 + t.len()),
    })
}

// A scalar, by its three words: Bool and Char have a number of 4 bytes, a Number has 8.
pub fn scalar(out: &mut [u8], w: Words, p: Page) -> Option<Page>
    requires { (p.at ≤ 67108864) × ((x : Scalar) × (three w ≡ scalar_words x)) }
    ensures { (x : Scalar) → three w ≡ scalar_words x → Noted out.old (write_scalar x) p out.new result }
{
    let width = match w.kind {
        0..=3 => 0,
        4 | 5 => 4,
        _ => 8,
    };
    field(out, w.kind as u8, width, w.first, p)
}
