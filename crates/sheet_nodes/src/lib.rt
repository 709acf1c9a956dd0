// The value of a node's line, written out as the bytes of its node; nothing is written where it is bad. Document 01, "Sheets":
// "Decimals have no leading zero or plus, zero has no minus, and a number too big for its field .. is bad text; hex is lower case,
// may be empty", "`vec=N` (N data follow), `def=L` (one follows)". A node is told by its kind's byte, as the layout has it.
#![tactic(auto)]

ghost use Rattle.std.specs.Prelude.{◌≡◌, true, ◌∷◌, [], ◌+◌, ◌/◌, ◌≤◌, ◌<◌, length};
ghost use Rattle.laws.specs.Basics.{little};
ghost use Rattle.rules.specs.Sheet as rules;
ghost use Rattle.text_numbers.specs.Answers.{is_hex, unhexed, written};
ghost use Rattle.sheet_nodes.specs.Written.{Lined, TextWritten, follow_of};

// How many bytes a node line was written out as, and how many data follow it.
#[derive(Clone, Copy)]
pub struct Node {
    pub size: usize,
    pub follow: u64,
}

// Writes the w lowest bytes of a number, lowest first.
fn write_little(out: &mut [u8], at: usize, w: usize, n: u64)
    requires width { w ≤ 8 }
    requires in_bounds { at + w ≤ length out.old }
    ensures { out.new ≡ written out.old at (little w n) }
{
    text_numbers::print_text(&n.to_le_bytes()[..w], out, at);
}

// Writes a text that stands in hex: its length, then its bytes. The answer is how many bytes that is.
fn write_text(hex: &[u8], out: &mut [u8], at: usize) -> usize
    requires hex_value { is_hex hex.now ≡ true }
    requires hex_in_bounds { at + 4 + length hex.now / 2 ≤ length out.old }
    ensures { TextWritten out.old at (unhexed hex.now) out.new result }
{
    let n = hex.len() / 2;
    write_little(out, at, 4, n as u64);
    text_numbers::write_unhexed(hex, out, at + 4);
    n + 4
}

// How many data follow a node with a number.
// Kept: the kind is the byte that the rules' layout writes for it, so an enum would only be turned back into that byte.
#[tactic(auto, unfolding(crate::specs::Written::follow_of))]
fn follow(kind: u8, n: u64) -> u64
    ensures { result ≡ follow_of kind n }
{
    match kind {
        10 => n,
        12 => 1,
        _ => 0,
    }
}

// No value.
pub fn bare(kind: u8, follow: u64, value: &[u8], out: &mut [u8], at: usize) -> Option<Node>
    requires { at < length out.old }
    ensures { Lined out.old at (rules.bare kind follow value.now) out.new result }
{
    if !value.is_empty() {
        return None;
    }
    out[at] = kind;
    Some(Node { size: 1, follow })
}

// A number of 32 bits.
pub fn numbered(kind: u8, value: &[u8], out: &mut [u8], at: usize) -> Option<Node>
    requires { at + 5 ≤ length out.old }
    ensures { Lined out.old at (rules.numbered kind (follow_of kind) value.now) out.new result }
{
    let n = text_decimals::unsigned32(value)?;
    out[at] = kind;
    write_little(out, at + 1, 4, n);
    Some(Node {
        size: 5,
        follow: follow(kind, n),
    })
}

// A signed number of 64 bits.
pub fn signed_number(value: &[u8], out: &mut [u8], at: usize) -> Option<Node>
    requires { at + 9 ≤ length out.old }
    ensures { Lined out.old at (rules.signed_number value.now) out.new result }
{
    let n = text_decimals::signed64(value)?;
    out[at] = 6;
    write_little(out, at + 1, 8, n);
    Some(Node { size: 9, follow: 0 })
}

// A text in hex.
pub fn hexed(kind: u8, value: &[u8], out: &mut [u8], at: usize) -> Option<Node>
    requires { at + 5 + length value.now / 2 ≤ length out.old }
    ensures { Lined out.old at (rules.hexed (kind ∷ []) value.now) out.new result }
{
    if !text_numbers::is_hex(value) {
        return None;
    }
    out[at] = kind;
    let n = write_text(value, out, at + 1);
    Some(Node {
        size: n + 1,
        follow: 0,
    })
}

// An identifier's name, of which the scope is known.
pub fn ident(scope: u64, name: &[u8], out: &mut [u8], at: usize) -> Option<Node>
    requires { at + 9 + length name.now / 2 ≤ length out.old }
    ensures { Lined out.old at (rules.hexed (11 ∷ little 4 scope) name.now) out.new result }
{
    if !text_numbers::is_hex(name) {
        return None;
    }
    out[at] = 11;
    write_little(out, at + 1, 4, scope);
    let n = write_text(name, out, at + 5);
    Some(Node {
        size: n + 5,
        follow: 0,
    })
}
