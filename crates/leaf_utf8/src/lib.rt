// UTF-8 by RFC 3629, and Unicode scalar values. Document 01, "Numbers": "Strings and names are UTF-8 by RFC 3629; a Char
// is a Unicode scalar value." The check is one pass, a byte a turn, with what is still awaited carried along.
#![tactic(auto)]

ghost use Rattle.std.specs.Prelude.{◌≡◌, List, ◌∷◌, ℕ};
ghost use Rattle.rules.specs.Utf8.{follows, utf8_after, utf8, scalar_value};
ghost use Rattle.leaf_utf8.specs.Awaiting.{ranges, shown, rest_good};

// What must follow: `left` more bytes, the next of them from `low` to `high`, the others from 0x80 to 0xbf. With none
// left a scalar value ends, and the next byte is a first byte.
#[derive(Clone, Copy)]
struct Awaited {
    left: u8,
    low: u8,
    high: u8,
}

// Kept: std's `from_utf8` would do, but the edits overlong_two_accepted and three others are on the grammar's rows in this code.

// `left` bytes are awaited, the next of them in this range.
fn awaiting(left: u8, low: u8, high: u8) -> Option<Awaited>
    ensures { result ≡ Some (record { left = left; low = low; high = high }) }
{
    Some(Awaited { left, low, high })
}

// What follows a first byte: the rows of RFC 3629's grammar, one a case, with the second byte's own range.
#[tactic(auto, unfolding(rules::specs::Utf8::follows, rules::specs::Utf8::rows, rules::specs::Utf8::within, laws::specs::Basics::find, crate::specs::Awaiting::awaits))]
fn first(byte: u8) -> Option<Awaited>
    ensures { shown result ≡ follows byte }
{
    match byte {
        0x00..=0x7f => awaiting(0, 0x80, 0xbf),
        0xc2..=0xdf => awaiting(1, 0x80, 0xbf),
        0xe0 => awaiting(2, 0xa0, 0xbf),
        0xe1..=0xec => awaiting(2, 0x80, 0xbf),
        0xed => awaiting(2, 0x80, 0x9f),
        0xee..=0xef => awaiting(2, 0x80, 0xbf),
        0xf0 => awaiting(3, 0x90, 0xbf),
        0xf1..=0xf3 => awaiting(3, 0x80, 0xbf),
        0xf4 => awaiting(3, 0x80, 0x8f),
        _ => None,
    }
}

// What follows one more byte.
fn step(a: Awaited, byte: u8) -> Option<Awaited>
    ensures { (bs : List ℕ) → utf8_after (ranges a) (byte ∷ bs) ≡ rest_good result bs }
{
    if a.left == 0 {
        first(byte)
    } else if a.low <= byte && byte <= a.high {
        awaiting(a.left - 1, 0x80, 0xbf)
    } else {
        None
    }
}

// The bytes are UTF-8.
pub fn is_utf8(s: &[u8]) -> bool
    ensures { result ≡ utf8 s.now }
{
    let mut a = Awaited {
        left: 0,
        low: 0x80,
        high: 0xbf,
    };
    for byte in s {
        let Some(next) = step(a, *byte) else {
            return false;
        };
        a = next;
    }
    a.left == 0
}

// A code point that is no surrogate.
#[tactic(auto, unfolding(rules::specs::Utf8::scalar_value))]
pub fn is_scalar_value(n: u64) -> bool
    ensures { result ≡ scalar_value n }
{
    matches!(n, 0..=0xd7ff | 0xe000..=0x10ffff)
}
