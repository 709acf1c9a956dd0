// Decimals of a sheet's text, read. Document 01, "Sheets": "Decimals have no leading zero or plus, zero has no minus, and a number too
// big for its field (`num` signed 64 bits, all others unsigned 32) is bad text". A signed number is kept as its 64 bits.
#![tactic(auto)]

ghost use Rattle.std.specs.Prelude.{◌≡◌, ◌≤◌, IfSome};
ghost use Rattle.rules.specs.Text as rules;
ghost use Rattle.text_decimals.specs.Reads.{shown, Step};

// A digit's number.
fn digit_value(byte: u8) -> Option<u8>
    ensures value { shown result ≡ rules.digit_value byte }
    ensures small { IfSome result (λ d. d ≤ 9) }
{
    match byte {
        b'0'..=b'9' => Some(byte - b'0'),
        _ => None,
    }
}

// One digit more. A number past the most stays past it, whatever follows.
fn more(n: u64, byte: u8, most: u64) -> Option<u64>
    requires { 9 ≤ most }
    ensures { Step most n byte result }
{
    let d = u64::from(digit_value(byte)?);
    if (most - d) / 10 < n {
        return None;
    }
    Some(10 * n + d)
}

// The number of a text's digits, which may begin with zeros.
fn digits(t: &[u8], most: u64) -> Option<u64>
    requires { 9 ≤ most }
    ensures { shown result ≡ rules.at_most most (rules.number_from 0 t.now) }
{
    let mut n = 0;
    for byte in t {
        n = more(n, *byte, most)?;
    }
    Some(n)
}

// "Decimals have no leading zero or plus"
fn natural(t: &[u8], most: u64) -> Option<u64>
    requires { 9 ≤ most }
    ensures { shown result ≡ rules.at_most most (rules.natural t.now) }
{
    if t.is_empty() || t.len() > 1 && t[0] == b'0' {
        return None;
    }
    digits(t, most)
}

pub fn unsigned32(t: &[u8]) -> Option<u64>
    ensures { shown result ≡ rules.unsigned32 t.now }
{
    natural(t, u64::from(u32::MAX))
}

// "zero has no minus"
fn negative(n: u64) -> Option<u64>
    ensures { shown result ≡ rules.negative (shown (Some n)) }
{
    if n == 0 { None } else { Some(n.wrapping_neg()) }
}

pub fn signed64(t: &[u8]) -> Option<u64>
    ensures { shown result ≡ rules.signed64 t.now }
{
    match t.strip_prefix(b"-") {
        Some(digits) => negative(natural(digits, 1 << 63)?),
        None => natural(t, (1 << 63) - 1),
    }
}
