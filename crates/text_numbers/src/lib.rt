// Numbers and bytes written as text, and hex read. Document 01, "Sheets": "hex is lower case, may be empty"; decimals are written as
// they are read. A signed number is kept as its 64 bits.
#![tactic(auto)]

ghost use Rattle.std.specs.Prelude.{◌≡◌, true, ◌+◌, ◌*◌, ◌/◌, ◌≤◌, ◌<◌, length, IfSome};
ghost use Rattle.rules.specs.Text as rules;
ghost use Rattle.text_decimals.specs.Reads.{shown};
ghost use Rattle.text_numbers.specs.Answers.{pair_value, is_hex, unhexed, written, Unhexed, Printed};

use itoa::Buffer;

// A hex digit's number.
fn hex_value(byte: u8) -> Option<u8>
    ensures value { shown result ≡ rules.hex_value byte }
    ensures small { IfSome result (λ n. n < 16) }
{
    match byte {
        b'0'..=b'9' => Some(byte - b'0'),
        b'a'..=b'f' => Some(byte - b'a' + 10),
        _ => None,
    }
}

// The byte that two hex digits are.
fn pair(a: u8, b: u8) -> Option<u8>
    ensures { shown result ≡ pair_value a b }
{
    Some(16 * hex_value(a)? + hex_value(b)?)
}

// The text is pairs of hex digits.
pub fn is_hex(t: &[u8]) -> bool
    ensures { result ≡ is_hex t.now }
{
    for i in 0..t.len() / 2 {
        if pair(t[2 * i], t[2 * i + 1]).is_none() {
            return false;
        }
    }
    t.len() % 2 == 0
}

// Writes the bytes of a hex text from a place on.
pub fn write_unhexed(t: &[u8], out: &mut [u8], at: usize)
    requires t_value { is_hex t.now ≡ true }
    requires t_in_bounds { at + length t.now / 2 ≤ length out.old }
    ensures { out.new ≡ written out.old at (unhexed t.now) }
{
    for i in 0..t.len() / 2 {
        out[at + i] = pair(t[2 * i], t[2 * i + 1]).unwrap();
    }
}

// The same where the text is hex, and how many bytes that is. It is looked at first, so that nothing is written where it is not.
pub fn unhex(t: &[u8], out: &mut [u8], at: usize) -> Option<usize>
    requires { at + length t.now / 2 ≤ length out.old }
    ensures { Unhexed out.old at t.now out.new result }
{
    if !is_hex(t) {
        return None;
    }
    write_unhexed(t, out, at);
    Some(t.len() / 2)
}

// Writes a text from a place on, and answers its end.
pub fn print_text(t: &[u8], out: &mut [u8], at: usize) -> usize
    requires { at + length t.now ≤ length out.old }
    ensures { Printed out.old at t.now out.new result }
{
    let end = at + t.len();
    out[at..end].copy_from_slice(t);
    end
}

// How many digits a number has.
pub fn width(n: u64) -> usize
    ensures { (result ≡ length (rules.decimal n)) × (result ≤ 20) }
{
    1 + n.checked_ilog10().unwrap_or(0) as usize
}

// Writes a number's digits from a place on, and answers their end.
pub fn print_decimal(n: u64, out: &mut [u8], at: usize) -> usize
    requires { at + length (rules.decimal n) ≤ length out.old }
    ensures { Printed out.old at (rules.decimal n) out.new result }
{
    print_text(Buffer::new().format(n).as_bytes(), out, at)
}

// The same for a number of 64 bits, read as signed.
pub fn print_signed(n: u64, out: &mut [u8], at: usize) -> usize
    requires { at + length (rules.signed n) ≤ length out.old }
    ensures { Printed out.old at (rules.signed n) out.new result }
{
    print_text(Buffer::new().format(n.cast_signed()).as_bytes(), out, at)
}

// The hex digit of a number below 16.
pub fn hex_digit(n: u8) -> u8
    requires { n < 16 }
    ensures { result ≡ rules.digit n }
{
    if n < 10 { b'0' + n } else { b'a' + (n - 10) }
}

// Writes the hex digits of bytes from a place on, and answers their end.
pub fn print_hex(t: &[u8], out: &mut [u8], at: usize) -> usize
    requires { at + 2 * length t.now ≤ length out.old }
    ensures { Printed out.old at (rules.hex t.now) out.new result }
{
    for (i, byte) in t.iter().enumerate() {
        out[at + 2 * i] = hex_digit(*byte / 16);
        out[at + 2 * i + 1] = hex_digit(*byte % 16);
    }
    at + 2 * t.len()
}
