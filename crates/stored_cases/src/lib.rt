// What the programs that run stored cases share: the digits of a case read, and the numbers and bytes of an answer written. No
// memory is taken.
#![tactic(auto)]

mod gathered;
mod shown;

ghost use Rattle.std.specs.Prelude.{◌≡◌, ℕ, ◌+◌, ◌*◌, ◌<◌, ◌≤◌, length, Some, None, slice_index};
ghost use Rattle.stored_cases.specs.Digits.{digit_of, number_of, pair_of};

pub use gathered::Gathered;
pub use shown::{Hex, Spaced};

// The digit that a byte writes; letters are lower case.
pub fn digit(byte: u8, radix: u32) -> Option<u8>
    requires low { 2 ≤ radix }
    requires high { radix ≤ 36 }
    ensures { result ≡ digit_of radix byte }
{
    if byte.is_ascii_uppercase() {
        return None;
    }
    let d = char::from(byte).to_digit(radix)?;
    Some(d as u8)
}

// The number that digits write, its low 64 bits; a byte that is no digit counts as 0.
pub fn number(digits: &[u8], radix: u32) -> u64
    requires low { 2 ≤ radix }
    requires high { radix ≤ 36 }
    ensures { result ≡ number_of radix digits.now }
{
    digits.iter().fold(0, |n: u64, byte| {
        n.wrapping_mul(u64::from(radix))
            .wrapping_add(u64::from(digit(*byte, radix).unwrap_or(0)))
    })
}

// The byte that two digits of hex write.
fn hex_byte(high: u8, low: u8) -> Option<u8>
    ensures { result ≡ pair_of high low }
{
    let h = digit(high, 16)?;
    let l = digit(low, 16)?;
    Some(16 * h + l)
}

// Writes the bytes that a text of hex begins with, as far as there is room, and says how many they are.
pub fn unhex(text: &[u8], bytes: &mut [u8]) -> usize
    ensures within { (result ≤ length bytes.new) × (2 * result ≤ length text.now) }
    ensures values { (k : ℕ) → k < result → pair_of (slice_index text.now (2 * k)) (slice_index text.now (2 * k + 1)) ≡ Some (slice_index bytes.new k) }
    ensures ends { result < length bytes.new → 2 * result + 1 < length text.now → pair_of (slice_index text.now (2 * result)) (slice_index text.now (2 * result + 1)) ≡ None }
{
    let most = bytes.len().min(text.len() / 2);
    for n in 0..most {
        let Some(byte) = hex_byte(text[2 * n], text[2 * n + 1]) else {
            return n;
        };
        bytes[n] = byte;
    }
    most
}
