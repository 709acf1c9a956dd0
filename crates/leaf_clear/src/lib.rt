// Lent room set to zero. Document 01: "On return scratch is all zero"; "Room past the part in use is zero."
#![tactic(auto)]

ghost use Rattle.std.specs.Prelude.{◌≡◌, length};
ghost use Rattle.laws.specs.Basics.{zeros};

// Kept: two names, each one call of std's `fill`: one `clear<T>` would need a trait with a zero and its law, and two impls, to say the same.

// Words, all zero.
#[tactic(auto, using(crate::proofs::Zeroed::zeroed))]
pub fn clear_words(words: &mut [u64])
    ensures { words.new ≡ zeros (length words.old) }
{
    words.fill(0);
}

// Bytes, all zero.
#[tactic(auto, using(crate::proofs::Zeroed::zeroed))]
pub fn clear_bytes(bytes: &mut [u8])
    ensures { bytes.new ≡ zeros (length bytes.old) }
{
    bytes.fill(0);
}
