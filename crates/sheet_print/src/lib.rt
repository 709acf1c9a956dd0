// The listing's parts and its lines of counts. Document 01, "Sheets": "One `root` a datum; `free` counts the list; `freelist` has
// commas, next slot first, empty if none"; "On a refusal it prints only `refused=N`". A line is written from the start of a lent
// buffer, and its length answered. No line of a sound heap is longer than 32,768 bytes.
#![tactic(auto)]

ghost use Rattle.std.specs.Prelude.{List, [], ◌∷◌, ◌++◌, map, ℕ, ◌+◌, ◌≤◌, ◌<◌, length, get_or};
ghost use Rattle.laws.specs.Basics.{ascii};
ghost use Rattle.rules.specs.Heap.{capacity, free_count};
ghost use Rattle.rules.specs.Layout.{heap_of};
ghost use Rattle.rules.specs.Text.{decimal};
ghost use Rattle.rules.specs.Listing.{print_line, commas, refusal_line};
ghost use Rattle.heap_sound_rows.specs.Rows.{lists};
ghost use Rattle.sheet_print.specs.Printing.{most_line, most_free, Within, SoundWords, comma_before, listed, free_text};

// A key, and a number.
// Kept: a text is written at a place and its end answered; a writer over the buffer would name its borrow in each clause beside `Printed`.
pub fn print_keyed(key: &[u8], n: u64, out: &mut [u8], at: usize) -> usize
    requires { at + length key.now + 20 ≤ length out.old }
    ensures { Within (length key.now + 20) out.old at (key.now ++ decimal n) out.new result }
{
    let end = text_numbers::print_text(key, out, at);
    text_numbers::print_decimal(n, out, end)
}

// A line of a number. The key has its `=`.
fn number_line(key: &[u8], n: u64, out: &mut [u8]) -> usize
    requires key_len_bound { length key.now + 21 ≤ most_line }
    requires most_line_in_bounds { most_line ≤ length out.old }
    ensures { Within most_line out.old 0 (key.now ++ (decimal n ++ (10 ∷ []))) out.new result }
{
    let end = print_keyed(key, n, out, 0);
    out[end] = b'\n';
    end + 1
}

// "One `root` a datum"
pub fn root_line(slot: u64, out: &mut [u8]) -> usize
    requires { most_line ≤ length out.old }
    ensures { Within most_line out.old 0 (print_line (ascii "root") (decimal slot)) out.new result }
{
    number_line(b"root=", slot, out)
}

// "On a refusal it prints only `refused=N`."
pub fn refusal_line(n: u64, out: &mut [u8]) -> usize
    requires { most_line ≤ length out.old }
    ensures { Within most_line out.old 0 (refusal_line n) out.new result }
{
    number_line(b"refused=", n, out)
}

// The slots that there are.
pub fn capacity_line(words: &[u64], out: &mut [u8]) -> usize
    requires sound_words { SoundWords words.now }
    requires most_line_in_bounds { most_line ≤ length out.old }
    ensures { (m b e : List ℕ) → Within most_line out.old 0 (print_line (ascii "capacity") (decimal (capacity (heap_of (lists words.now m b e))))) out.new result }
{
    number_line(b"capacity=", words[1], out)
}

// "`free` counts the list"
pub fn free_line(words: &[u64], out: &mut [u8]) -> usize
    requires sound_words { SoundWords words.now }
    requires most_line_in_bounds { most_line ≤ length out.old }
    ensures { (m b e : List ℕ) → Within most_line out.old 0 (print_line (ascii "free") (decimal (free_count (heap_of (lists words.now m b e))))) out.new result }
{
    number_line(b"free=", words[2], out)
}

// The comma before every text but the first.
pub fn print_comma(i: usize, out: &mut [u8], at: usize) -> usize
    requires { at < length out.old }
    ensures { Within 1 out.old at (comma_before i) out.new result }
{
    if i == 0 {
        return at;
    }
    out[at] = b',';
    at + 1
}

// The free list: the next slot stands at the highest place in use.
fn print_free(words: &[u64], out: &mut [u8], at: usize) -> usize
    requires sound_words { SoundWords words.now }
    requires most_free_in_bounds { at + most_free ≤ length out.old }
    ensures { Within most_free out.old at (listed (free_text words.now) (get_or words.now 2 0)) out.new result }
{
    let count = words[2] as usize;
    let mut end = at;
    for i in 0..count {
        let next = print_comma(i, out, end);
        end = text_numbers::print_decimal(words[8 * (count - i) + 4], out, next);
    }
    end
}

// "`freelist` has commas, next slot first, empty if none"
pub fn freelist_line(words: &[u64], out: &mut [u8]) -> usize
    requires sound_words { SoundWords words.now }
    requires most_line_in_bounds { most_line ≤ length out.old }
    ensures { (m b e : List ℕ) → Within most_line out.old 0 (print_line (ascii "freelist") (commas (map decimal (heap_of (lists words.now m b e)).free))) out.new result }
{
    let start = text_numbers::print_text(b"freelist=", out, 0);
    let end = print_free(words, out, start);
    out[end] = b'\n';
    end + 1
}
