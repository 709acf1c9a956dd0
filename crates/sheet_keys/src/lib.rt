// Lines and keys of a sheet's text. Document 01, "Sheets": "A sheet is key=value lines ending in LF, in this order: `chunk=`,
// `slots=`, the data, `end=`."
#![tactic(auto)]

ghost use Rattle.std.specs.Prelude.{◌≡◌, drop};
ghost use Rattle.laws.specs.Basics.{ascii, same};
ghost use Rattle.rules.specs.Sheet as rules;
ghost use Rattle.text_decimals.specs.Reads.{shown};
ghost use Rattle.sheet_keys.specs.Places.{first_from, Keyed};

// The first place from one on where a byte stands.
pub fn find(text: &[u8], from: usize, byte: u8) -> Option<usize>
    ensures { shown result ≡ first_from byte from (drop from text.now) }
{
    for i in from..text.len() {
        if text[i] == byte {
            return Some(i);
        }
    }
    None
}

// The end of the line that begins at a place: the next LF.
pub fn line_end(text: &[u8], from: usize) -> Option<usize>
    ensures { shown result ≡ first_from 10 from (drop from text.now) }
{
    find(text, from, b'\n')
}

// The value, if the line begins with the key.
pub fn after<'a>(line: &'a [u8], key: &[u8]) -> Option<&'a [u8]>
    ensures { Keyed key.now line.now result }
{
    line.strip_prefix(key)
}

// `chunk=` or `slots=`, and its number.
pub fn header_line(key: &[u8], line: &[u8]) -> Option<u64>
    ensures { shown result ≡ rules.header_line key.now line.now }
{
    text_decimals::unsigned32(after(line, key)?)
}

// The sheet's last line.
pub fn is_end(line: &[u8]) -> bool
    ensures { result ≡ same line.now (ascii "end=") }
{
    line == b"end=".as_slice()
}
