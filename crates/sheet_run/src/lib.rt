// A sheet run: its text parsed, a heap set up, each datum put. Document 01, "Sheets": the program `sheet` "puts each datum
// and prints. Its order: over 32 KiB is 12, bad text 11, more than 192 slots 10, then the calls. On a refusal it prints only
// `refused=N`." What is printed is told by the answer: a refusal's line, or the listing of the roots and the heap left here.
#![tactic(auto)]

ghost use Rattle.std.specs.Prelude.{◌≡◌, List, ℕ, ◌≤◌, ◌<◌, length};
ghost use Rattle.heap_sound_rows.specs.Rows.{lists};
ghost use Rattle.sheet_run.specs.declared.Refused.TheVariants.{ByCall};
ghost use Rattle.sheet_run.specs.Running.{refused_number, DataAt, Begun, EachPut, Lends, FilledIn, RoomsLent, RanSo};

use leaf_lists::ListsMut;
use refusals::Refusal;

// Why a sheet is refused: by its text, its slots, or a call.
#[derive(Clone, Copy)]
pub enum Refused {
    TooLong,
    BadText,
    TooManySlots,
    ByCall(Refusal),
}

impl Refused {
    // The paper's number.
    pub fn number(self) -> u64
        ensures { result ≡ refused_number self }
    {
        match self {
            Refused::TooLong => 12,
            Refused::BadText => 11,
            Refused::TooManySlots => 10,
            Refused::ByCall(refusal) => u64::from(refusal.number()),
        }
    }
}

impl From<Refusal> for Refused {
    ghost from_gives = { λ refusal r. r ≡ ByCall refusal };

    fn from(refusal: Refusal) -> Refused {
        Refused::ByCall(refusal)
    }
}

// A heap of so many lent slots, and how many roots.
#[derive(Clone, Copy)]
pub struct Listed {
    pub slots: usize,
    pub count: usize,
}

// "puts each datum": the slot of each is kept as its root.
fn put_each(
    words: &mut [u64],
    map: &mut [u8],
    bytes: &mut [u8],
    elems: &mut [u64],
    scratch: &mut [u64],
    nodes: &[u8],
    ends: &[u64],
    count: usize,
    roots: &mut [u64],
) -> Result<(), Refusal>
    requires begun { Begun (lists words.old map.old bytes.old elems.old) scratch.old }
    requires by_index { (ds : List (List ℕ)) × DataAt nodes.now ends.now count ds }
    requires count_in_bounds { count ≤ length roots.old }
    ensures { (ds : List (List ℕ)) → DataAt nodes.now ends.now count ds → EachPut (lists words.old map.old bytes.old elems.old) ds (lists words.new map.new bytes.new elems.new) count roots.new result }
{
    for i in 0..count {
        let datum = sheet_parse::datum(nodes, ends, i);
        let mut heap = ListsMut {
            words: &mut *words,
            map: &mut *map,
            bytes: &mut *bytes,
            elems: &mut *elems,
        };
        let slot = doors::put(&mut heap, scratch, datum)?;
        roots[i] = slot;
    }
    Ok(())
}

// The calls: setup, then the puts.
fn fill(
    words: &mut [u64],
    map: &mut [u8],
    bytes: &mut [u8],
    elems: &mut [u64],
    scratch: &mut [u64],
    chunk: u64,
    nodes: &[u8],
    ends: &[u64],
    count: usize,
    roots: &mut [u64],
) -> Result<(), Refusal>
    requires lends { Lends (lists words.old map.old bytes.old elems.old) scratch.old }
    requires by_index { (ds : List (List ℕ)) × DataAt nodes.now ends.now count ds }
    requires count_in_bounds { count ≤ length roots.old }
    ensures { (ds : List (List ℕ)) → DataAt nodes.now ends.now count ds → FilledIn chunk (lists words.old map.old bytes.old elems.old) ds (lists words.new map.new bytes.new elems.new) count roots.new result }
{
    let mut heap = ListsMut {
        words: &mut *words,
        map: &mut *map,
        bytes: &mut *bytes,
        elems: &mut *elems,
    };
    doors::setup(&mut heap, chunk)?;
    put_each(words, map, bytes, elems, scratch, nodes, ends, count, roots)
}

// A whole sheet, in lent room of the sizes that document 01 gives.
pub fn run(
    text: &[u8],
    words: &mut [u64],
    map: &mut [u8],
    bytes: &mut [u8],
    elems: &mut [u64],
    scratch: &mut [u64],
    nodes: &mut [u8],
    ends: &mut [u64],
    roots: &mut [u64],
) -> Result<Listed, Refused>
    requires { RoomsLent words.old map.old bytes.old elems.old scratch.old nodes.old ends.old roots.old }
    ensures { RanSo text.now words.new map.new bytes.new elems.new roots.new result }
{
    if text.len() > 32768 {
        return Err(Refused::TooLong);
    }
    let Some(sheet) = sheet_parse::parse(text, nodes, ends) else {
        return Err(Refused::BadText);
    };
    if sheet.slots > 192 {
        return Err(Refused::TooManySlots);
    }
    let slots = sheet.slots as usize;
    let rows = 8 + 8 * slots;
    let states = (slots + 3) / 4;
    fill(
        &mut words[..rows],
        &mut map[..states],
        bytes,
        elems,
        scratch,
        sheet.chunk,
        nodes,
        ends,
        sheet.count,
        roots,
    )?;
    Ok(Listed {
        slots,
        count: sheet.count,
    })
}
