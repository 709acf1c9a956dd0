// The answer to a sheet, written out: its listing, or only `refused=N`. Document 01, "Sheets": `sheet` "reads one from
// standard input (32 KiB, 192 slots, 8,192 bytes, 2,048 elements lent), puts each datum and prints." Which text is to be
// printed is `sheet_run`'s promise, and each line `sheet_print`'s or
// `sheet_listing`'s. A listing can be long, so it is written line by line, to a writer that is lent.
#![tactic(auto)]

ghost use Rattle.std.specs.Prelude.{◌≤◌, length};
ghost use Rattle.sheet_run.specs.Running.{RoomsLent};

use heap_sound::Sound;
use leaf_lists::Lists;
use std::io;
use std::io::Write;

// Writes the line at the start of the buffer.
fn say(line: &[u8], n: usize, out: &mut impl Write) -> io::Result<()>
    requires { n ≤ length line.now }
{
    out.write_all(&line[..n])
}

// "One `root` a datum".
fn say_roots(roots: &[u64], line: &mut [u8], out: &mut impl Write) -> io::Result<()>
    requires { 32768 ≤ length line.old }
{
    for root in roots {
        let n = sheet_print::root_line(*root, line);
        say(line, n, out)?;
    }
    Ok(())
}

// `capacity`, `free` and `freelist`.
fn say_counts(heap: Sound<'_>, line: &mut [u8], out: &mut impl Write) -> io::Result<()>
    requires { 32768 ≤ length line.old }
{
    let c = sheet_print::capacity_line(heap.lists.words, line);
    say(line, c, out)?;
    let f = sheet_print::free_line(heap.lists.words, line);
    say(line, f, out)?;
    let l = sheet_print::freelist_line(heap.lists.words, line);
    say(line, l, out)
}

// A line for each slot below the capacity.
fn say_slots(heap: Sound<'_>, line: &mut [u8], out: &mut impl Write) -> io::Result<()>
    requires { 32768 ≤ length line.old }
{
    let capacity = heap.lists.words[1] as usize;
    for s in 0..capacity {
        let n = sheet_listing::slot_line(heap, s, line);
        say(line, n, out)?;
    }
    Ok(())
}

// "On a refusal it prints only `refused=N`."
fn say_refused(number: u64, line: &mut [u8], out: &mut impl Write) -> io::Result<()>
    requires { 32768 ≤ length line.old }
{
    let n = sheet_print::refusal_line(number, line);
    say(line, n, out)
}

// A heap's own lines of the listing: its counts, and its slots. The only error is the writer's own; it leaves the heap as it
// was, and the lines before it were handed to the writer.
pub fn print_heap(heap: Sound<'_>, out: &mut impl Write) -> io::Result<()> {
    let mut line = [0u8; 32768];
    say_counts(heap, &mut line, out)?;
    say_slots(heap, &mut line, out)
}

// The whole listing.
fn say_listing(
    heap: Sound<'_>,
    roots: &[u64],
    line: &mut [u8],
    out: &mut impl Write,
) -> io::Result<()>
    requires { 32768 ≤ length line.old }
{
    say_roots(roots, line, out)?;
    print_heap(heap, out)
}

// The answer, with the room that it takes.
fn answer_in(
    text: &[u8],
    words: &mut [u64],
    map: &mut [u8],
    bytes: &mut [u8],
    elems: &mut [u64],
    scratch: &mut [u64],
    nodes: &mut [u8],
    ends: &mut [u64],
    roots: &mut [u64],
    line: &mut [u8],
    out: &mut impl Write,
) -> io::Result<()>
    requires rooms_lent { RoomsLent words.old map.old bytes.old elems.old scratch.old nodes.old ends.old roots.old }
    requires in_bounds { 32768 ≤ length line.old }
{
    match sheet_run::run(text, words, map, bytes, elems, scratch, nodes, ends, roots) {
        Err(refused) => say_refused(refused.number(), line, out),
        Ok(listed) => {
            let rows = 8 + 8 * listed.slots;
            let states = (listed.slots + 3) / 4;
            let lists = Lists {
                words: &words[..rows],
                map: &map[..states],
                bytes,
                elems,
            };
            say_listing(Sound { lists }, &roots[..listed.count], line, out)
        }
    }
}

// Runs the sheet that a text is, and prints its answer. The only error is the writer's own; the lines before it were handed to
// the writer.
pub fn answer(text: &[u8], out: &mut impl Write) -> io::Result<()> {
    let mut words = [0u64; 1544];
    let mut map = [0u8; 48];
    let mut bytes = [0u8; 8192];
    let mut elems = [0u64; 6144];
    let mut scratch = [0u64; 1664];
    let mut nodes = [0u8; 65545];
    let mut ends = [0u64; 6554];
    let mut roots = [0u64; 6554];
    let mut line = [0u8; 32768];
    answer_in(
        text,
        &mut words,
        &mut map,
        &mut bytes,
        &mut elems,
        &mut scratch,
        &mut nodes,
        &mut ends,
        &mut roots,
        &mut line,
        out,
    )
}
