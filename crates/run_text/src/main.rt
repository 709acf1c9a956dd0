// Runs the readings of a sheet's lines on stored cases. A case is a line of text. The answer is a line: what the text is as
// an unsigned number, a signed number, hex (written again), a line `chunk=` and the last line, and the bytes of the node that
// it is a line of, in hex, with the number of data that follow; `bad` where it is none of these. What the cases are, and their
// answers, is made by tools/text_cases.py.
#![tactic(auto)]

ghost use Rattle.std.specs.Prelude.{◌+◌, ◌*◌, ◌≤◌, length};

use sheet_nodes::Node;
use std::io;
use std::io::Write;

// at most so many bytes are read
const INPUT: usize = 32768;

fn say_unsigned(n: Option<u64>, text: &mut [u8], out: &mut impl Write) -> io::Result<()>
    requires { 20 ≤ length text.old }
{
    let Some(n) = n else {
        return write!(out, "bad");
    };
    let end = text_numbers::print_decimal(n, text, 0);
    out.write_all(&text[..end])
}

// Kept: say_unsigned and say_signed; with the printing call as a parameter, its requires and its room stand in the contract, no plainer.
fn say_signed(n: Option<u64>, text: &mut [u8], out: &mut impl Write) -> io::Result<()>
    requires { 20 ≤ length text.old }
{
    let Some(n) = n else {
        return write!(out, "bad");
    };
    let end = text_numbers::print_signed(n, text, 0);
    out.write_all(&text[..end])
}

// Bytes in hex.
fn say_bytes(bytes: &[u8], text: &mut [u8], out: &mut impl Write) -> io::Result<()>
    requires { 2 * length bytes.now ≤ length text.old }
{
    let end = text_numbers::print_hex(bytes, text, 0);
    out.write_all(&text[..end])
}

fn say_hex(line: &[u8], room: &mut [u8], text: &mut [u8], out: &mut impl Write) -> io::Result<()>
    requires line_in_bounds { length line.now ≤ length room.old }
    requires room_in_bounds { 2 * length room.old ≤ length text.old }
{
    let Some(n) = text_numbers::unhex(line, room, 0) else {
        return write!(out, "bad");
    };
    say_bytes(&room[..n], text, out)
}

fn say_node(line: &[u8], room: &mut [u8], text: &mut [u8], out: &mut impl Write) -> io::Result<()>
    requires line_in_bounds { 9 + length line.now ≤ length room.old }
    requires room_in_bounds { 2 * length room.old ≤ length text.old }
{
    let Some(Node { size, follow }) = sheet_lines::node_line(line, room, 0) else {
        return write!(out, "bad");
    };
    say_bytes(&room[..size], text, out)?;
    write!(out, ",{follow}")
}

// The numbers that a line may be.
fn say_numbers(line: &[u8], text: &mut [u8], out: &mut impl Write) -> io::Result<()>
    requires { 20 ≤ length text.old }
{
    write!(out, "unsigned=")?;
    say_unsigned(text_decimals::unsigned32(line), text, out)?;
    write!(out, " signed=")?;
    say_signed(text_decimals::signed64(line), text, out)?;
    write!(out, " chunk=")?;
    say_unsigned(sheet_keys::header_line(b"chunk=", line), text, out)
}

fn answer(line: &[u8], room: &mut [u8], text: &mut [u8], out: &mut impl Write) -> io::Result<()>
    requires line_in_bounds { 9 + length line.now ≤ length room.old }
    requires room_in_bounds { 2 * length room.old ≤ length text.old }
    requires in_bounds { 20 ≤ length text.old }
{
    say_numbers(line, text, out)?;
    write!(out, " end={} hex=", u8::from(sheet_keys::is_end(line)))?;
    say_hex(line, room, text, out)?;
    write!(out, " node=")?;
    say_node(line, room, text, out)?;
    writeln!(out)
}

// Answers one line after the other.
fn run(lines: &[u8], room: &mut [u8], text: &mut [u8], out: &mut impl Write) -> io::Result<()>
    requires lines_in_bounds { 9 + length lines.now ≤ length room.old }
    requires room_in_bounds { 2 * length room.old ≤ length text.old }
    requires in_bounds { 20 ≤ length text.old }
{
    let mut at = 0;
    while let Some(end) = sheet_keys::line_end(lines, at) {
        answer(&lines[at..end], room, text, out)?;
        at = end + 1;
    }
    Ok(())
}

fn main(rt: HostRuntime) -> io::Result<()> {
    let mut space = [0u8; INPUT];
    let n = whole_input::read_full(&mut rt.reader(), &mut space)?;
    let mut out = io::writer(&rt);
    let mut room = [0u8; 32800];
    let mut text = [0u8; 65600];
    run(&space[..n], &mut room, &mut text, &mut out)?;
    out.flush()
}
