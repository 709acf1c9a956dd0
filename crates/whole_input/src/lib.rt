// What a program is given, read into room of its own up to its end or the room's: the programs take no memory besides.
#![tactic(auto)]

ghost use Rattle.std.specs.Prelude.{◌≡◌, ◌≤◌, length, IfOk};

use std::io;
use std::io::Read;

// Fills the room as far as the input goes, and says how far that is. An error is the input's own.
pub fn read_full(input: &mut impl Read, room: &mut [u8]) -> io::Result<usize>
    ensures within { IfOk result (λ n. n ≤ length room.new) }
    ensures size { length room.new ≡ length room.old }
{
    // Kept: how far each read comes says where the next begins, which no range or iterator counts.
    let mut at = 0;
    while at < room.len() {
        let n = input.read(&mut room[at..])?;
        if n == 0 {
            return Ok(at);
        }
        at += n;
    }
    Ok(at)
}
