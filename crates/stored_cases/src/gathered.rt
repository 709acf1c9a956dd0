// What a program writes, handed on in large parts: `write!` hands on a piece for each value, and a terminal, a file or a pipe is
// asked anew by each piece that reaches it.
ghost use Rattle.std.specs.Prelude.{◌≡◌, [], take, IfOk, OnOk};
ghost use Rattle.std.specs.Io.{WritesAtMost};
ghost use Rattle.std.specs.Io.KnownBytes.{Keeps, Appends};
ghost use Rattle.stored_cases.specs.Gathering.{known};

use arrayvec::ArrayVec;
use std::io;
use std::io::Write;

// The pieces not yet handed on, at most so many bytes.
const ROOM: usize = 8192;

// A writer, and what was written since it was last handed anything.
#[derive(Drop)]
pub struct Gathered<W: Write + Drop> {
    out: W,
    held: ArrayVec<u8, ROOM>,
}

impl<W: Write + Drop> Gathered<W> {
    pub fn new(out: W) -> Gathered<W>
        ensures { Keeps (W.contents out) (known W.contents result) }
    {
        Gathered {
            out,
            held: ArrayVec::new(),
        }
    }

    // Hands on what is held. Where that fails, what was handed on of it is not known.
    fn hand_on(&mut self) -> io::Result<()>
        ensures same { OnOk result (Keeps (known W.contents self.old) (known W.contents self.new)) }
        ensures none_held { OnOk result (self.new.held.items ≡ []) }
    {
        self.out.write_all(&self.held)?;
        self.held.clear();
        Ok(())
    }
}

impl<W: Write + Drop> Write for Gathered<W> {
    // Takes what there is room for; a full room is handed on first.
    fn write(&mut self, buf: &[u8]) -> io::Result<usize>
        ensures bound { WritesAtMost result buf.now }
        ensures taken { IfOk result (λ n. Appends (known W.contents self.old) (known W.contents self.new) (take n buf.now)) }
    {
        if self.held.is_full() {
            self.hand_on()?;
        }
        self.held.write(buf)
    }

    fn flush(&mut self) -> io::Result<()>
        ensures same { OnOk result (Keeps (known W.contents self.old) (known W.contents self.new)) }
        ensures none_held { OnOk result (self.new.held.items ≡ []) }
    {
        self.hand_on()?;
        self.out.flush()
    }
}
