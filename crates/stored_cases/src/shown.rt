// How lists are shown in an answer.
ghost use Rattle.std.specs.Prelude.{Some};
ghost use Rattle.stored_cases.specs.Shown.{spaced, hexed};

use std::fmt;

// Each value with a blank behind it.
#[derive(Clone, Copy)]
pub struct Spaced<'a, T>(pub &'a [T]);

// Each byte in two digits of hex.
#[derive(Clone, Copy)]
pub struct Hex<'a>(pub &'a [u8]);

impl<T: fmt::Display> fmt::Display for Spaced<'_, T> {
    ghost output = { λ s. spaced T.output (s.0).now };

    fn fmt<W: fmt::Write>(&self, f: &mut fmt::Formatter<W>) -> fmt::Result {
        for x in self.0 {
            write!(f, "{x} ")?;
        }
        Ok(())
    }
}

impl fmt::Display for Hex<'_> {
    ghost output = { λ h. Some (hexed (h.0).now) };

    fn fmt<W: fmt::Write>(&self, f: &mut fmt::Formatter<W>) -> fmt::Result {
        for &byte in self.0 {
            write!(f, "{byte:02x}")?;
        }
        Ok(())
    }
}
