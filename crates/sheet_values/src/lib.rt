// A value printed as the listing shows it, a scalar or a vector's element. Document 01, "Sheets": "Cells print as `kind:` and the
// sheet's text, nil, eof, undef and void bare", "a slot as `@N`".
#![tactic(auto)]

ghost use Rattle.std.specs.Prelude.{◌++◌, ◌+◌, ◌≤◌, length};
ghost use Rattle.laws.specs.Basics.{ascii};
ghost use Rattle.rules.specs.Text.{signed};
ghost use Rattle.rules.specs.Listing.{print_value};
ghost use Rattle.leaf_cells.specs.Elements.{value_of};
ghost use Rattle.sheet_print.specs.Printing.{most_value, Within};

use leaf_cells::Value;

// A number is kept as its 64 bits, and printed as signed.
fn print_number(n: u64, out: &mut [u8], at: usize) -> usize
    requires { at + 24 ≤ length out.old }
    ensures { Within 24 out.old at (ascii "num:" ++ signed n) out.new result }
{
    let end = text_numbers::print_text(b"num:", out, at);
    text_numbers::print_signed(n, out, end)
}

// "Cells print as `kind:` and the sheet's text, nil, eof, undef and void bare", "a slot as `@N`"
pub fn print_value(v: Value, out: &mut [u8], at: usize) -> usize
    requires { at + most_value ≤ length out.old }
    ensures { Within most_value out.old at (print_value (value_of v)) out.new result }
{
    match v {
        Value::Slot(s) => sheet_print::print_keyed(b"@", s as u64, out, at),
        Value::Undefined => text_numbers::print_text(b"undef", out, at),
        Value::Nil => text_numbers::print_text(b"nil", out, at),
        Value::Eof => text_numbers::print_text(b"eof", out, at),
        Value::Void => text_numbers::print_text(b"void", out, at),
        Value::Bool(b) => sheet_print::print_keyed(b"bool:", u64::from(b), out, at),
        Value::Char(n) => sheet_print::print_keyed(b"char:", n, out, at),
        Value::Number(n) => print_number(n, out, at),
    }
}
