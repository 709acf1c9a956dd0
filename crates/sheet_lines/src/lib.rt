// The lines of nodes. Document 01, "Sheets": "Each node is a line in prefix order: `bool=0`, `char=N`, `num=N`, `str=HEX`, `sym=HEX`,
// `ident=SCOPE:HEX`, `nil=`, `eof=`, `undef=`, `void=`, `pair=` (car, cdr follow), `vec=N` (N data follow), `def=L` (one follows),
// `ref=L`." A line is written out as the bytes of its node; nothing is written where it is bad.
#![tactic(auto)]

ghost use Rattle.std.specs.Prelude.{◌≡◌, ◌+◌, ◌≤◌, ◌<◌, length};
ghost use Rattle.rules.specs.Sheet as rules;
ghost use Rattle.sheet_nodes.specs.Written.{Lined};
ghost use Rattle.sheet_lines.specs.Lines.{form_of, FormRead, scoped_at};

use sheet_nodes::Node;

// What a line may be.
#[derive(Clone, Copy)]
enum Form {
    Bool,
    Char,
    Num,
    Str,
    Sym,
    Ident,
    Nil,
    Eof,
    Undef,
    Void,
    Pair,
    Vec,
    Def,
    Ref,
}

// In the order in which they are tried.
const FORMS: [Form; 14] = [
    Form::Bool,
    Form::Char,
    Form::Num,
    Form::Str,
    Form::Sym,
    Form::Ident,
    Form::Nil,
    Form::Eof,
    Form::Undef,
    Form::Void,
    Form::Pair,
    Form::Vec,
    Form::Def,
    Form::Ref,
];

impl Form {
    // What a line of the form begins with.
    #[tactic(auto, unfolding(rules::specs::Sheet::sheet_rules, laws::specs::Basics::basics, crate::specs::Lines::lines_words))]
    fn key(self) -> &'static [u8]
        ensures { result.now ≡ (form_of self).key }
    {
        match self {
            Form::Bool => b"bool=",
            Form::Char => b"char=",
            Form::Num => b"num=",
            Form::Str => b"str=",
            Form::Sym => b"sym=",
            Form::Ident => b"ident=",
            Form::Nil => b"nil=",
            Form::Eof => b"eof=",
            Form::Undef => b"undef=",
            Form::Void => b"void=",
            Form::Pair => b"pair=",
            Form::Vec => b"vec=",
            Form::Def => b"def=",
            Form::Ref => b"ref=",
        }
    }

    // The value of a line of the form.
    #[tactic(auto, unfolding(rules::specs::Sheet::sheet_rules, sheet_nodes::specs::Written::written_words, crate::specs::Lines::lines_words))]
    fn write(self, value: &[u8], out: &mut [u8], at: usize) -> Option<Node>
        requires { at + 9 + length value.now ≤ length out.old }
        ensures { Lined out.old at ((form_of self).read value.now) out.new result }
    {
        match self {
            Form::Bool => sheet_nodes::numbered(4, value, out, at),
            Form::Char => sheet_nodes::numbered(5, value, out, at),
            Form::Num => sheet_nodes::signed_number(value, out, at),
            Form::Str => sheet_nodes::hexed(7, value, out, at),
            Form::Sym => sheet_nodes::hexed(8, value, out, at),
            Form::Ident => scoped(value, out, at),
            Form::Nil => sheet_nodes::bare(1, 0, value, out, at),
            Form::Eof => sheet_nodes::bare(2, 0, value, out, at),
            Form::Undef => sheet_nodes::bare(0, 0, value, out, at),
            Form::Void => sheet_nodes::bare(3, 0, value, out, at),
            Form::Pair => sheet_nodes::bare(9, 2, value, out, at),
            Form::Vec => sheet_nodes::numbered(10, value, out, at),
            Form::Def => sheet_nodes::numbered(12, value, out, at),
            Form::Ref => sheet_nodes::numbered(13, value, out, at),
        }
    }
}

// The first form whose key the line begins with, and the value behind the key.
fn find_form(line: &[u8]) -> Option<(Form, &[u8])>
    ensures { FormRead line.now result }
{
    for form in FORMS {
        if let Some(value) = sheet_keys::after(line, form.key()) {
            return Some((form, value));
        }
    }
    None
}

// SCOPE:HEX, with the colon at a place.
fn scoped_at(value: &[u8], p: usize, out: &mut [u8], at: usize) -> Option<Node>
    requires p_in_bounds { p < length value.now }
    requires value_in_bounds { at + 9 + length value.now ≤ length out.old }
    ensures { Lined out.old at (scoped_at value.now p) out.new result }
{
    let scope = text_decimals::unsigned32(&value[..p])?;
    sheet_nodes::ident(scope, &value[p + 1..], out, at)
}

// SCOPE:HEX
fn scoped(value: &[u8], out: &mut [u8], at: usize) -> Option<Node>
    requires { at + 9 + length value.now ≤ length out.old }
    ensures { Lined out.old at (rules.scoped value.now) out.new result }
{
    let p = sheet_keys::find(value, 0, b':')?;
    scoped_at(value, p, out, at)
}

// A node line, written out from a place on.
pub fn node_line(line: &[u8], out: &mut [u8], at: usize) -> Option<Node>
    requires { at + 9 + length line.now ≤ length out.old }
    ensures { Lined out.old at (rules.node_line line.now) out.new result }
{
    let (form, value) = find_form(line)?;
    form.write(value, out, at)
}
