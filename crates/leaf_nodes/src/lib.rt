// One node at the start of a lent datum. Document 01, "What a caller is told", row 11: "unknown kind, cut short, .. Bool
// not 0 or 1, Char or UTF-8 not allowed". A node is its kind's number, then its fields, lowest byte first, as rules'
// Nodes says; a text stands inline, behind its length.
#![tactic(auto)]

ghost use Rattle.std.specs.Prelude.{◌≡◌, List, ℕ, true, IfOk};
ghost use Rattle.rules.specs.Nodes.{bool_node, char_node};
ghost use Rattle.leaf_nodes.specs.Reads.{FieldRead, TextRead, ReadAs, is_scalar, value_reading};

use leaf_cells::Value;

// What is wrong with a malformed datum. Left over is for a whole datum: no single node is.
#[derive(Clone, Copy, Debug, PartialEq, Eq)]
pub enum Fault {
    UnknownKind,
    CutShort,
    LeftOver,
    BadBool,
    BadChar,
    BadUtf8,
}

// A plain node is a scalar, never a slot. String, symbol and identifier (after its scope) have their text's length; a vector
// how many data follow; reference and definition their label.
#[derive(Clone, Copy)]
pub enum Node {
    Plain(Value),
    String(usize),
    Symbol(usize),
    Ident(u64, usize),
    Ref(u64),
    Pair,
    Vector(usize),
    Def(u64),
}

// A node and the bytes that it takes, of which its text is the last.
#[derive(Clone, Copy)]
pub struct Read {
    pub node: Node,
    pub size: usize,
}

// The field of 4 bytes at the start.
fn first_u32(bytes: &[u8]) -> Result<u64, Fault>
    ensures { FieldRead 4 bytes.now result }
{
    let Some((field, _)) = bytes.split_first_chunk::<4>() else {
        return Err(Fault::CutShort);
    };
    Ok(u64::from(u32::from_le_bytes(*field)))
}

// The field of 8 bytes at the start.
fn first_u64(bytes: &[u8]) -> Result<u64, Fault>
    ensures { FieldRead 8 bytes.now result }
{
    let Some((field, _)) = bytes.split_first_chunk::<8>() else {
        return Err(Fault::CutShort);
    };
    Ok(u64::from_le_bytes(*field))
}

// "Bool not 0 or 1"
fn bool_value(n: u64) -> Result<Value, Fault>
    ensures value { (rest : List ℕ) → value_reading result rest ≡ bool_node n rest }
    ensures scalar { IfOk result (λ v. is_scalar v ≡ true) }
{
    match n {
        0 => Ok(Value::Bool(false)),
        1 => Ok(Value::Bool(true)),
        _ => Err(Fault::BadBool),
    }
}

// "a Char is a Unicode scalar value"
fn char_value(n: u64) -> Result<Value, Fault>
    ensures value { (rest : List ℕ) → value_reading result rest ≡ char_node n rest }
    ensures scalar { IfOk result (λ v. is_scalar v ≡ true) }
{
    if leaf_utf8::is_scalar_value(n) {
        Ok(Value::Char(n))
    } else {
        Err(Fault::BadChar)
    }
}

// The length of the text behind it. That length may exceed every lent one, so it is held against the bytes left.
fn text_size(bytes: &[u8]) -> Result<usize, Fault>
    ensures { TextRead bytes.now result }
{
    let size = first_u32(bytes)? as usize;
    let left = &bytes[4..];
    if left.len() < size {
        return Err(Fault::CutShort);
    }
    if leaf_utf8::is_utf8(&left[..size]) {
        Ok(size)
    } else {
        Err(Fault::BadUtf8)
    }
}

fn sized(node: Node, size: usize) -> Read
    ensures { result ≡ record { node = node; size = size } }
{
    Read { node, size }
}

// The node at the start of a datum.
pub fn read_node(datum: &[u8]) -> Result<Read, Fault>
    ensures { ReadAs datum.now result }
{
    let Some((kind, rest)) = datum.split_first() else {
        return Err(Fault::CutShort);
    };
    // Kept: the kinds' numbers stand here once; an enum with TryFrom would say each a second time.
    match *kind {
        0 => Ok(sized(Node::Plain(Value::Undefined), 1)),
        1 => Ok(sized(Node::Plain(Value::Nil), 1)),
        2 => Ok(sized(Node::Plain(Value::Eof), 1)),
        3 => Ok(sized(Node::Plain(Value::Void), 1)),
        4 => Ok(sized(Node::Plain(bool_value(first_u32(rest)?)?), 5)),
        5 => Ok(sized(Node::Plain(char_value(first_u32(rest)?)?), 5)),
        6 => Ok(sized(Node::Plain(Value::Number(first_u64(rest)?)), 9)),
        7 => {
            let n = text_size(rest)?;
            Ok(sized(Node::String(n), n + 5))
        }
        8 => {
            let n = text_size(rest)?;
            Ok(sized(Node::Symbol(n), n + 5))
        }
        9 => Ok(sized(Node::Pair, 1)),
        10 => Ok(sized(Node::Vector(first_u32(rest)? as usize), 5)),
        11 => {
            let scope = first_u32(rest)?;
            let n = text_size(&rest[4..])?;
            Ok(sized(Node::Ident(scope, n), n + 9))
        }
        12 => Ok(sized(Node::Def(first_u32(rest)?), 5)),
        13 => Ok(sized(Node::Ref(first_u32(rest)?), 5)),
        _ => Err(Fault::UnknownKind),
    }
}
