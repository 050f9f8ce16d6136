//! Writing to the end of a text.

ghost use Rattle.std.specs.Prelude.{◌≡◌, ◌++◌, OnOk, ℕ, ◌*◌};
ghost use Rattle.std.specs.Fmt.{signed_decimal};
ghost use Rattle.gs_tree.specs.Printed.{escaped, quoted, line_text, indent_text};

use crate::NoMemory;
use std::alloc::Global;

pub(crate) fn put(out: &mut Vec<u8>, bytes: &[u8]) -> Result<(), NoMemory>
    ensures { OnOk result (out.new.items ≡ out.old.items ++ bytes.now) }
{
    out.extend_from_slice(bytes)?;
    Ok(())
}

/// Two parts, one after the other.
pub(crate) fn put_two(a: &[u8], b: &[u8], out: &mut Vec<u8>) -> Result<(), NoMemory>
    ensures { OnOk result (out.new.items ≡ out.old.items ++ (a.now ++ b.now)) }
{
    put(out, a)?;
    put(out, b)
}

pub(crate) fn put_number(alloc: Global, v: i64, out: &mut Vec<u8>) -> Result<(), NoMemory>
    ensures { OnOk result (out.new.items ≡ out.old.items ++ signed_decimal v) }
{
    let digits = format!(in alloc; "{v}")?;
    put(out, digits.as_bytes())
}

fn put_escaped(b: u8, out: &mut Vec<u8>) -> Result<(), NoMemory>
    ensures { OnOk result (out.new.items ≡ out.old.items ++ escaped b) }
{
    match b {
        b'\n' => put(out, b"\\n"),
        b'\t' => put(out, b"\\t"),
        b'\r' => put(out, b"\\r"),
        b'\\' => put(out, b"\\\\"),
        b'"' => put(out, b"\\\""),
        _ => put(out, &[b]),
    }
}

pub(crate) fn put_string(s: &[u8], out: &mut Vec<u8>) -> Result<(), NoMemory>
    ensures { OnOk result (out.new.items ≡ out.old.items ++ quoted s.now) }
{
    put(out, b"\"")?;
    for b in s {
        put_escaped(*b, out)?;
    }
    put(out, b"\"")
}

/// The blanks of a level: four each.
pub(crate) fn put_indent(level: usize, out: &mut Vec<u8>) -> Result<(), NoMemory>
    ensures { OnOk result (out.new.items ≡ out.old.items ++ indent_text level) }
{
    for _ in 0..level {
        put(out, b"    ")?;
    }
    Ok(())
}

/// A line of its own.
pub(crate) fn put_line(level: usize, text: &[u8], out: &mut Vec<u8>) -> Result<(), NoMemory>
    ensures { OnOk result (out.new.items ≡ out.old.items ++ line_text level text.now) }
{
    put_indent(level, out)?;
    put(out, text)?;
    put(out, b"\n")
}
