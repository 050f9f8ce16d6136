// The lines of variables.
ghost use Rattle.std.specs.Prelude.{◌≡◌, ◌++◌, OnOk};
ghost use Rattle.std.specs.List.{flat_map};
ghost use Rattle.gs_report.specs.Report.{escaped, quoted, value_text, var_line};

use crate::put::{put, put_signed};
use gs_types::{Note, VarNote};
use std::alloc::{AllocError, Global};

fn put_byte(text: &mut Vec<u8>, b: u8) -> Result<(), AllocError>
    ensures { OnOk result (text.new.items ≡ text.old.items ++ escaped b) }
{
    match b {
        b'\n' => put(text, b"\\n"),
        b'\t' => put(text, b"\\t"),
        b'\r' => put(text, b"\\r"),
        b'\\' => put(text, b"\\\\"),
        b'"' => put(text, b"\\\""),
        _ => {
            text.push(b)?;
            Ok(())
        }
    }
}

fn put_bytes(text: &mut Vec<u8>, bytes: &[u8]) -> Result<(), AllocError>
    ensures { OnOk result (text.new.items ≡ text.old.items ++ flat_map escaped bytes.now) }
{
    for b in bytes {
        put_byte(text, *b)?;
    }
    Ok(())
}

fn put_quoted(text: &mut Vec<u8>, bytes: &[u8]) -> Result<(), AllocError>
    ensures { OnOk result (text.new.items ≡ text.old.items ++ quoted bytes.now) }
{
    put(text, b"\"")?;
    put_bytes(text, bytes)?;
    put(text, b"\"")
}

fn put_value(alloc: Global, text: &mut Vec<u8>, v: &Note) -> Result<(), AllocError>
    ensures { OnOk result (text.new.items ≡ text.old.items ++ value_text v.now) }
{
    match v {
        Note::File { .. } => Ok(()),
        Note::Int { v } => put_signed(alloc, text, *v),
        Note::Str { s } => put_quoted(text, s.bytes()),
    }
}

fn put_var(alloc: Global, text: &mut Vec<u8>, v: &VarNote) -> Result<(), AllocError>
    ensures { OnOk result (text.new.items ≡ text.old.items ++ var_line v.now) }
{
    put(text, b"var ")?;
    put(text, v.name.bytes())?;
    put(text, b" ")?;
    put_value(alloc, text, &v.v)?;
    put(text, b"\n")
}

/// The lines of variables.
pub fn put_vars(alloc: Global, text: &mut Vec<u8>, vars: &[VarNote]) -> Result<(), AllocError>
    ensures { OnOk result (text.new.items ≡ text.old.items ++ flat_map var_line vars.now) }
{
    for v in vars {
        put_var(alloc, text, v)?;
    }
    Ok(())
}
