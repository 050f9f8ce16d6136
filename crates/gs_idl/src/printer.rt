// The printed form.
ghost use Rattle.std.specs.Prelude.{◌≡◌, ◌++◌, map, IfOk, OnOk};
ghost use Rattle.gs_idl.specs.Grammar.{dir_word, kind_word};
ghost use Rattle.gs_idl.specs.Printed.{param_text, more_text, params_text, op_text, ops_text, printed};
ghost use Rattle.gs_idl.specs.View.{param_of, op_of};

use crate::idl::{Operation, Parameter};
use crate::{Dir, Idl, NoMemory, ParamKind};
use std::alloc::Global;

fn put(out: &mut Vec<u8>, text: &[u8]) -> Result<(), NoMemory>
    ensures { OnOk result (out.new.items ≡ out.old.items ++ text.now) }
{
    out.extend_from_slice(text)?;
    Ok(())
}

fn dir_word(dir: Dir) -> &'static [u8]
    ensures { result.now ≡ dir_word dir }
{
    match dir {
        Dir::Input => b"in",
        Dir::Both => b"inout",
        Dir::Output => b"out",
    }
}

fn kind_word(kind: ParamKind) -> &'static [u8]
    ensures { result.now ≡ kind_word kind }
{
    match kind {
        ParamKind::File => b"File",
        ParamKind::Int => b"int",
        ParamKind::Str => b"string",
    }
}

fn put_param(out: &mut Vec<u8>, param: &Parameter) -> Result<(), NoMemory>
    ensures { OnOk result (out.new.items ≡ out.old.items ++ param_text (param_of param.now)) }
{
    put(out, dir_word(param.dir))?;
    put(out, b" ")?;
    put(out, kind_word(param.kind))?;
    put(out, b" ")?;
    put(out, param.name.as_slice())?;
    Ok(())
}

fn put_more(out: &mut Vec<u8>, params: &[Parameter]) -> Result<(), NoMemory>
    ensures { OnOk result (out.new.items ≡ out.old.items ++ more_text (map param_of params.now)) }
{
    for param in params {
        put(out, b", ")?;
        put_param(out, param)?;
    }
    Ok(())
}

fn put_params(out: &mut Vec<u8>, params: &[Parameter]) -> Result<(), NoMemory>
    ensures { OnOk result (out.new.items ≡ out.old.items ++ params_text (map param_of params.now)) }
{
    let [first, more @ ..] = params else {
        return Ok(());
    };
    put_param(out, first)?;
    put_more(out, more)?;
    Ok(())
}

fn put_op(out: &mut Vec<u8>, op: &Operation) -> Result<(), NoMemory>
    ensures { OnOk result (out.new.items ≡ out.old.items ++ op_text (op_of op.now)) }
{
    put(out, b"    void ")?;
    put(out, op.name.as_slice())?;
    put(out, b"(")?;
    put_params(out, op.params.as_slice())?;
    put(out, b");\n")?;
    Ok(())
}

fn put_ops(out: &mut Vec<u8>, ops: &[Operation]) -> Result<(), NoMemory>
    ensures { OnOk result (out.new.items ≡ out.old.items ++ ops_text (map op_of ops.now)) }
{
    for op in ops {
        put_op(out, op)?;
    }
    Ok(())
}

/// The printed form of an interface: one operation on a line, four blanks in.
#[tactic(auto, unfolding(crate::specs::Printed::printed))]
pub fn print(alloc: Global, idl: &Idl) -> Result<Vec<u8>, NoMemory>
    ensures { IfOk result (λ text. text.items ≡ printed idl.now) }
{
    let mut out = Vec::new(alloc);
    put(&mut out, b"interface ")?;
    put(&mut out, idl.name.as_slice())?;
    put(&mut out, b" {\n")?;
    put_ops(&mut out, idl.ops.as_slice())?;
    put(&mut out, b"};\n")?;
    Ok(out)
}
