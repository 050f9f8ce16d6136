// Interfaces.
ghost use Rattle.std.specs.Prelude.{◌≡◌, ◌+◌, ◌<◌, length, map, drop, slice_get, Some, IfSome, option_map};
ghost use Rattle.gs_idl.specs.Interface.{IsWellFormed, op_place, name_at, params_at};
ghost use Rattle.gs_idl.specs.View.{op_of, param_of};

use std::marker::Model;

/// The direction of a parameter: `in`, `inout` and `out`.
#[derive(Clone, Copy, Debug, PartialEq, Eq)]
pub enum Dir {
    Input,
    Both,
    Output,
}

/// The kind of a parameter: `File`, `int` and `string`.
#[derive(Clone, Copy, Debug, PartialEq, Eq)]
pub enum ParamKind {
    File,
    Int,
    Str,
}

#[derive(Drop)]
pub(crate) struct Parameter {
    pub dir: Dir,
    pub kind: ParamKind,
    pub name: Vec<u8>,
}

#[derive(Drop)]
pub(crate) struct Operation {
    pub name: Vec<u8>,
    pub params: Vec<Parameter>,
}

/// An interface: 1 to 64 operations, each with 1 to 16 parameters.
#[derive(Drop)]
pub struct Idl {
    pub(crate) name: Vec<u8>,
    pub(crate) ops: Vec<Operation>,
}

impl Model for Idl {
    ghost use Rattle.gs_idl.specs.Interface.{Interface};
    ghost use Rattle.gs_idl.specs.View.{interface_by};
    ghost use Rattle.gs_idl.specs.Interface.{IsWellFormed};

    ghost Value = { Interface };

    ghost view = { λ i. interface_by i.name i.ops };

    ghost invariant = { λ i. IsWellFormed (interface_by i.name i.ops) };
}

/// The place of the first operation with this name.
fn place_of(ops: &[Operation], name: &[u8]) -> Option<usize>
    ensures first { result ≡ op_place (map op_of ops.now) name.now }
    ensures within { IfSome result (λ i. i < length ops.now) }
{
    for (i, op) in ops.iter().enumerate() {
        if op.name.as_slice() == name {
            return Some(i);
        }
    }
    None
}

fn name_of(ops: &[Operation], op: usize) -> &[u8]
    requires { op < length ops.now }
    ensures { result.now ≡ name_at (map op_of ops.now) op }
{
    ops[op].name.as_slice()
}

fn params_of(ops: &[Operation], op: usize) -> &[Parameter]
    requires { op < length ops.now }
    ensures { map param_of result.now ≡ params_at (map op_of ops.now) op }
{
    ops[op].params.as_slice()
}

impl Idl {
    /// The number of operations, 1 to 64.
    pub fn op_count(&self) -> u8
        ensures value { result ≡ length self.now.ops }
        ensures well_formed { IsWellFormed self.now }
    {
        self.ops.len() as u8
    }

    /// The name of an operation, 1 to 64 bytes.
    pub fn op_name(&self, op: u8) -> &[u8]
        requires { op < length self.now.ops }
        ensures { result.now ≡ name_at self.now.ops op }
    {
        name_of(self.ops.as_slice(), op as usize)
    }

    /// The number of parameters of an operation, 1 to 16.
    pub fn param_count(&self, op: u8) -> u8
        requires { op < length self.now.ops }
        ensures { result ≡ length (params_at self.now.ops op) }
    {
        params_of(self.ops.as_slice(), op as usize).len() as u8
    }

    /// The direction and the kind of a parameter of an operation.
    pub fn param(&self, op: u8, i: u8) -> (Dir, ParamKind)
        requires { i < length (params_at self.now.ops op) }
        ensures dir { option_map (λ p. p.dir) (slice_get (params_at self.now.ops op) i)
            ≡ Some result.0 }
        ensures kind { option_map (λ p. p.kind) (slice_get (params_at self.now.ops op) i)
            ≡ Some result.1 }
    {
        let param = &params_of(self.ops.as_slice(), op as usize)[i as usize];
        (param.dir, param.kind)
    }

    /// The first operation with this name; `None` exactly where none has it.
    pub fn find(&self, name: &[u8]) -> Option<u8>
        ensures first { result ≡ op_place self.now.ops name.now }
        ensures within { IfSome result (λ i. i < length self.now.ops) }
    {
        match place_of(self.ops.as_slice(), name) {
            Some(i) => Some(i as u8),
            None => None,
        }
    }
}
