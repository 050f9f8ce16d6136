// The variables of a program by their names.
ghost use Rattle.std.specs.Prelude.{◌≡◌, ◌↔◌, map, None, IfOk, IsNone, option_copied};
ghost use Rattle.gs_tree.specs.View.{var_of, program_of};
ghost use Rattle.gs_talk.specs.declared.slot.Slot.TheVariants.{Held, Due};
ghost use Rattle.gs_talk.specs.Talk.{first_slot};
ghost use Rattle.gs_talk.specs.Variables.{first_variables, kind_named, slot_named, held_in, due_in, with_slot, IsScalar, Takes};

use crate::{Slot, place_of};
use gs_tree::{Tree, Var, VarKind};
use gs_types::{Blob, NoMemory, Text, Value};
use std::alloc::Global;
use std::marker::Model;

/// The variables of a program, in the order of their declaration.
#[derive(Drop)]
pub struct Vars {
    names: Vec<Blob>,
    kinds: Vec<VarKind>,
    slots: Vec<Slot>,
}

impl Model for Vars {
    ghost use Rattle.gs_talk.specs.Variables.{Variables, IsPaired, variables};

    ghost Value = { Variables };

    ghost view = { λ v. variables v.names.items v.kinds.items v.slots.items };

    ghost invariant = { λ v. IsPaired v.names.items v.kinds.items v.slots.items };
}

/// The value that a variable of this kind has at first. A handle's slot holds 0.
pub fn first_slot(alloc: Global, kind: VarKind) -> Result<Slot, NoMemory>
    ensures { IfOk result (λ slot. slot ≡ first_slot kind) }
{
    match kind {
        VarKind::Int | VarKind::Handle => Ok(Slot::Held {
            v: Value::Int { v: 0 },
        }),
        VarKind::Str => match Text::read(alloc, b"") {
            Ok(s) => Ok(Slot::Held {
                v: Value::Str { s },
            }),
            Err(_) => Err(NoMemory),
        },
    }
}

fn first_vars(alloc: Global, vars: &[Var]) -> Result<Vars, NoMemory>
    ensures { IfOk result (λ v. v ≡ first_variables (map var_of vars.now)) }
{
    let mut names = Vec::new(alloc);
    let mut kinds = Vec::new(alloc);
    let mut slots = Vec::new(alloc);
    for var in vars {
        names.push(Blob::copy(alloc, &var.name.name)?)?;
        kinds.push(var.kind)?;
        slots.push(first_slot(alloc, var.kind)?)?;
    }
    Ok(Vars {
        names,
        kinds,
        slots,
    })
}

impl Vars {
    /// Each int and string variable with its first value: 0 or no bytes.
    pub fn new(alloc: Global, tree: &Tree) -> Result<Vars, NoMemory>
        ensures { IfOk result (λ v. v ≡ first_variables (program_of tree.now).vars) }
    {
        first_vars(alloc, &tree.vars)
    }

    pub fn names(&self) -> &[Blob]
        ensures { result.now ≡ self.now.names }
    {
        self.names.as_slice()
    }

    pub fn slots(&self) -> &[Slot]
        ensures { result.now ≡ self.now.slots }
    {
        self.slots.as_slice()
    }

    /// The kind of the variable of this name. None exactly where none is declared.
    pub fn kind(&self, name: &[u8]) -> Option<VarKind>
        ensures { result ≡ kind_named self.now name.now }
    {
        self.kinds.get(place_of(&self.names, name)).copied()
    }

    fn slot(&self, name: &[u8]) -> Option<&Slot>
        ensures { option_copied result ≡ slot_named self.now name.now }
    {
        match self.kind(name) {
            Some(VarKind::Int) => self.slots.get(place_of(&self.names, name)),
            Some(VarKind::Str) => self.slots.get(place_of(&self.names, name)),
            Some(VarKind::Handle) => None,
            None => None,
        }
    }

    /// The value of the variable of this name, which is not pending. None exactly where no int or
    /// string variable has this name.
    pub fn get(&self, name: &[u8]) -> Option<&Value>
        requires { due_in (slot_named self.now name.now) ≡ None }
        ensures value { option_copied result ≡ held_in (slot_named self.now name.now) }
        ensures none { IsNone result ↔ (slot_named self.now name.now ≡ None) }
    {
        match self.slot(name) {
            Some(Slot::Held { v }) => Some(v),
            Some(Slot::Due { n: _, place: _ }) => None,
            None => None,
        }
    }

    /// The task and the place, from 1, that the variable of this name waits for. None exactly where
    /// it is not pending.
    pub fn pending(&self, name: &[u8]) -> Option<(u32, u8)>
        ensures { result ≡ due_in (slot_named self.now name.now) }
    {
        match self.slot(name) {
            Some(Slot::Due { n, place }) => Some((*n, *place)),
            Some(Slot::Held { v: _ }) => None,
            None => None,
        }
    }

    /// The variable of this name has a value from then on. It is not pending then; the others stay
    /// as they were.
    pub fn set(&mut self, name: &[u8], v: Value)
        requires { Takes (kind_named self.old name.now) v }
        ensures { self.new ≡ with_slot self.old name.now (Held v) }
    {
        let i = place_of(&self.names, name);
        self.slots[i] = Slot::Held { v };
    }

    /// The variable of this name waits for task `n`'s value at a place, from 1; the others stay as
    /// they were.
    pub fn pend(&mut self, name: &[u8], n: u32, place: u8)
        requires { IsScalar (kind_named self.old name.now) }
        ensures { self.new ≡ with_slot self.old name.now (Due n place) }
    {
        let i = place_of(&self.names, name);
        self.slots[i] = Slot::Due { n, place };
    }
}
