// The actions, as they are recorded.
ghost use Rattle.std.specs.Prelude.{◌≡◌, ◌<◌, ◌≤◌, ◌+◌, ◌++◌, ◌∷◌, [], ℕ, List, OnOk};
ghost use Rattle.gs_idl.specs.Interface.{params_at};
ghost use Rattle.gs_graph.specs.Graph.{actions_in, SameTasks};
ghost use Rattle.gs_names.specs.Table.{names_in, writes_in, spare_in};
ghost use Rattle.gs_talk.specs.Actions.{Act, Call, Use, Read, Write, Barrier, names_where};
ghost use Rattle.gs_idl.specs.Interface.{reads_file, writes_file};
ghost use Rattle.gs_tables.specs.Marks.{with_names, named_by, AreMade};

use crate::places::{number, number_all};
use gs_graph::Graph;
use gs_idl::Idl;
use gs_names::NameTable;
use gs_talk::CallArg;
use gs_types::{Action, Name, NoMemory};
use std::alloc::Global;

/// Records a call of task `n`.
pub(crate) fn mark_call(
    alloc: Global,
    names: &mut NameTable,
    graph: &mut Graph,
    idl: &Idl,
    op: u8,
    n: u32,
    args: &[CallArg],
) -> Result<(), NoMemory>
    ensures names { let ps = params_at idl.now.ops op in OnOk result (names_in names.new
        ≡ with_names (names_in names.old) (named_by (Call n op
        (names_where reads_file ps args.now) (names_where writes_file ps args.now)))) }
    ensures made { let ps = params_at idl.now.ops op in (acts : List Act) →
        AreMade (names_in names.old) (actions_in graph.old) acts →
        OnOk result (AreMade (names_in names.new) (actions_in graph.new)
        (acts ++ Call n op (names_where reads_file ps args.now)
        (names_where writes_file ps args.now) ∷ [])) }
    ensures writes { writes_in names.new ≡ writes_in names.old }
    ensures tasks { SameTasks graph.old graph.new }
{
    let reads = number_all(alloc, names, idl, op, args, true)?;
    let writes = number_all(alloc, names, idl, op, args, false)?;
    graph.note(Action::Call {
        n,
        op,
        reads,
        writes,
    })
}

/// Records the first use of what task `n` gave at a place, from 1.
pub(crate) fn mark_use(graph: &mut Graph, n: u32, place: u8) -> Result<(), NoMemory>
    ensures made { (names : List (List ℕ)) (acts : List Act) →
        AreMade names (actions_in graph.old) acts →
        OnOk result (AreMade names (actions_in graph.new) (acts ++ Use n place ∷ [])) }
    ensures tasks { SameTasks graph.old graph.new }
{
    graph.note(Action::Use { n, place })
}

/// Records a wait for all tasks.
pub(crate) fn mark_barrier(graph: &mut Graph) -> Result<(), NoMemory>
    ensures made { (names : List (List ℕ)) (acts : List Act) →
        AreMade names (actions_in graph.old) acts →
        OnOk result (AreMade names (actions_in graph.new) (acts ++ Barrier ∷ [])) }
    ensures tasks { SameTasks graph.old graph.new }
{
    graph.note(Action::Barrier)
}

/// Records that a file was opened.
pub(crate) fn mark_read(
    names: &mut NameTable,
    graph: &mut Graph,
    name: &Name,
) -> Result<(), NoMemory>
    ensures names { OnOk result (names_in names.new
        ≡ with_names (names_in names.old) (name.now ∷ [])) }
    ensures made { (acts : List Act) → AreMade (names_in names.old) (actions_in graph.old) acts →
        OnOk result (AreMade (names_in names.new) (actions_in graph.new)
        (acts ++ Read name.now ∷ [])) }
    ensures writes { writes_in names.new ≡ writes_in names.old }
    ensures tasks { SameTasks graph.old graph.new }
{
    let name = number(names, name)?;
    graph.note(Action::Read { name })
}

/// Records that a file was closed.
pub(crate) fn mark_write(
    names: &mut NameTable,
    graph: &mut Graph,
    name: &Name,
) -> Result<(), NoMemory>
    ensures names { OnOk result (names_in names.new
        ≡ with_names (names_in names.old) (name.now ∷ [])) }
    ensures made { (acts : List Act) → AreMade (names_in names.old) (actions_in graph.old) acts →
        OnOk result (AreMade (names_in names.new) (actions_in graph.new)
        (acts ++ Write name.now ∷ [])) }
    ensures writes { writes_in names.new ≡ writes_in names.old }
    ensures spare { spare_in names.new ≡ spare_in names.old }
    ensures tasks { SameTasks graph.old graph.new }
{
    let name = number(names, name)?;
    graph.note(Action::Write { name })
}
