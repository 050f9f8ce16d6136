// Which calls of a program no worker serves.
ghost use Rattle.std.specs.Prelude.{◌≡◌, MatchOption, None};
ghost use Rattle.gs_broker.specs.Listed.{entries_in};
ghost use Rattle.gs_tree.specs.View.{code_of, codes_of, name_of};
ghost use Rattle.gs_run.specs.Unserved.{is_taken, unserved_name, unserved_code, unserved};

use gs_broker::Workers;
use gs_idl::Idl;
use gs_tree::{Ident, Stmt};

/// Whether some worker takes the operation.
fn is_taken(workers: &Workers, op: u8) -> bool
    ensures { result ≡ is_taken (entries_in workers.now) op }
{
    for w in 0..workers.count() {
        if workers.takes(w, op) {
            return true;
        }
    }
    false
}

/// The line of a call whose operation no worker takes.
fn call_line(op: &Ident, idl: &Idl, workers: &Workers) -> Option<u32>
    ensures { result ≡ unserved_name idl.now.ops (entries_in workers.now) (name_of op.now) }
{
    match idl.find(op.name.as_slice()) {
        Some(place) if is_taken(workers, place) => None,
        _ => Some(op.line),
    }
}

/// The line of the first call of these statements whose operation no worker takes.
#[cycle(calls)]
pub(crate) fn first_unserved(body: &[Stmt], idl: &Idl, workers: &Workers) -> Option<u32>
    ensures { result ≡ unserved idl.now.ops (entries_in workers.now) (codes_of body.now) }
{
    for s in body {
        let found = statement_line(s, idl, workers);
        if found.is_some() {
            return found;
        }
    }
    None
}

#[cycle(calls)]
fn statement_line(s: &Stmt, idl: &Idl, workers: &Workers) -> Option<u32>
    ensures { result ≡ unserved_code idl.now.ops (entries_in workers.now) (code_of s.now) }
{
    match s {
        Stmt::Block { body, .. } => first_unserved(body, idl, workers),
        Stmt::If { yes, no, .. } => {
            first_unserved(yes, idl, workers).or(else_line(no, idl, workers))
        }
        Stmt::While { body, .. } => first_unserved(body, idl, workers),
        Stmt::For { body, .. } => first_unserved(body, idl, workers),
        Stmt::Call { op, .. } => call_line(op, idl, workers),
        Stmt::Empty { .. }
        | Stmt::Set { .. }
        | Stmt::OpenFile { .. }
        | Stmt::ReadLine { .. }
        | Stmt::CloseFile { .. }
        | Stmt::Barrier { .. }
        | Stmt::Print { .. }
        | Stmt::PrintFile { .. }
        | Stmt::PrintStr { .. } => None,
    }
}

// What stands after an `else`, where one stands.
#[cycle(calls)]
fn else_line(no: &Option<Vec<Stmt>>, idl: &Idl, workers: &Workers) -> Option<u32>
    ensures { MatchOption no.now (result ≡ None) (λ body. result
        ≡ unserved idl.now.ops (entries_in workers.now) (codes_of body.items)) }
{
    match no {
        Some(body) => first_unserved(body, idl, workers),
        None => None,
    }
}
