// The operations that a line of a worker list gives.
ghost use Rattle.std.specs.Prelude.{◌≡◌, map, replicate, true, false, IfOk};
ghost use Rattle.gs_idl.specs.Interface.{IsWellFormed};
ghost use Rattle.gs_broker.specs.Text.{stands, star, is_star, are_operations};
ghost use Rattle.gs_broker.specs.Reading.{spelled, marked, AreMarked};

use gs_idl::Idl;
use std::alloc::{AllocError, Global};

/// How often words name operations.
#[derive(Clone, Copy, PartialEq, Eq, Debug)]
pub(crate) enum Marked {
    Once,
    Again,
    Unknown,
}

// Whether the word stands among these.
pub(crate) fn stands(word: &[u8], words: &[&[u8]]) -> bool
    ensures { result ≡ stands word.now (spelled words.now) }
{
    for other in words {
        if word == *other {
            return true;
        }
    }
    false
}

// Whether the only word is `*`.
pub(crate) fn is_star(words: &[&[u8]]) -> bool
    ensures { result ≡ is_star (spelled words.now) }
{
    match words {
        [word] => *word == b"*".as_slice(),
        _ => false,
    }
}

// Whether there is a word, and a `*` only alone.
pub(crate) fn are_operations(words: &[&[u8]]) -> bool
    ensures { result ≡ are_operations (spelled words.now) }
{
    !words.is_empty() && (is_star(words) || !stands(b"*", words))
}

fn alike(alloc: Global, taken: bool, count: usize) -> Result<Vec<bool>, AllocError>
    ensures { IfOk result (λ v. v.items ≡ replicate count taken) }
{
    vec![in alloc; taken; count]
}

// All operations are taken, or none.
pub(crate) fn each_taken(alloc: Global, idl: &Idl, taken: bool) -> Result<Vec<bool>, AllocError>
    ensures each { IfOk result (λ v. v.items ≡ map (λ o. taken) idl.now.ops) }
    ensures well_formed { IsWellFormed idl.now }
{
    alike(alloc, taken, idl.op_count() as usize)
}

// Marks the operations that the words name, of which none is marked yet.
pub(crate) fn mark_all(words: &[&[u8]], idl: &Idl, takes: &mut Vec<bool>) -> Marked
    requires none { takes.old.items ≡ map (λ o. false) idl.now.ops }
    requires well_formed { IsWellFormed idl.now }
    ensures { AreMarked idl.now.ops (spelled words.now) takes.new.items result }
{
    let mut again = false;
    for word in words {
        let Some(op) = idl.find(word) else {
            return Marked::Unknown;
        };
        let op = op as usize;
        again = again || takes[op];
        takes[op] = true;
    }
    if again { Marked::Again } else { Marked::Once }
}
