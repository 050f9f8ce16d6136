// The pairs of each task that is followed.
ghost use Rattle.std.specs.Prelude.{◌≡◌, ◌<◌, ℕ, length, replicate, slice_index, None, IfOk};
ghost use Rattle.gs_plan.specs.Ties.{IsIndex};

use std::alloc::{AllocError, Global};

/// The pairs by the task that is followed: the last pair of each task, and before each pair the one
/// of the same task.
#[derive(Drop)]
pub(crate) struct Links {
    pub heads: Vec<Option<usize>>,
    pub links: Vec<Option<usize>>,
}

fn no_pairs(alloc: Global, count: usize) -> Result<Vec<Option<usize>>, AllocError>
    ensures { IfOk result (λ v. v.items ≡ replicate count None) }
{
    vec![in alloc; None; count]
}

/// Links the pairs of each task.
pub(crate) fn links_of(alloc: Global, befores: &[u32], tasks: usize) -> Result<Links, AllocError>
    requires inside { (e : ℕ) → e < length befores.now → slice_index befores.now e < tasks }
    ensures { IfOk result (λ l.
        IsIndex befores.now tasks (length befores.now) l.heads.items l.links.items) }
{
    let mut heads = no_pairs(alloc, tasks)?;
    let mut links = no_pairs(alloc, befores.len())?;
    for e in 0..befores.len() {
        let before = befores[e] as usize;
        links[e] = heads[before];
        heads[before] = Some(e);
    }
    Ok(Links { heads, links })
}
