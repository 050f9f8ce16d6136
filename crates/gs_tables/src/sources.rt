// The tasks whose outputs a task reads.
ghost use Rattle.std.specs.Prelude.{◌≡◌, ◌<◌, ◌++◌, All, IfOk, OnOk};
ghost use Rattle.gs_tables.specs.Sources.{source_of, sources};

use gs_types::{NoMemory, Version};
use std::alloc::Global;

fn add_source(list: &mut Vec<u32>, n: u32, v: &Option<Version>) -> Result<(), NoMemory>
    requires { All (λ p. (0 < p) × (p < n)) list.old.items }
    ensures items { OnOk result (list.new.items ≡ list.old.items ++ source_of n v.now) }
    ensures earlier { OnOk result (All (λ p. (0 < p) × (p < n)) list.new.items) }
{
    match v {
        Some(Version::Out { n: m, place: _ }) => {
            if 0 < *m && *m < n {
                list.push(*m)?;
            }
            Ok(())
        }
        _ => Ok(()),
    }
}

/// The tasks before task `n` whose outputs these are, in the order of the places.
pub(crate) fn sources_of(
    alloc: Global,
    n: u32,
    reads: &[Option<Version>],
) -> Result<Vec<u32>, NoMemory>
    ensures items { IfOk result (λ ps. ps.items ≡ sources n reads.now) }
    ensures earlier { IfOk result (λ ps. All (λ p. (0 < p) × (p < n)) ps.items) }
{
    let mut list = Vec::new(alloc);
    for v in reads {
        add_source(&mut list, n, v)?;
    }
    Ok(list)
}
