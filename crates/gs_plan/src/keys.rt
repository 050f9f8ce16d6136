// Keys of places, with the first place that has a key within a limit.
ghost use Rattle.std.specs.Prelude.{◌≡◌, ◌≢◌, ◌+◌, ◌*◌, ◌^◌, ◌<◌, ◌≤◌, ℕ, length, slice_index, slice_set, replicate, IfOk};
ghost use Rattle.gs_plan.specs.Keys.{IsTree, IsLeast, IsFirstWithin, leaves};

use std::alloc::{AllocError, Global};
use std::marker::Model;

/// The key of a place that can't be chosen: no other key is as great.
pub(crate) const NEVER: u64 = 0xffff_ffff_ffff_ffff;

/// Keys of 2^levels places. To set a key, and to find the first place within a limit, takes as many
/// steps as there are levels.
#[derive(Drop)]
pub(crate) struct Keys {
    nodes: Vec<u64>,
    levels: u32,
}

impl Model for Keys {
    ghost use Rattle.std.specs.Prelude.{ℕ, List, ◌≤◌};
    ghost use Rattle.gs_plan.specs.Keys.{IsTree, leaves};

    ghost Value = { List ℕ };

    ghost view = { λ k. leaves k.nodes.items k.levels };

    ghost invariant = { λ k. IsTree k.nodes.items k.levels × (k.levels ≤ 16) };
}

fn same_keys(alloc: Global, count: usize, key: u64) -> Result<Vec<u64>, AllocError>
    ensures { IfOk result (λ v. v.items ≡ replicate count key) }
{
    vec![in alloc; key; count]
}

// Gives a leaf a key, and each node above it the least of its two.
fn set_leaf(nodes: &mut Vec<u64>, levels: u32, place: usize, key: u64)
    requires tree { IsTree nodes.old.items levels }
    requires small { levels ≤ 16 }
    requires inside { place < 2 ^ levels }
    ensures tree { IsTree nodes.new.items levels }
    ensures leaf { leaves nodes.new.items levels
        ≡ slice_set (leaves nodes.old.items levels) place key }
{
    let leaf = nodes.len() / 2 + place;
    nodes[leaf] = key;
    let mut node = leaf / 2;
    while node > 0 {
        let left = nodes[2 * node];
        let right = nodes[2 * node + 1];
        nodes[node] = left.min(right);
        node /= 2;
    }
}

// The first leaf with a key within the limit.
fn first_leaf(nodes: &Vec<u64>, levels: u32, limit: u64) -> usize
    requires tree { IsTree nodes.now.items levels }
    requires small { levels ≤ 16 }
    requires some { slice_index nodes.now.items 1 ≤ limit }
    ensures { IsFirstWithin (leaves nodes.now.items levels) limit result }
{
    let mut node = 1;
    for _level in 0..levels {
        node *= 2;
        if nodes[node] > limit {
            node += 1;
        }
    }
    node - nodes.len() / 2
}

impl Keys {
    ghost use Rattle.std.specs.Prelude.{◌≡◌, ◌<◌, ◌≤◌, ◌^◌, ℕ, length, slice_index, slice_set, replicate, IfOk};
    ghost use Rattle.gs_plan.specs.declared.keys.TheConstants.{NEVER};
    ghost use Rattle.gs_plan.specs.Keys.{IsLeast, IsFirstWithin};

    /// Keys of which none can be chosen, of 2^levels places.
    pub(crate) fn new(alloc: Global, levels: u32) -> Result<Keys, AllocError>
        requires { levels ≤ 16 }
        ensures { IfOk result (λ k. k ≡ replicate (2 ^ levels) NEVER) }
    {
        let nodes = same_keys(alloc, 2 << levels, NEVER)?;
        Ok(Keys { nodes, levels })
    }

    /// Gives a place a key.
    pub(crate) fn set(&mut self, place: usize, key: u64)
        requires { place < length self.old }
        ensures { self.new ≡ slice_set self.old place key }
    {
        set_leaf(&mut self.nodes, self.levels, place, key);
    }

    /// The least key.
    pub(crate) fn least(&self) -> u64
        ensures { IsLeast self.now result }
    {
        self.nodes[1]
    }

    /// The first place with a key within the limit, where there is one.
    pub(crate) fn first_within(&self, limit: u64) -> usize
        requires { (k : ℕ) × (k < length self.now) × (slice_index self.now k ≤ limit) }
        ensures { IsFirstWithin self.now limit result }
    {
        first_leaf(&self.nodes, self.levels, limit)
    }
}
