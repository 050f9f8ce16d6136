// Which task follows which, as lists.

/// Tasks are told by their places, from 0. Task `afters[e]` truly depends on task `befores[e]`.
/// `needed` has the tasks that actions between the calls need, in the order of the actions;
/// `waits[j]` says how many of them stand before the call of task j, which follows each of these.
#[derive(Drop)]
pub(crate) struct Ties {
    pub befores: Vec<u32>,
    pub afters: Vec<u32>,
    pub needed: Vec<u32>,
    pub waits: Vec<usize>,
}
