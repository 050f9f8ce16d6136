// The operations and their names.
ghost use Rattle.std.specs.Prelude.{◌≡◌};
ghost use Rattle.gs_filters.specs.Operations.{name_of, operation_named};

/// A built-in operation on files.
#[derive(Clone, Copy, Debug, PartialEq, Eq)]
pub enum Operation {
    Copy,
    Cat,
    Append,
    Put,
    Head,
    Tail,
    Split,
    Starts,
    Sorted,
    Merge,
    Uniq,
    Reverse,
    Number,
    Column,
    Sum,
    Count,
    First,
    Digest,
}

const OPERATIONS: [Operation; 18] = [
    Operation::Copy,
    Operation::Cat,
    Operation::Append,
    Operation::Put,
    Operation::Head,
    Operation::Tail,
    Operation::Split,
    Operation::Starts,
    Operation::Sorted,
    Operation::Merge,
    Operation::Uniq,
    Operation::Reverse,
    Operation::Number,
    Operation::Column,
    Operation::Sum,
    Operation::Count,
    Operation::First,
    Operation::Digest,
];

impl Operation {
    /// The name of the operation.
    pub fn name(self) -> &'static [u8]
        ensures { result.now ≡ name_of self }
    {
        match self {
            Operation::Copy => b"copy",
            Operation::Cat => b"cat",
            Operation::Append => b"append",
            Operation::Put => b"put",
            Operation::Head => b"head",
            Operation::Tail => b"tail",
            Operation::Split => b"split",
            Operation::Starts => b"starts",
            Operation::Sorted => b"sorted",
            Operation::Merge => b"merge",
            Operation::Uniq => b"uniq",
            Operation::Reverse => b"reverse",
            Operation::Number => b"number",
            Operation::Column => b"column",
            Operation::Sum => b"sum",
            Operation::Count => b"count",
            Operation::First => b"first",
            Operation::Digest => b"digest",
        }
    }

    /// The operation of this name. None where there is no such operation.
    pub fn named(name: &[u8]) -> Option<Operation>
        ensures { result ≡ operation_named name.now }
    {
        OPERATIONS
            .iter()
            .copied()
            .find(|operation| operation.name() == name)
    }
}
