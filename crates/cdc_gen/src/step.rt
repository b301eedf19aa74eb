//! What happens in a drill.

/// What a step is.
#[derive(Clone, Copy, Debug, PartialEq, Eq)]
pub enum StepKind {
    /// A branch of a transaction is prepared.
    Prepare,
    /// It is committed.
    Commit,
    /// A beat, and a transaction on one node alone.
    Local,
    /// The last beat.
    End,
}

/// A step on a node, of the transaction of this number; of the end, how many transactions there are.
#[derive(Clone, Copy, Debug, PartialEq, Eq)]
pub struct Step {
    pub node: u32,
    pub kind: StepKind,
    pub number: u32,
}

/// A transaction, and the first of its nodes.
#[derive(Clone, Copy, Debug, PartialEq, Eq)]
pub struct Planned {
    pub number: u32,
    pub first: u32,
}
