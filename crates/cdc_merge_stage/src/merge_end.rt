//! How the merging ended.

/// How the merge stage ended.
#[derive(Clone, Copy, Debug, PartialEq, Eq)]
pub enum MergeEnd {
    /// It merges.
    Open,
    /// All that the window settled was given.
    Whole,
    /// The next transaction's print is longer than 2^28 bytes.
    TooLarge { number: u64, bytes: u64 },
    /// There was no memory.
    Memory,
}

impl MergeEnd {
    ghost use Rattle.std.specs.Prelude.{◌≡◌};
    ghost use Rattle.cdc_merge_stage.specs.Merged.{merges_on, merge_end_again};

    /// Whether the stage merges.
    pub fn is_open(&self) -> bool
        ensures { result ≡ merges_on self.now }
    {
        match self {
            MergeEnd::Open => true,
            MergeEnd::Whole | MergeEnd::TooLarge { .. } | MergeEnd::Memory => false,
        }
    }

    /// The end with which the next window begins: one that was whole is open again.
    pub(crate) fn reopened(&self) -> MergeEnd
        ensures { result ≡ merge_end_again self.now }
    {
        match self {
            MergeEnd::Whole => MergeEnd::Open,
            MergeEnd::Open | MergeEnd::TooLarge { .. } | MergeEnd::Memory => *self,
        }
    }
}
