//! How an output's stage ended.

use cdc_base::Key;
use cdc_model::Layout;

/// How the stage of an output ended.
#[derive(Clone, Copy, Debug, PartialEq, Eq)]
pub enum DumpEnd {
    /// It takes units.
    Open,
    /// All that it took in the window is published.
    Whole,
    /// The disk failed.
    Disk,
    /// A unit that the output doesn't have begins elsewhere than where the output ends, or isn't the next one.
    Differs { kept: Layout, given: Layout },
    /// The unit, or the checkpoint, with the output's count has another key than the output's last.
    Key { kept: Key, given: Key },
}

impl DumpEnd {
    ghost use Rattle.std.specs.Prelude.{◌≡◌};
    ghost use Rattle.cdc_dump_stage.specs.Taking.{takes_units, end_again};

    /// Whether the stage takes units.
    pub fn is_open(&self) -> bool
        ensures { result ≡ takes_units self.now }
    {
        match self {
            DumpEnd::Open => true,
            DumpEnd::Whole | DumpEnd::Disk | DumpEnd::Differs { .. } | DumpEnd::Key { .. } => false,
        }
    }

    /// The end with which the next window begins: one that was whole is open again.
    pub(crate) fn reopened(&self) -> DumpEnd
        ensures { result ≡ end_again self.now }
    {
        match self {
            DumpEnd::Whole => DumpEnd::Open,
            DumpEnd::Open | DumpEnd::Disk | DumpEnd::Differs { .. } | DumpEnd::Key { .. } => *self,
        }
    }
}
