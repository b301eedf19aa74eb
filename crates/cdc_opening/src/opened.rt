//! What is opened.

use cdc_cell::Cell;
use cdc_dumper::Dumper;
use cdc_records::Checkpoint;
use cdc_task::Start;

/// What a pass goes on with: a dumper for each output, in order; the task's cell and the checkpoint that it keeps, if any;
/// and whether the nodes are read on from that checkpoint.
#[derive(Debug, Drop)]
pub struct Opened {
    pub dumpers: Vec<Dumper>,
    pub cell: Cell,
    pub kept: Option<Checkpoint>,
    pub start: Start,
}

impl Opened {
    ghost use Rattle.std.specs.Prelude.{◌≡◌};
    ghost use Rattle.std.specs.Option.{option_copied};
    ghost use Rattle.cdc_opening.specs.Answers.{used_point};

    /// The checkpoint from which the nodes are read on; none where they are read from the start of their logs.
    pub fn used(&self) -> Option<&Checkpoint>
        ensures { option_copied result ≡ used_point self.now.start self.now.kept }
    {
        match self.start {
            Start::First => None,
            Start::Cut => self.kept.as_ref(),
        }
    }
}
