//! The merge stage, as the driver turns it.

ghost use Rattle.std.specs.Prelude.{◌≡◌};

use crate::stage::MergeStage;
use cdc_item::{DumpItem, NodeItem};
use cdc_lane::PlainLane;
use cdc_turns::{MergeTurns, Turn};
use std::sync::ledger::Ledger;

impl<'a, L: Ledger> MergeTurns<NodeItem, DumpItem> for MergeStage<'a, L> {
    ghost use Rattle.cdc_merge_stage.specs.Merged.{merge_account};
    ghost use Rattle.cdc_merge_stage.specs.MergeLaws.{outs_end, took_all, gave_all, same_itself, same_then};

    ghost account = { merge_account };

    fn turn(&mut self, ins: &mut [PlainLane<NodeItem>], outs: &mut [PlainLane<DumpItem>]) -> Turn {
        MergeStage::turn(self, ins, outs)
    }

    fn again(&mut self) {
        MergeStage::again(self);
    }

    ghost closes_ins = { λ job window takes gives did. did.ins };

    ghost closes_outs = { λ job window takes gives did. outs_end window job.closing job.slots gives did.outs };

    ghost took_all = { λ job ended. took_all job ended };

    ghost gave_all = { λ job ended. gave_all job ended };

    ghost starts = { λ job. same_itself job };

    ghost adds = { λ a b c p q. same_then a b c p q };
}
