//! A stage with its disk.

ghost use Rattle.std.specs.Prelude.{◌≡◌, ℕ, List, IsTrue};
ghost use Rattle.cdc_model.specs.Records.{Transaction};
ghost use Rattle.cdc_recovery.specs.Outputs.{OutputPlan, KeepsFrom};
ghost use Rattle.cdc_recovery.specs.Growing.{Each};

use crate::law::whole_outputs_keep_all;
use crate::stage::DumpStage;
use cdc_item::DumpItem;
use cdc_lane::PlainLane;
use cdc_outside::Disk;
use cdc_turns::{DumpTurns, Turn};
use std::marker::Model;

/// An output's stage together with its disk, which is as the stage left it.
#[derive(Drop)]
pub struct DumpJob<D: Disk> {
    stage: DumpStage,
    disk: D,
}

impl<D: Disk> Model for DumpJob<D> {
    ghost use Rattle.cdc_dump_stage.specs.Disks.{disk_words};
    ghost use Rattle.cdc_dump_stage.specs.Standing.{IsStanding};
    ghost use Rattle.cdc_dump_stage.specs.Job.{StagedDisk, staged};

    ghost Value = { StagedDisk D };

    ghost view = { λ job. staged job.stage job.disk };

    ghost invariant = { λ job. IsStanding (disk_words D.tells D.seen D.synced D.pending D.may_leave D.moment D.left_since D.faults) job.stage job.disk };
}

impl<D: Disk> DumpJob<D> {
    ghost use Rattle.cdc_dump_stage.specs.declared.dump_end.DumpEnd.TheVariants.{Whole};
    ghost use Rattle.cdc_dump_stage.specs.Disks.{disk_words};
    ghost use Rattle.cdc_dump_stage.specs.Standing.{IsStanding, IsReadyFor};
    ghost use Rattle.cdc_dump_stage.specs.Job.{staged};

    /// A stage and the disk that it left so.
    pub fn new(stage: DumpStage, disk: D) -> DumpJob<D>
        requires { IsStanding (disk_words D.tells D.seen D.synced D.pending D.may_leave D.moment D.left_since D.faults) stage disk }
        ensures { result ≡ staged stage disk }
    {
        DumpJob { stage, disk }
    }

    /// The stage.
    pub fn stage(&self) -> &DumpStage
        ensures { result.now ≡ self.now.stage }
    {
        &self.stage
    }

    /// A law: where the stage is whole and was ready for what follows the first so many transactions, each image of its
    /// output keeps them.
    pub fn keeps_all_when_whole(&self)
        ensures { IsTrue D.tells → self.now.stage.end ≡ Whole → (plan : OutputPlan) (txns : List Transaction) (sent : ℕ)
            → IsReadyFor (disk_words D.tells D.seen D.synced D.pending D.may_leave D.moment D.left_since D.faults) plan txns sent self.now.stage self.now.disk
            → Each (D.may_leave self.now.disk) (KeepsFrom plan txns sent) }
    {
        whole_outputs_keep_all(&self.stage, &self.disk);
    }

    /// The stage and the disk, as it left it.
    pub fn into_parts(self) -> (DumpStage, D)
        ensures parts { staged result.0 result.1 ≡ self }
        ensures standing { IsStanding (disk_words D.tells D.seen D.synced D.pending D.may_leave D.moment D.left_since D.faults) self.stage self.disk }
    {
        let DumpJob { stage, disk } = self;
        (stage, disk)
    }
}

impl<D: Disk> DumpTurns<DumpItem> for DumpJob<D> {
    ghost use Rattle.cdc_dump_stage.specs.Disks.{disk_words};
    ghost use Rattle.cdc_dump_stage.specs.Job.{dump_account};
    ghost use Rattle.cdc_dump_stage.specs.JobLaws.{gone_nowhere, gone_on};

    ghost account = { dump_account (disk_words D.tells D.seen D.synced D.pending D.may_leave D.moment D.left_since D.faults) };

    fn turn(&mut self, lane: &mut PlainLane<DumpItem>) -> Turn {
        self.stage.turn(&mut self.disk, lane)
    }

    fn has_ended(&self) -> bool {
        self.stage.has_ended()
    }

    fn again(&mut self) {
        self.stage.again();
    }

    ghost closes = { λ job window items got. got };

    ghost starts = { λ job. gone_nowhere (disk_words D.tells D.seen D.synced D.pending D.may_leave D.moment D.left_since D.faults) (λ told disk image. D.only_now disk image told) job };

    ghost adds = { λ a b c xs ys p q. gone_on (disk_words D.tells D.seen D.synced D.pending D.may_leave D.moment D.left_since D.faults) (λ told disk t image. D.counts_now disk t image told) a b c xs ys p q };
}
