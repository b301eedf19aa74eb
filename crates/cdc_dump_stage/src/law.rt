//! What a whole output keeps.

ghost use Rattle.std.specs.Prelude.{◌≡◌, ℕ, List, IsTrue};
ghost use Rattle.cdc_model.specs.Records.{Transaction};
ghost use Rattle.cdc_recovery.specs.Outputs.{OutputPlan, KeepsFrom};
ghost use Rattle.cdc_recovery.specs.Growing.{Each};
ghost use Rattle.cdc_dump_stage.specs.declared.dump_end.DumpEnd.TheVariants.{Whole};
ghost use Rattle.cdc_dump_stage.specs.Disks.{disk_words};
ghost use Rattle.cdc_dump_stage.specs.Standing.{IsReadyFor, IsStanding};

use crate::stage::DumpStage;
use cdc_outside::Disk;

/// A law: a stage that is whole, and that was ready for what follows the first so many transactions, has published them:
/// every image that a crash may leave of its output keeps at least as many.
pub fn whole_outputs_keep_all<D: Disk>(stage: &DumpStage, disk: &D)
    ensures { IsTrue D.tells → IsStanding (disk_words D.tells D.seen D.synced D.pending D.may_leave D.moment D.left_since D.faults) stage.now disk.now → stage.now.end ≡ Whole
        → (plan : OutputPlan) (txns : List Transaction) (sent : ℕ) → IsReadyFor (disk_words D.tells D.seen D.synced D.pending D.may_leave D.moment D.left_since D.faults) plan txns sent stage.now disk.now → Each (D.may_leave disk.now) (KeepsFrom plan txns sent) }
{}
