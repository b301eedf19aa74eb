//! That outputs which were opened are ready.

ghost use Rattle.std.specs.Prelude.{ℕ, ◌≤◌, IsTrue, List, Option};
ghost use Rattle.cdc_base.specs.declared.key.Key.{Key};
ghost use Rattle.cdc_model.specs.Records.{Transaction};
ghost use Rattle.cdc_recovery.specs.Outputs.{OutputPlan, KeepsFrom};
ghost use Rattle.cdc_recovery.specs.Growing.{Each};
ghost use Rattle.cdc_dump_stage.specs.Disks.{disk_words};
ghost use Rattle.cdc_dump_stage.specs.Standing.{IsReadyFor};
ghost use Rattle.cdc_opening.specs.OpenOuts.{IsOutOpened};
ghost use Rattle.cdc_windows.specs.Jobs.{IsJobOf, StartsSoundly};

use cdc_dump_stage::DumpJob;
use cdc_dumper::Dumper;
use cdc_outside::Disk;

/// A law: where every image of an output kept some of these transactions before it was opened, and the pass goes on from no
/// more transactions than it has, with the key that is theirs, then its job is ready for what follows them; so it refuses no
/// unit, neither at the start nor later.
pub fn opened_outs_are_ready<D: Disk>(old: &D, dumper: &Dumper, job: &DumpJob<D>)
    ensures { IsTrue D.tells → (plan : OutputPlan) (txns : List Transaction) (start : Option (ℕ × Key)) (from : ℕ)
        → IsOutOpened D.tells D.seen D.synced D.pending old.now dumper.now job.now.disk → IsJobOf start dumper.now job.now.disk job.now
        → Each (D.may_leave old.now) (KeepsFrom plan txns 0) → StartsSoundly txns start → from ≤ dumper.now.published.count
        → IsReadyFor (disk_words D.tells D.seen D.synced D.pending D.may_leave D.moment D.left_since D.faults) plan txns from job.now.stage job.now.disk }
{}
