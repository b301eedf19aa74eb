//! One window: its turns, and the checkpoint behind it.

ghost use Rattle.std.specs.Prelude.{◌≡◌, ℕ, ◌+◌, ◌≤◌, ◌<◌, ◌^◌, ◌⊎◌, true, false, Some, IsTrue, length, take, IfOk, IfSome, IsSome, OnOk};
ghost use Rattle.std.specs.List.{AllZip, AllByRecursion};
ghost use Rattle.cdc_base.specs.declared.key.Key.{Key as OneKey};
ghost use Rattle.cdc_outside.specs.Count.{Rose};
ghost use Rattle.cdc_outside.specs.Disk.{LeavesOnly};
ghost use Rattle.cdc_model.specs.Restart.{RestartPoint};
ghost use Rattle.cdc_dump_stage.specs.declared.dump_end.DumpEnd.TheVariants.{Whole};
ghost use Rattle.cdc_dump_stage.specs.Job.{StagedDisk};
ghost use Rattle.cdc_dump_stage.specs.Taking.{is_well};
ghost use Rattle.cdc_dump_stage.specs.Disks.{disk_words};
ghost use Rattle.cdc_windows.specs.Keeping.{IsTaskStanding};
ghost use Rattle.cdc_windows.specs.Rereading.{RememberFrom};
ghost use Rattle.cdc_windows.specs.Windows.{IsCheckpointOf, IsWholeOut, AreWholeStages, KeptWindow, IsOffered};

use crate::keeper::{Keeper, keep};
use crate::parts::{MergePart, NodePart};
use crate::reached::Reached;
use cdc_base::{Key, Memory};
use cdc_dump_stage::{DumpEnd, DumpJob};
use cdc_outside::Disk;
use cdc_records::{Checkpoint, CutList};
use std::alloc::Global;

// The points from which the nodes are read again behind a last key; none where one of them has none.
fn cuts_of<N: NodePart>(alloc: Global, nodes: &[N], last: &Key) -> Result<Option<CutList>, Memory>
    ensures points { IfOk result (λ cuts. IfSome cuts (AllZip (λ node cut. N.rereading.may_restart node last.now cut) nodes.now)) }
    ensures there { RememberFrom N.rereading last.now nodes.now → IfOk result (λ cuts. IsSome cuts) }
{
    let mut cuts = CutList::new(alloc);
    for node in nodes {
        match node.cut(last)? {
            Some(cut) => cuts.push(cut)?,
            None => return Ok(None),
        }
    }
    Ok(Some(cuts))
}

// The checkpoint of a window that came so far; none where a node has no point for it.
fn checkpoint_of<N: NodePart>(
    alloc: Global,
    rotation: u64,
    nodes: &[N],
    reached: &Reached,
) -> Result<Option<Checkpoint>, Memory>
    ensures made { IfOk result (λ point. IfSome point (IsCheckpointOf N.rereading rotation nodes.now reached.now)) }
    ensures there { RememberFrom N.rereading reached.now.last nodes.now → IfOk result (λ point. IsSome point) }
{
    let Some(nodes) = cuts_of(alloc, nodes, &reached.last)? else {
        return Ok(None);
    };
    Ok(Some(Checkpoint {
        count: reached.count,
        layout: reached.layout,
        last: reached.last,
        rotation: Some(rotation),
        nodes,
    }))
}

// Whether an output has published what the window gave.
fn is_whole<D: Disk>(dump: &DumpJob<D>) -> bool
    ensures whole { result ≡ true → IsWholeOut (disk_words D.tells D.seen D.synced D.pending D.may_leave D.moment D.left_since D.faults) dump.now }
    ensures exact { dump.now.stage.ended ≡ true → is_well dump.now.stage.end ≡ true → result ≡ true }
{
    dump.keeps_all_when_whole();
    matches!(dump.stage().end(), DumpEnd::Whole)
}

/// Whether all outputs have.
pub(crate) fn are_whole<D: Disk>(dumps: &[DumpJob<D>]) -> bool
    ensures whole { result ≡ true → AreWholeStages (disk_words D.tells D.seen D.synced D.pending D.may_leave D.moment D.left_since D.faults) dumps.now }
    ensures exact { AllByRecursion (λ job. (job.stage.ended ≡ true) × (is_well job.stage.end ≡ true)) dumps.now → result ≡ true }
{
    for dump in dumps {
        if !is_whole(dump) {
            return false;
        }
    }
    true
}

/// Keeps the checkpoint of a window behind which all outputs are whole.
pub(crate) fn keep_window<N: NodePart, M: MergePart, D: Disk>(
    alloc: Global,
    rotation: u64,
    nodes: &[N],
    merge: &M,
    dumps: &[DumpJob<D>],
    keeper: &mut Keeper,
    task: &mut D,
) -> Result<(), Memory>
    requires standing { IsTaskStanding D.tells D.seen D.synced D.pending keeper.old task.old }
    ensures standing { IsTaskStanding D.tells D.seen D.synced D.pending keeper.new task.new }
    // Only where all outputs are whole, and only this window's checkpoint.
    ensures stored { IsTrue D.tells → KeptWindow (disk_words D.tells D.seen D.synced D.pending D.may_leave D.moment D.left_since D.faults) N.rereading rotation nodes.now (M.came merge.now) dumps.now task.old task.new }
    ensures fails { keeper.new.failed ≡ true → (keeper.old.failed ≡ true) ⊎ Rose (D.faults task.old) (D.faults task.new) }
    ensures stays { keeper.old.failed ≡ true → keeper.new.failed ≡ true }
    ensures later { D.faults task.old ≤ D.faults task.new }
    // Where all outputs have ended well, no node has forgotten too much and the disk works on, it is kept.
    ensures last { AllByRecursion (λ job. (job.stage.ended ≡ true) × (is_well job.stage.end ≡ true)) dumps.now → RememberFrom N.rereading (M.came merge.now).last nodes.now
        → keeper.new.failed ≡ false → OnOk result (IsOffered N.rereading rotation nodes.now (M.came merge.now) keeper.new.cell) }
{
    if !are_whole(dumps) {
        return Ok(());
    }
    let reached = merge.reached();
    match checkpoint_of(alloc, rotation, nodes, &reached)? {
        Some(checkpoint) => keep(alloc, keeper, task, &checkpoint),
        None => Ok(()),
    }
}
