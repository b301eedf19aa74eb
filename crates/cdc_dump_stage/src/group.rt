//! Groups of units: appended one by one, published by one commit.

ghost use Rattle.std.specs.Prelude.{◌≡◌, ◌+◌, ◌≤◌, ◌<◌, ◌^◌, ◌⊎◌, false, List, IsTrue, OnOk, OnErr, is_err};
ghost use Rattle.cdc_outside.specs.Count.{RisesOnErr};
ghost use Rattle.cdc_model.specs.Records.{Transaction};
ghost use Rattle.cdc_records.specs.Front.{front_layout};
ghost use Rattle.cdc_dumper.specs.State.{Stands};
ghost use Rattle.cdc_dumper.specs.Moves.{front_with};
ghost use Rattle.cdc_recovery.specs.Outputs.{OutputPlan, IsUnitAt};
ghost use Rattle.cdc_dump_stage.specs.Disks.{disk_words};
ghost use Rattle.cdc_dump_stage.specs.Taking.{IsNextUnit, PublishesOn};
ghost use Rattle.cdc_dump_stage.specs.Standing.{AreFrontsOf, IsKept};

use cdc_cell::DiskFault;
use cdc_dumper::Dumper;
use cdc_model::Unit;
use cdc_outside::Disk;

/// The most units that wait for a commit.
const GROUP_UNITS: u64 = 4_096;

/// The most bytes behind which a commit isn't put off.
const GROUP_BYTES: u64 = 8 * 1024 * 1024;

/// Publishes all that was appended.
pub(crate) fn commit<D: Disk>(dumper: &mut Dumper, disk: &mut D) -> Result<(), DiskFault>
    requires works { dumper.old.failed ≡ false }
    requires stands { IsTrue D.tells → Stands dumper.old (D.seen disk.old) (D.synced disk.old) (D.pending disk.old) }
    ensures stands { IsTrue D.tells → OnOk result (Stands dumper.new (D.seen disk.new) (D.synced disk.new) (D.pending disk.new)) }
    ensures published { OnOk result (dumper.new.published ≡ dumper.old.appended) }
    ensures appended { dumper.new.appended ≡ dumper.old.appended }
    ensures publishes { PublishesOn dumper.old dumper.new }
    ensures failed { dumper.new.failed ≡ is_err result }
    ensures kept { IsTrue D.tells → (plan : OutputPlan) (txns : List Transaction) → AreFrontsOf plan txns dumper.old (D.seen disk.old)
        → IsKept (disk_words D.tells D.seen D.synced D.pending D.may_leave D.moment D.left_since D.faults) plan txns disk.old disk.new dumper.new result }
    ensures faults { RisesOnErr (D.faults disk.old) (D.faults disk.new) result }
{
    dumper.keeps_shape();
    dumper.commit(disk)
}

/// Appends the next unit.
fn append<D: Disk>(dumper: &mut Dumper, disk: &mut D, unit: &Unit) -> Result<(), DiskFault>
    requires works { dumper.old.failed ≡ false }
    requires stands { IsTrue D.tells → Stands dumper.old (D.seen disk.old) (D.synced disk.old) (D.pending disk.old) }
    requires next { IsNextUnit dumper.old.appended unit.now }
    requires near { unit.now.after.file ≤ dumper.old.published.file + 1 }
    ensures stands { IsTrue D.tells → OnOk result (Stands dumper.new (D.seen disk.new) (D.synced disk.new) (D.pending disk.new)) }
    ensures appended { OnOk result (dumper.new.appended ≡ front_with dumper.old.appended unit.now) }
    ensures old_appended { OnErr result (dumper.new.appended ≡ dumper.old.appended) }
    ensures publishes { PublishesOn dumper.old dumper.new }
    ensures failed { dumper.new.failed ≡ is_err result }
    ensures kept { IsTrue D.tells → (plan : OutputPlan) (txns : List Transaction) → AreFrontsOf plan txns dumper.old (D.seen disk.old)
        → IsUnitAt plan txns dumper.old.appended.count unit.now
        → IsKept (disk_words D.tells D.seen D.synced D.pending D.may_leave D.moment D.left_since D.faults) plan txns disk.old disk.new dumper.new result }
    ensures faults { RisesOnErr (D.faults disk.old) (D.faults disk.new) result }
{
    dumper.keeps_shape();
    dumper.append(disk, unit)
}

/// Publishes what was appended, where a unit's file wants it.
fn make_way<D: Disk>(
    dumper: &mut Dumper,
    disk: &mut D,
    unit: &Unit,
    waiting: &mut u64,
) -> Result<(), DiskFault>
    requires works { dumper.old.failed ≡ false }
    requires stands { IsTrue D.tells → Stands dumper.old (D.seen disk.old) (D.synced disk.old) (D.pending disk.old) }
    requires next { IsNextUnit dumper.old.appended unit.now }
    ensures stands { IsTrue D.tells → OnOk result (Stands dumper.new (D.seen disk.new) (D.synced disk.new) (D.pending disk.new)) }
    ensures appended { dumper.new.appended ≡ dumper.old.appended }
    ensures publishes { PublishesOn dumper.old dumper.new }
    ensures near { OnOk result (unit.now.after.file ≤ dumper.new.published.file + 1) }
    ensures failed { dumper.new.failed ≡ is_err result }
    ensures kept { IsTrue D.tells → (plan : OutputPlan) (txns : List Transaction) → AreFrontsOf plan txns dumper.old (D.seen disk.old)
        → IsKept (disk_words D.tells D.seen D.synced D.pending D.may_leave D.moment D.left_since D.faults) plan txns disk.old disk.new dumper.new result }
    ensures faults { RisesOnErr (D.faults disk.old) (D.faults disk.new) result }
    ensures waiting { waiting.new ≤ waiting.old }
{
    dumper.keeps_shape();
    if !dumper.must_commit(unit) {
        return Ok(());
    }
    // So its file is known to be at most the one behind the appended Front's.
    let _file = unit.after.file;
    *waiting = 0;
    commit(dumper, disk)
}

/// Whether a group is full: 4,096 units wait, or more than 8 MiB.
fn is_full(dumper: &Dumper, waiting: u64) -> bool
    ensures few { result ≡ false → dumper.now.appended.count < dumper.now.published.count + 4_096 }
    ensures small { result ≡ false → waiting ≤ 8_388_608 }
{
    let units = dumper
        .appended()
        .count
        .saturating_sub(dumper.published().count);
    units >= GROUP_UNITS || waiting > GROUP_BYTES
}

/// Publishes a group that has grown to so many bytes, where it is full.
fn close_full<D: Disk>(
    dumper: &mut Dumper,
    disk: &mut D,
    waiting: &mut u64,
    grown: u64,
) -> Result<(), DiskFault>
    requires works { dumper.old.failed ≡ false }
    requires stands { IsTrue D.tells → Stands dumper.old (D.seen disk.old) (D.synced disk.old) (D.pending disk.old) }
    ensures stands { IsTrue D.tells → OnOk result (Stands dumper.new (D.seen disk.new) (D.synced disk.new) (D.pending disk.new)) }
    ensures appended { dumper.new.appended ≡ dumper.old.appended }
    ensures publishes { PublishesOn dumper.old dumper.new }
    ensures few { OnOk result (dumper.new.appended.count < dumper.new.published.count + 4_096) }
    ensures small { waiting.new ≤ 8_388_608 }
    ensures failed { dumper.new.failed ≡ is_err result }
    ensures kept { IsTrue D.tells → (plan : OutputPlan) (txns : List Transaction) → AreFrontsOf plan txns dumper.old (D.seen disk.old)
        → IsKept (disk_words D.tells D.seen D.synced D.pending D.may_leave D.moment D.left_since D.faults) plan txns disk.old disk.new dumper.new result }
    ensures faults { RisesOnErr (D.faults disk.old) (D.faults disk.new) result }
{
    dumper.keeps_shape();
    if !is_full(dumper, grown) {
        *waiting = grown;
        return Ok(());
    }
    *waiting = 0;
    commit(dumper, disk)
}

/// Appends the next unit; publishes before it what its file wants, and behind it a group that is full.
pub(crate) fn write_unit<D: Disk>(
    dumper: &mut Dumper,
    disk: &mut D,
    unit: &Unit,
    waiting: &mut u64,
) -> Result<(), DiskFault>
    requires works { dumper.old.failed ≡ false }
    requires stands { IsTrue D.tells → Stands dumper.old (D.seen disk.old) (D.synced disk.old) (D.pending disk.old) }
    requires next { IsNextUnit dumper.old.appended unit.now }
    requires small { waiting.old ≤ 8_388_608 }
    ensures stands { IsTrue D.tells → OnOk result (Stands dumper.new (D.seen disk.new) (D.synced disk.new) (D.pending disk.new)) }
    ensures appended { OnOk result (dumper.new.appended ≡ front_with dumper.old.appended unit.now) }
    ensures appends { (dumper.new.appended ≡ dumper.old.appended) ⊎ (dumper.new.appended ≡ front_with dumper.old.appended unit.now) }
    ensures publishes { PublishesOn dumper.old dumper.new }
    ensures few { OnOk result (dumper.new.appended.count < dumper.new.published.count + 4_096) }
    ensures small { waiting.new ≤ 8_388_608 }
    ensures failed { dumper.new.failed ≡ is_err result }
    ensures kept { IsTrue D.tells → (plan : OutputPlan) (txns : List Transaction) → AreFrontsOf plan txns dumper.old (D.seen disk.old)
        → IsUnitAt plan txns dumper.old.appended.count unit.now
        → IsKept (disk_words D.tells D.seen D.synced D.pending D.may_leave D.moment D.left_since D.faults) plan txns disk.old disk.new dumper.new result }
    ensures faults { RisesOnErr (D.faults disk.old) (D.faults disk.new) result }
{
    make_way(dumper, disk, unit, waiting)?;
    append(dumper, disk, unit)?;
    let grown = waiting.saturating_add(unit.bytes.len() as u64);
    close_full(dumper, disk, waiting, grown)
}
