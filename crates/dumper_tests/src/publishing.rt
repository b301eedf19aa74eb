//! Units published in groups, on disks that don't tell their content.

ghost use Rattle.std.specs.Prelude.{◌≡◌, ◌+◌, ◌≤◌, ◌^◌, true, false};
ghost use Rattle.cdc_records.specs.Front.{front_layout};

use crate::ten::next_of_ten;
use cdc_base::Memory;
use cdc_dumper::Dumper;
use cdc_model::Unit;
use cdc_outside::Disk;
use std::alloc::Global;

/// Commits what was appended. False where a call failed, now or before.
pub fn commit<D: Disk>(dumper: &mut Dumper, disk: &mut D) -> bool
    requires untold { D.tells ≡ false }
    ensures works { result ≡ true → dumper.new.failed ≡ false }
    ensures published { result ≡ true → dumper.new.published ≡ dumper.old.appended }
    ensures appended { dumper.new.appended ≡ dumper.old.appended }
{
    !dumper.failed() && dumper.commit(disk).is_ok()
}

/// Publishes a unit by itself. False where a call failed.
pub fn publish<D: Disk>(dumper: &mut Dumper, disk: &mut D, unit: &Unit) -> bool
    requires untold { D.tells ≡ false }
    requires number { unit.now.number ≡ dumper.old.appended.count + 1 }
    requires most { unit.now.number ≤ 2 ^ 62 }
    requires before { unit.now.before ≡ front_layout dumper.old.appended }
{
    commit(dumper, disk) && dumper.publish(disk, unit).is_ok()
}

/// Appends a unit, behind a commit where it needs one. False where a call failed.
pub fn append<D: Disk>(dumper: &mut Dumper, disk: &mut D, unit: &Unit) -> bool
    requires untold { D.tells ≡ false }
    requires number { unit.now.number ≡ dumper.old.appended.count + 1 }
    requires most { unit.now.number ≤ 2 ^ 62 }
    requires before { unit.now.before ≡ front_layout dumper.old.appended }
{
    if dumper.must_commit(unit) && !commit(dumper, disk) {
        return false;
    }
    if dumper.failed() || dumper.must_commit(unit) {
        return false;
    }
    dumper.append(disk, unit).is_ok()
}

// One unit more: published by itself where a group has one, else appended, and committed where the group is full.
fn one_more<D: Disk>(dumper: &mut Dumper, disk: &mut D, unit: &Unit, group: u64) -> bool
    requires untold { D.tells ≡ false }
    requires number { unit.now.number ≡ dumper.old.appended.count + 1 }
    requires most { unit.now.number ≤ 2 ^ 62 }
    requires before { unit.now.before ≡ front_layout dumper.old.appended }
{
    if group <= 1 {
        return publish(dumper, disk, unit);
    }
    append(dumper, disk, unit) && (unit.number % group != 0 || commit(dumper, disk))
}

/// Publishes what isn't appended yet of the ten units, in groups. False where a call failed.
pub fn publish_rest<D: Disk>(
    alloc: Global,
    dumper: &mut Dumper,
    disk: &mut D,
    group: u64,
) -> Result<bool, Memory>
    requires untold { D.tells ≡ false }
{
    for _ in 0..10_u64 {
        let Some(unit) = next_of_ten(alloc, dumper)? else {
            break;
        };
        if !one_more(dumper, disk, &unit, group) {
            return Ok(false);
        }
    }
    Ok(commit(dumper, disk))
}
