//! Units made and published one after another.

ghost use Rattle.std.specs.Prelude.{◌≡◌, ◌+◌, ◌≤◌, ◌^◌, true, false, IfOk, IfSome};
ghost use Rattle.cdc_records.specs.Front.{front_layout};

use crate::units::{ROTATION, ROW_MAX};
use cdc_base::Memory;
use cdc_dumper::Dumper;
use cdc_event::HEADER_LENGTH;
use cdc_files::FileDisk;
use cdc_model::{Txn, Unit};
use cdc_rename::Names;
use cdc_samples::layouts::has_room;
use cdc_samples::rows::one_row;
use cdc_samples::transactions::{add_branch, no_branches, shared, transaction};
use cdc_writer::{PrintError, unit};
use std::alloc::Global;
use std::fs::{Files, OpenFile};
use std::os::unix::fs::FileExt;

/// What a print has beside its one row event's body.
const BESIDE: usize = 157 + HEADER_LENGTH;

/// A transaction of one branch, a table map and one row event, whose print has `size` bytes; none where that can't be.
pub fn print_transaction(alloc: Global, size: u32) -> Result<Option<Txn>, Memory> {
    let Some(key) = shared(10, b"g1") else {
        return Ok(None);
    };
    if size > ROW_MAX || (size as usize) < BESIDE {
        return Ok(None);
    }
    let body = vec![in alloc; 0; size as usize - BESIDE]?;
    let mut branches = no_branches(alloc);
    add_branch(&mut branches, &key, one_row(alloc, body.as_slice())?)?;
    Ok(Some(transaction(1, &key, branches)))
}

// The transaction's unit behind what was appended; none where there is no room for one, or where it is too large.
fn next_unit(
    alloc: Global,
    dumper: &Dumper,
    txn: &mut Txn,
    names: &Names,
) -> Result<Option<Unit>, Memory>
    ensures number { IfOk result (λ made. IfSome made (λ unit. unit.number ≡ dumper.now.appended.count + 1)) }
    ensures most { IfOk result (λ made. IfSome made (λ unit. unit.number ≤ 2 ^ 62)) }
    ensures before { IfOk result (λ made. IfSome made (λ unit. unit.before ≡ front_layout dumper.now.appended)) }
{
    let ahead = dumper.appended();
    let before = ahead.layout();
    if ahead.count >= 1 << 62 || !has_room(&before, ROTATION) {
        return Ok(None);
    }
    txn.number = ahead.count + 1;
    match unit(alloc, txn, names, &before, ROTATION) {
        Ok(made) => Ok(Some(made)),
        Err(PrintError::TooLarge { .. }) => Ok(None),
        Err(PrintError::Memory) => Err(Memory),
    }
}

// Commits what was appended, where nothing failed.
fn commit<F: FileExt + OpenFile + Drop, R: Files<File = F> + Drop>(
    dumper: &mut Dumper,
    disk: &mut FileDisk<R, F>,
) -> bool
    ensures works { result ≡ true → dumper.new.failed ≡ false }
    ensures published { result ≡ true → dumper.new.published ≡ dumper.old.appended }
    ensures appended { dumper.new.appended ≡ dumper.old.appended }
{
    !dumper.failed() && dumper.commit(disk).is_ok()
}

// Publishes a unit by itself.
fn publish<F: FileExt + OpenFile + Drop, R: Files<File = F> + Drop>(
    dumper: &mut Dumper,
    disk: &mut FileDisk<R, F>,
    unit: &Unit,
) -> bool
    requires number { unit.now.number ≡ dumper.old.appended.count + 1 }
    requires most { unit.now.number ≤ 2 ^ 62 }
    requires before { unit.now.before ≡ front_layout dumper.old.appended }
{
    commit(dumper, disk) && dumper.publish(disk, unit).is_ok()
}

// Appends a unit, behind a commit where it needs one.
fn append<F: FileExt + OpenFile + Drop, R: Files<File = F> + Drop>(
    dumper: &mut Dumper,
    disk: &mut FileDisk<R, F>,
    unit: &Unit,
) -> bool
    requires number { unit.now.number ≡ dumper.old.appended.count + 1 }
    requires most { unit.now.number ≤ 2 ^ 62 }
    requires before { unit.now.before ≡ front_layout dumper.old.appended }
{
    if dumper.must_commit(unit) && !commit(dumper, disk) {
        return false;
    }
    if dumper.failed() || dumper.must_commit(unit) {
        return false;
    }
    dumper.append(disk, unit).is_ok()
}

// One unit more: published by itself where a group has one unit, else appended. How many bytes it has; none where that
// failed.
fn one_more<F: FileExt + OpenFile + Drop, R: Files<File = F> + Drop>(
    dumper: &mut Dumper,
    disk: &mut FileDisk<R, F>,
    made: Option<Unit>,
    group: u64,
) -> Option<u64>
    requires number { IfSome made (λ unit. unit.number ≡ dumper.old.appended.count + 1) }
    requires most { IfSome made (λ unit. unit.number ≤ 2 ^ 62) }
    requires before { IfSome made (λ unit. unit.before ≡ front_layout dumper.old.appended) }
{
    let unit = made?;
    let done = if group == 1 {
        publish(dumper, disk, &unit)
    } else {
        append(dumper, disk, &unit)
    };
    if done {
        Some(unit.bytes.len() as u64)
    } else {
        None
    }
}

/// Makes `count` units of a transaction, publishes them in groups, and answers how many bytes they had; none where the
/// output can't be opened or written, or where there is no room for a unit or it is too large.
pub fn publish_units<F: FileExt + OpenFile + Drop, R: Files<File = F> + Drop>(
    alloc: Global,
    disk: &mut FileDisk<R, F>,
    txn: &mut Txn,
    group: u64,
    count: u64,
) -> Result<Option<u64>, Memory> {
    let Ok(mut dumper) = Dumper::open(disk) else {
        return Ok(None);
    };
    let names = Names::new(alloc);
    let mut bytes = 0_u64;
    let mut waiting = 0_u64;
    for _ in 0..count {
        let made = next_unit(alloc, &dumper, txn, &names)?;
        let Some(length) = one_more(&mut dumper, disk, made, group) else {
            return Ok(None);
        };
        bytes = bytes.saturating_add(length);
        waiting = waiting.saturating_add(1);
        if waiting >= group {
            if !commit(&mut dumper, disk) {
                return Ok(None);
            }
            waiting = 0;
        }
    }
    Ok(if commit(&mut dumper, disk) {
        Some(bytes)
    } else {
        None
    })
}
