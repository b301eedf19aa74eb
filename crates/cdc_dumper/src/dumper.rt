//! The dumper: units are appended, and published by one commit.

ghost use Rattle.std.specs.Prelude.{◌≡◌, ◌+◌, ◌≤◌, ◌<◌, ◌^◌, ◌⊎◌, true, false, Some, IsTrue, length, take, drop, IfOk, IfErr, OnOk, OnErr, is_err};
ghost use Rattle.cdc_outside.specs.Count.{Rose, RisesOnErr};
ghost use Rattle.cdc_outside.specs.Disk.{IsDurable, IsWaiting, LeavesOnly};
ghost use Rattle.cdc_records.specs.Front.{front_layout};
ghost use Rattle.cdc_dumper.specs.Opening.{IsFound, IsOpenFault, IsTrimmedTo, IsOldOrTrimmed, AreEmptyBehind};
ghost use Rattle.cdc_dumper.specs.Moves.{front_with, StillHas, IsAppended, SameNext, IsBeforeOrCommitted, IsBeforeOrNew, HasCommitted, HasNew};

use crate::fault::OpenFault;
use crate::finding::{Found, find, trim};
use crate::steps::{front_after, starts_at, store_front, write_unit};
use cdc_cell::{Cell, DiskFault};
use cdc_model::Unit;
use cdc_outside::{Disk, settle};
use cdc_records::Front;
use std::marker::Model;

/// An output that is written: its cell, the Front that is published, and the one of all that was appended. After a
/// failed call it isn't used again: the disk is opened anew.
#[derive(Debug, Drop)]
pub struct Dumper {
    cell: Cell,
    published: Front,
    appended: Front,
    failed: bool,
}

impl Model for Dumper {
    ghost use Rattle.cdc_dumper.specs.State.{DumperState};

    ghost Value = { DumperState };

    ghost use Rattle.cdc_dumper.specs.Shape.{dumper_seen, IsKeptDumper};

    ghost view = { dumper_seen };

    ghost invariant = { IsKeptDumper };
}

impl Dumper {
    ghost use Rattle.cdc_dumper.specs.State.{IsShaped, Stands};

    /// Opens an output: makes durable what is there, finds the Front, and cuts off what stands behind it, in the
    /// Front's file and in the next.
    pub fn open<D: Disk>(disk: &mut D) -> Result<Dumper, OpenFault>
        ensures found { IsTrue D.tells → IfOk result (λ dumper. IsFound (D.seen disk.old) dumper.published) }
        ensures settled { IfOk result (λ dumper. dumper.appended ≡ dumper.published) }
        ensures works { IfOk result (λ dumper. dumper.failed ≡ false) }
        ensures refused { IsTrue D.tells → IfErr result (λ e. IsOpenFault (D.seen disk.old) e) }

        // Nothing is pending, and nothing stands behind the Front; a disk without files further on is as `append` wants it.
        ensures durable { IsTrue D.tells → OnOk result (IsDurable (D.seen disk.new) (D.synced disk.new) (D.pending disk.new)) }
        ensures trimmed { IsTrue D.tells → IfOk result (λ dumper. IsTrimmedTo dumper.published (D.seen disk.old) (D.seen disk.new)) }
        ensures stands { IsTrue D.tells → IfOk result (λ dumper. AreEmptyBehind (dumper.published.file + 1) (D.seen disk.old)
            → Stands dumper (D.seen disk.new) (D.synced disk.new) (D.pending disk.new)) }
        ensures any_moment { IsTrue D.tells → LeavesOnly D.moment D.left_since disk.old disk.new (IsOldOrTrimmed (D.may_leave disk.old) (D.seen disk.old)) }

        ensures later { D.faults disk.old ≤ D.faults disk.new }
        ensures failed { result ≡ Err OpenFault.DiskFault → Rose (D.faults disk.old) (D.faults disk.new) }
    {
        settle(disk)?;
        let found = find(disk)?;
        trim(disk, &found.front)?;
        let appended = found.front;
        let Found { cell, front } = found;
        Ok(Dumper {
            cell,
            published: front,
            appended,
            failed: false,
        })
    }

    /// The Front that is published.
    pub fn published(&self) -> Front
        ensures { result ≡ self.now.published }
    {
        self.published
    }

    /// The Front of all that was appended, behind which the next unit stands.
    pub fn appended(&self) -> Front
        ensures { result ≡ self.now.appended }
    {
        self.appended
    }

    /// Whether an append or a commit failed.
    pub fn failed(&self) -> bool
        ensures { result ≡ self.now.failed }
    {
        self.failed
    }

    /// Whether a commit has to come before this unit is appended: its file isn't the published Front's or the next.
    pub fn must_commit(&self, unit: &Unit) -> bool
        ensures must { result ≡ true → self.now.published.file + 1 < unit.now.after.file }
        ensures need_not { result ≡ false → unit.now.after.file ≤ self.now.published.file + 1 }
    {
        unit.after.file > self.published.file.saturating_add(1)
    }

    /// Writes a unit behind what was appended. Nothing is published by it. After a failure nothing more is written.
    pub fn append<D: Disk>(&mut self, disk: &mut D, unit: &Unit) -> Result<(), DiskFault>
        requires works { self.old.failed ≡ false }
        requires number { unit.now.number ≡ self.old.appended.count + 1 }
        requires most { unit.now.number ≤ 2 ^ 62 }
        requires before { unit.now.before ≡ front_layout self.old.appended }
        requires near { unit.now.after.file ≤ self.old.published.file + 1 }
        requires stands { IsTrue D.tells → Stands self.old (D.seen disk.old) (D.synced disk.old) (D.pending disk.old) }

        ensures stands { IsTrue D.tells → OnOk result (Stands self.new (D.seen disk.new) (D.synced disk.new) (D.pending disk.new)) }
        ensures published { self.new.published ≡ self.old.published }
        ensures appended { OnOk result (self.new.appended ≡ front_with self.old.appended unit.now) }
        ensures old_appended { OnErr result (self.new.appended ≡ self.old.appended) }
        ensures failed { self.new.failed ≡ is_err result }

        // A crash at any moment leaves what is published.
        ensures any_moment { IsTrue D.tells → LeavesOnly D.moment D.left_since disk.old disk.new (StillHas self.old.published (D.seen disk.old)) }
        // A unit in the Front's file leaves the next one as it is.
        ensures next_file { IsTrue D.tells → unit.now.after.file ≡ self.old.published.file
            → LeavesOnly D.moment D.left_since disk.old disk.new (SameNext self.old.published (D.seen disk.old)) }
        ensures new { IsTrue D.tells → OnOk result (IsAppended self.old.appended unit.now (D.seen disk.old) (D.seen disk.new)) }
        ensures faults { RisesOnErr (D.faults disk.old) (D.faults disk.new) result }
    {
        let at = starts_at(unit);
        self.failed = true;
        write_unit(disk, unit, at)?;
        self.appended = front_after(&self.appended, unit);
        self.failed = false;
        Ok(())
    }

    /// Makes all that was appended durable, and publishes it by one store. Where nothing was appended nothing is done.
    pub fn commit<D: Disk>(&mut self, disk: &mut D) -> Result<(), DiskFault>
        requires works { self.old.failed ≡ false }
        requires stands { IsTrue D.tells → Stands self.old (D.seen disk.old) (D.synced disk.old) (D.pending disk.old) }

        ensures stands { IsTrue D.tells → OnOk result (Stands self.new (D.seen disk.new) (D.synced disk.new) (D.pending disk.new)) }
        ensures published { OnOk result (self.new.published ≡ self.old.appended) }
        ensures old_published { OnErr result (self.new.published ≡ self.old.published) }
        ensures appended { self.new.appended ≡ self.old.appended }
        ensures failed { self.new.failed ≡ is_err result }

        // A crash at any moment leaves what was published before, or all that was appended.
        ensures any_moment { IsTrue D.tells → LeavesOnly D.moment D.left_since disk.old disk.new (IsBeforeOrCommitted self.old.published self.old.appended (D.seen disk.old)) }
        // Where nothing was appended to the next file it is as it was.
        ensures next_file { IsTrue D.tells → self.old.appended.file ≡ self.old.published.file
            → LeavesOnly D.moment D.left_since disk.old disk.new (SameNext self.old.published (D.seen disk.old)) }
        ensures new { IsTrue D.tells → OnOk result (HasCommitted self.old.appended (D.seen disk.old) (D.seen disk.new)) }
        ensures durable { IsTrue D.tells → OnOk result (IsDurable (D.seen disk.new) (D.synced disk.new) (D.pending disk.new)) }
        ensures faults { RisesOnErr (D.faults disk.old) (D.faults disk.new) result }
    {
        if self.appended.count == self.published.count {
            return Ok(());
        }
        self.failed = true;
        store_front(&mut self.cell, disk, &self.published, &self.appended)?;
        self.published = self.appended;
        self.failed = false;
        Ok(())
    }

    /// Appends a unit where nothing else was appended, and commits it.
    pub fn publish<D: Disk>(&mut self, disk: &mut D, unit: &Unit) -> Result<(), DiskFault>
        requires works { self.old.failed ≡ false }
        requires settled { self.old.appended ≡ self.old.published }
        requires number { unit.now.number ≡ self.old.published.count + 1 }
        requires most { unit.now.number ≤ 2 ^ 62 }
        requires before { unit.now.before ≡ front_layout self.old.published }
        requires stands { IsTrue D.tells → Stands self.old (D.seen disk.old) (D.synced disk.old) (D.pending disk.old) }

        ensures stands { IsTrue D.tells → OnOk result (Stands self.new (D.seen disk.new) (D.synced disk.new) (D.pending disk.new)) }
        ensures published { OnOk result (self.new.published ≡ front_with self.old.published unit.now) }
        ensures settled_again { OnOk result (self.new.appended ≡ self.new.published) }
        ensures old_published { OnErr result (self.new.published ≡ self.old.published) }
        ensures failed { self.new.failed ≡ is_err result }

        // A crash at any moment leaves what was published before, or the unit as well.
        ensures any_moment { IsTrue D.tells → LeavesOnly D.moment D.left_since disk.old disk.new (IsBeforeOrNew self.old.published unit.now (D.seen disk.old)) }
        // A unit in the Front's file leaves the next one as it is.
        ensures next_file { IsTrue D.tells → unit.now.after.file ≡ self.old.published.file
            → LeavesOnly D.moment D.left_since disk.old disk.new (SameNext self.old.published (D.seen disk.old)) }
        ensures new { IsTrue D.tells → OnOk result (HasNew self.old.published unit.now (D.seen disk.old) (D.seen disk.new)) }
        ensures durable { IsTrue D.tells → OnOk result (IsDurable (D.seen disk.new) (D.synced disk.new) (D.pending disk.new)) }
        ensures faults { RisesOnErr (D.faults disk.old) (D.faults disk.new) result }
    {
        // So its file is known to be at most the one behind the published Front's.
        let _place = starts_at(unit);
        self.append(disk, unit)?;
        self.commit(disk)
    }

    /// What is true of every dumper: each of its Fronts is a record's or none, and what was appended goes on from what is
    /// published.
    pub fn keeps_shape(&self)
        ensures { IsShaped self.now }
    {
        let _failed = self.failed;
    }
}
