//! Small blocks of changes and a sync, above which nobody sees what is pending.

ghost use Rattle.std.specs.Prelude.{◌≡◌, ◌+◌, ◌<◌, ◌≤◌, ◌++◌, ◌^◌, IsTrue, length, take, OnOk};
ghost use Rattle.cdc_outside.specs.Count.{RisesOnErr};
ghost use Rattle.cdc_outside.specs.Disk.{Keep, KeepsBelow, IsWaiting, IsPlaceBehind, IsDurable, LeavesOnly, OneWrite, OneCut, with_file, overwritten};

use crate::disk::Disk;
use crate::disk_file::DiskFile;
use crate::failed::Failed;

/// Makes all that a read gives durable. A crash at any moment leaves only what one could leave before.
pub fn settle<D: Disk>(disk: &mut D) -> Result<(), Failed>
    ensures seen { IsTrue D.tells → D.seen disk.new ≡ D.seen disk.old }
    ensures durable { IsTrue D.tells → OnOk result (IsDurable (D.seen disk.new) (D.synced disk.new) (D.pending disk.new)) }
    ensures any_moment { IsTrue D.tells → LeavesOnly D.moment D.left_since disk.old disk.new (D.may_leave disk.old) }
    ensures faults { RisesOnErr (D.faults disk.old) (D.faults disk.new) result }
{
    disk.sync()
}

/// Writes bytes into a file, and makes them durable.
pub fn write_through<D: Disk>(
    disk: &mut D,
    file: DiskFile,
    at: u64,
    from: &[u8],
) -> Result<(), Failed>
    requires { IsTrue D.tells → at ≤ length (D.seen disk.old file) }

    ensures seen { IsTrue D.tells → OnOk result (D.seen disk.new ≡ with_file file (overwritten at from.now (D.seen disk.old file)) (D.seen disk.old)) }
    ensures durable { IsTrue D.tells → OnOk result (IsDurable (D.seen disk.new) (D.synced disk.new) (D.pending disk.new)) }

    // Where nothing was pending, a crash at any moment leaves the write done, in part or not at all.
    ensures any_moment { IsTrue D.tells → IsDurable (D.seen disk.old) (D.synced disk.old) (D.pending disk.old)
        → LeavesOnly D.moment D.left_since disk.old disk.new (OneWrite file at (length from.now) (D.seen disk.old)) }
    ensures faults { RisesOnErr (D.faults disk.old) (D.faults disk.new) result }
{
    disk.write_at(file, at, from)?;
    disk.sync()
}

/// Writes two pieces into a file, the second right behind the first, and makes them durable with one sync.
pub fn write_pair_through<D: Disk>(
    disk: &mut D,
    file: DiskFile,
    at: u64,
    first: &[u8],
    second: &[u8],
) -> Result<(), Failed>
    requires place { IsTrue D.tells → at ≤ length (D.seen disk.old file) }
    requires fits { at + length first.now < 2 ^ 64 }

    ensures seen { IsTrue D.tells → OnOk result (D.seen disk.new ≡ with_file file (overwritten at (first.now ++ second.now) (D.seen disk.old file)) (D.seen disk.old)) }
    ensures durable { IsTrue D.tells → OnOk result (IsDurable (D.seen disk.new) (D.synced disk.new) (D.pending disk.new)) }

    // Where nothing was pending, a crash at any moment leaves one write of both, done, in part or not at all.
    ensures any_moment { IsTrue D.tells → IsDurable (D.seen disk.old) (D.synced disk.old) (D.pending disk.old)
        → LeavesOnly D.moment D.left_since disk.old disk.new (OneWrite file at (length first.now + length second.now) (D.seen disk.old)) }
    ensures faults { RisesOnErr (D.faults disk.old) (D.faults disk.new) result }
{
    disk.write_at(file, at, first)?;
    disk.write_at(file, at + first.len() as u64, second)?;
    disk.sync()
}

/// Cuts a file, and makes that durable.
pub fn cut_through<D: Disk>(disk: &mut D, file: DiskFile, to: u64) -> Result<(), Failed>
    requires { IsTrue D.tells → to ≤ length (D.seen disk.old file) }

    ensures seen { IsTrue D.tells → OnOk result (D.seen disk.new ≡ with_file file (take to (D.seen disk.old file)) (D.seen disk.old)) }
    ensures durable { IsTrue D.tells → OnOk result (IsDurable (D.seen disk.new) (D.synced disk.new) (D.pending disk.new)) }

    // Where nothing was pending, a crash at any moment leaves the cut done, in part or not at all.
    ensures any_moment { IsTrue D.tells → IsDurable (D.seen disk.old) (D.synced disk.old) (D.pending disk.old)
        → LeavesOnly D.moment D.left_since disk.old disk.new (OneCut file to (D.seen disk.old)) }
    ensures faults { RisesOnErr (D.faults disk.old) (D.faults disk.new) result }
{
    disk.cut(file, to)?;
    disk.sync()
}

/// Writes bytes behind what is to stay of a file, over any number of writes that wait for a sync as well.
pub fn write_behind<D: Disk>(
    disk: &mut D,
    file: DiskFile,
    at: u64,
    from: &[u8],
) -> Result<(), Failed>
    requires { IsTrue D.tells → at ≤ length (D.seen disk.old file) }

    ensures seen { IsTrue D.tells → OnOk result (D.seen disk.new ≡ with_file file (overwritten at from.now (D.seen disk.old file)) (D.seen disk.old)) }

    // Also after `Failed`: what is to stay does, and the next write may follow.
    ensures waits { IsTrue D.tells → (keep : Keep) → IsPlaceBehind (keep file) at
        → IsWaiting keep (D.seen disk.old) (D.synced disk.old) (D.pending disk.old)
        → IsWaiting keep (D.seen disk.new) (D.synced disk.new) (D.pending disk.new) }
    ensures any_moment { IsTrue D.tells → (keep : Keep) → IsPlaceBehind (keep file) at
        → IsWaiting keep (D.seen disk.old) (D.synced disk.old) (D.pending disk.old)
        → LeavesOnly D.moment D.left_since disk.old disk.new (KeepsBelow keep (D.seen disk.old)) }
    ensures faults { RisesOnErr (D.faults disk.old) (D.faults disk.new) result }
{
    disk.write_at(file, at, from)
}
