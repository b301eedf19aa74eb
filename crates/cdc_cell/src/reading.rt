//! Reads bytes of a file, all that are there.

ghost use Rattle.std.specs.Prelude.{◌≡◌, ℕ, ◌+◌, ◌-◌, ◌≤◌, ◌<◌, ◌^◌, IsTrue, length, take, drop, min, IfOk};
ghost use Rattle.cdc_outside.specs.Count.{RisesOnErr};
ghost use Rattle.cdc_cell.specs.Reading.{IsLeftAlone};

use crate::fault::DiskFault;
use cdc_outside::{Disk, DiskFile};

/// Reads once, at most as many bytes as `into` has.
fn read_piece<D: Disk>(
    disk: &mut D,
    file: DiskFile,
    at: u64,
    into: &mut [u8],
) -> Result<usize, DiskFault>
    ensures within { IfOk result (λ read. read ≤ length into.old) }
    ensures bytes { IsTrue D.tells → IfOk result (λ read. take read into.new ≡ take read (drop at (D.seen disk.old file))) }
    ensures there { IsTrue D.tells → IfOk result (λ read. read ≤ length (D.seen disk.old file) - at) }
    ensures none { IsTrue D.tells → 0 < length into.old → IfOk result (λ read. read ≡ 0 → length (D.seen disk.old file) ≤ at) }
    ensures alone { IsTrue D.tells → IsLeftAlone D.seen D.synced D.pending D.may_leave D.moment D.left_since disk.old disk.new }
    ensures faults { RisesOnErr (D.faults disk.old) (D.faults disk.new) result }
{
    Ok(disk.read_at(file, at, into)?)
}

/// Fills `into` with a file's bytes from `at` on, as far as there are any, and answers how many.
pub fn read_full<D: Disk>(
    disk: &mut D,
    file: DiskFile,
    at: u64,
    into: &mut [u8],
) -> Result<usize, DiskFault>
    requires { at + length into.old < 2 ^ 64 }
    ensures within { IfOk result (λ read. read ≤ length into.old) }
    ensures bytes { IsTrue D.tells → IfOk result (λ read. take read into.new ≡ take read (drop at (D.seen disk.old file))) }
    ensures all { IsTrue D.tells → IfOk result (λ read. read ≡ min (length into.old) (length (D.seen disk.old file) - at)) }
    ensures alone { IsTrue D.tells → IsLeftAlone D.seen D.synced D.pending D.may_leave D.moment D.left_since disk.old disk.new }
    ensures faults { RisesOnErr (D.faults disk.old) (D.faults disk.new) result }
{
    let mut filled = 0;
    while filled < into.len() {
        let read = read_piece(disk, file, at + filled as u64, &mut into[filled..])?;
        if read == 0 {
            break;
        }
        filled += read;
    }
    Ok(filled)
}
