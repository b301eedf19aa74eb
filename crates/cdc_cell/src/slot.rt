//! The head of a slot.

ghost use Rattle.std.specs.Prelude.{◌≡◌, ℕ, ◌≤◌, List, IsTrue, length, take, IfOk};
ghost use Rattle.std.specs.Int.{from_le_bytes, w64};
ghost use Rattle.cdc_outside.specs.Count.{RisesOnErr};
ghost use Rattle.cdc_cell.specs.Reading.{IsLeftAlone};
ghost use Rattle.cdc_cell.specs.Slot.{head_of};

use crate::fault::DiskFault;
use crate::reading::read_full;
use cdc_outside::{Disk, DiskFile};

/// Bytes before the payload: the gate, the number and the length.
pub const HEAD: usize = 17;

/// The gate of a slot that counts.
pub const OPEN: u8 = 1;

/// The head of an open slot.
#[derive(Clone, Copy, Debug)]
pub struct SlotHead {
    pub number: u64,
    pub length: u64,
    /// The length goes past the file's end.
    pub overruns: bool,
}

/// A number of 8 bytes, the lowest first.
fn read_number(bytes: &[u8]) -> u64
    requires { length bytes.now ≡ 8 }
    ensures { result ≡ from_le_bytes w64 bytes.now }
{
    u64::from_le_bytes([
        bytes[0], bytes[1], bytes[2], bytes[3], bytes[4], bytes[5], bytes[6], bytes[7],
    ])
}

/// The head in these bytes of a file of this length, if it is open.
fn head_in(bytes: &[u8; 17], told: u64) -> Option<SlotHead>
    requires { 17 ≤ told }
    ensures { (file : List ℕ) → length file ≡ told → take 17 file ≡ bytes.now → result ≡ head_of file }
{
    if bytes[0] != OPEN {
        return None;
    }
    let length = read_number(&bytes[9..17]);
    Some(SlotHead {
        number: read_number(&bytes[1..9]),
        length,
        overruns: told - 17 < length,
    })
}

/// Reads the head of a slot, if it is open.
pub fn read_head<D: Disk>(disk: &mut D, file: DiskFile) -> Result<Option<SlotHead>, DiskFault>
    ensures head { IsTrue D.tells → IfOk result (λ head. head ≡ head_of (D.seen disk.old file)) }
    ensures alone { IsTrue D.tells → IsLeftAlone D.seen D.synced D.pending D.may_leave D.moment D.left_since disk.old disk.new }
    ensures faults { RisesOnErr (D.faults disk.old) (D.faults disk.new) result }
{
    let told = read_length(disk, file)?;
    if told < HEAD as u64 {
        return Ok(None);
    }
    let mut bytes = [0u8; HEAD];
    let read = read_full(disk, file, 0, &mut bytes)?;
    if read < HEAD {
        return Ok(None);
    }
    Ok(head_in(&bytes, told))
}

/// How many bytes a file has.
pub fn read_length<D: Disk>(disk: &mut D, file: DiskFile) -> Result<u64, DiskFault>
    ensures exact { IsTrue D.tells → IfOk result (λ told. told ≡ length (D.seen disk.old file)) }
    ensures alone { IsTrue D.tells → IsLeftAlone D.seen D.synced D.pending D.may_leave D.moment D.left_since disk.old disk.new }
    ensures faults { RisesOnErr (D.faults disk.old) (D.faults disk.new) result }
{
    Ok(disk.length(file)?)
}
