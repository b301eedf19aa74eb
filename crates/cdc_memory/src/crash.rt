//! What a crash leaves of a disk in memory.

ghost use Rattle.std.specs.Prelude.{◌≡◌, ℕ, ◌+◌, ◌≤◌, ◌<◌, ◌%◌, ◌==◌, ◌||◌, nat_le, length, take, drop, IfOk, if◌then◌else◌};
ghost use Rattle.cdc_outside.specs.Disk.{Image, Change, shortest, is_written};
ghost use Rattle.cdc_memory.specs.CrashPick.{marked, crash_pick};
ghost use Rattle.cdc_memory.specs.Replay.{at_rest, after_steps};

use crate::disk_record::DiskRecord;
use crate::mem_file::MemFile;
use cdc_base::Memory;
use cdc_outside::DiskFile;
use std::alloc::Global;

/// One outcome of a crash for a file, as bytes of its own.
pub fn left_by_crash(
    alloc: Global,
    history: &DiskRecord,
    file: DiskFile,
    pick: u8,
    synced: &[u8],
    seen: &[u8],
    room: usize,
) -> Result<MemFile, Memory>
    requires synced { length synced.now ≤ room }
    requires seen { length seen.now ≤ room }
    ensures bytes { (image : Image) → IfOk result (λ left. left.bytes.items ≡ crash_pick pick synced.now ((after_steps (at_rest image) history.now.steps.items).pending file) seen.now) }
    ensures room { IfOk result (λ left. left.room ≡ room) }
{
    let mut left = MemFile::new(alloc, room)?;
    match pick % 4 {
        0 => {
            let least = history.shortest(file, synced.len() as u64);
            left.set(synced);
            left.cut(least as usize);
        }
        1 => left.set(seen),
        2 => mark(history, file, synced.len() as u64, seen, 0xa5, &mut left),
        _ => mark(history, file, synced.len() as u64, seen, 0x01, &mut left),
    }
    Ok(left)
}

/// The bytes that are seen, with a value for each that was written since the last sync, or that the file got since.
fn mark(
    history: &DiskRecord,
    file: DiskFile,
    synced: u64,
    seen: &[u8],
    value: u8,
    left: &mut MemFile,
)
    requires { length seen.now ≤ left.old.room }
    ensures bytes { (image : Image) → left.new.bytes.items ≡ marked value 0 synced ((after_steps (at_rest image) history.now.steps.items).pending file) seen.now }
    ensures room { left.new.room ≡ left.old.room }
{
    left.cut(0);
    let mut place = 0u64;
    for byte in seen {
        left.push(marked_byte(history, file, synced, value, place, *byte));
        place += 1;
    }
}

/// One byte of them.
fn marked_byte(
    history: &DiskRecord,
    file: DiskFile,
    synced: u64,
    value: u8,
    place: u64,
    byte: u8,
) -> u8
    ensures { (image : Image) → result ≡ (if is_written place ((after_steps (at_rest image) history.now.steps.items).pending file) || nat_le synced place then value else byte) }
{
    if history.is_written(file, place) || synced <= place {
        value
    } else {
        byte
    }
}
