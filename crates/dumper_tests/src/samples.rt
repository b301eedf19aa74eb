//! Units, slots and disks, written down by hand.

ghost use Rattle.std.specs.Prelude.{◌≡◌, IfSome};

use crate::untold_disk::UntoldDisk;
use cdc_base::{Blob, Memory};
use cdc_dumper::look;
use cdc_memory::MemDisk;
use cdc_model::{Layout, Unit};
use cdc_outside::{DiskFile, Failed, write_through};
use cdc_samples::transactions::shared;
use std::alloc::Global;
use std::test::Fail;

/// The file of one transaction: its head and the print of the first one, 241 bytes.
pub const FIRST_FILE: [u8; 241] =
    *b"\xfebin\0\0\0\0\x0f\x01\0\0\0\x77\0\0\0\x7b\0\0\0\0\0\x04\x005.7.0-cdc\
\0\0\0\0\0\0\0\0\0\0\0\0\0\0\0\0\0\0\0\0\0\0\0\0\0\0\0\0\0\0\0\0\0\0\0\0\0\0\0\0\0\0\0\0\0\
\x13\x38\x0d\0\x08\0\x12\0\x04\x04\x04\x04\x12\0\0\x5f\0\x04\x1a\x08\0\0\0\x08\x08\x08\x02\0\0\0\x0a\x0a\x0a\x2a\x2a\0\x12\x34\0\0\0\0\0\0\
\x05\0\0\0\x02\x01\0\0\0\x26\0\0\0\xa1\0\0\0\0\0\0\0\0\0\0\0\0\0\0\0\0\0\0\0BEGIN\
\x05\0\0\0\x1d\x01\0\0\0\x35\0\0\0\xd6\0\0\0\0\0\x21CTS::0000000000000000010::0::6731\
\x05\0\0\0\x10\x01\0\0\0\x1b\0\0\0\xf1\0\0\0\0\0\x01\0\0\0\0\0\0\0";

/// The print of the second transaction, 118 bytes.
pub const SECOND_PRINT: [u8; 118] =
    *b"\x05\0\0\0\x02\x01\0\0\0\x26\0\0\0\x17\x01\0\0\0\0\0\0\0\0\0\0\0\0\0\0\0\0\0\0BEGIN\
\x05\0\0\0\x1d\x01\0\0\0\x35\0\0\0\x4c\x01\0\0\0\0\x21CTS::0000000000000000020::0::6732\
\x05\0\0\0\x10\x01\0\0\0\x1b\0\0\0\x67\x01\0\0\0\0\x02\0\0\0\0\0\0\0";

/// The slot of a Front of the first version: gate, number 1, length 26, then version 1, count 1, file 1 of 241 bytes,
/// open.
pub const VERSION_ONE: [u8; 43] = *b"\x01\x01\0\0\0\0\0\0\0\x1a\0\0\0\0\0\0\0\
\x01\x01\0\0\0\0\0\0\0\x01\0\0\0\0\0\0\0\xf1\0\0\0\0\0\0\0\0";

/// The slot of a Front of the second version: number 1, length 54, then version 2, count 1, file 1 of 241 bytes, open,
/// first file 1, none passed, the key 10 `g1`.
pub const FIRST: [u8; 71] = *b"\x01\x01\0\0\0\0\0\0\0\x36\0\0\0\0\0\0\0\
\x02\x01\0\0\0\0\0\0\0\x01\0\0\0\0\0\0\0\xf1\0\0\0\0\0\0\0\0\x01\0\0\0\0\0\0\0\0\0\0\0\0\0\0\0\
\x0a\0\0\0\0\0\0\0\0\x02g1";

/// The one behind it: number 2, count 2, file 1 of 359 bytes, the key 20 `g2`.
pub const SECOND: [u8; 71] = *b"\x01\x02\0\0\0\0\0\0\0\x36\0\0\0\0\0\0\0\
\x02\x02\0\0\0\0\0\0\0\x01\0\0\0\0\0\0\0\x67\x01\0\0\0\0\0\0\0\x01\0\0\0\0\0\0\0\0\0\0\0\0\0\0\0\
\x14\0\0\0\0\0\0\0\0\x02g2";

/// An empty disk with room for so many log files of so many bytes, and for so many changes.
pub fn empty_disk(
    alloc: Global,
    logs: u64,
    room: usize,
    changes: usize,
) -> Result<UntoldDisk, Memory> {
    Ok(UntoldDisk {
        disk: MemDisk::new(alloc, logs, room, changes, &[])?,
    })
}

/// What a crash leaves of a disk.
pub fn after_crash(alloc: Global, disk: &UntoldDisk, pick: u8) -> Result<UntoldDisk, Memory> {
    Ok(UntoldDisk {
        disk: disk.disk.after_crash(alloc, pick)?,
    })
}

/// Puts these bytes at the beginning of a file, and makes them durable.
pub fn put(disk: &mut UntoldDisk, file: DiskFile, bytes: &[u8]) -> Result<(), Failed> {
    write_through(disk, file, 0, bytes)
}

/// How many transactions an output has, by a look.
pub fn looked_at(disk: &mut UntoldDisk) -> Result<u64, Fail> {
    match look(disk) {
        Ok(front) => Ok(front.count),
        Err(fault) => Err(Fail::from(fault)),
    }
}

/// The unit of a number behind a layout, with the key 10 `g1` for the first, 20 `g2` for the second and so on: its bytes
/// go into the open file, or into the next where none is open. None where they can't.
pub fn unit_behind(number: u64, before: &Layout, bytes: Blob, closed: bool) -> Option<Unit>
    ensures number { IfSome result (λ unit. unit.number ≡ number) }
    ensures before { IfSome result (λ unit. unit.before ≡ before.now) }
{
    let step = number.min(100);
    let key = shared(10 * step, &[b'g', b'0' + step as u8])?;
    let begins = before.begins_file();
    if begins && bytes.len() < 123 {
        return None;
    }
    let file = if begins {
        before.file.checked_add(1)?
    } else {
        before.file
    };
    let at = if begins { 0 } else { before.length };
    let length = at.checked_add(bytes.len() as u64)?;
    Some(Unit {
        number,
        key,
        before: *before,
        after: Layout {
            file,
            length,
            closed,
        },
        bytes,
    })
}
