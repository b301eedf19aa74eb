//! Outputs, as disks in memory, and what a listing of them writes.

use cdc_list::{ListEnd, list, list_fronts};
use cdc_memory::{MemDisk, MemSink};
use cdc_outside::{DiskFile, write_through};
use std::alloc::Global;
use std::test::Fail;

/// The slot of a Front of the first version: gate, number 1, length 26, then version 1, count 1, file 1 of 241 bytes,
/// open.
pub const ONE_FILE: [u8; 43] = *b"\x01\x01\0\0\0\0\0\0\0\x1a\0\0\0\0\0\0\0\
\x01\x01\0\0\0\0\0\0\0\x01\0\0\0\0\0\0\0\xf1\0\0\0\0\0\0\0\0";

/// The same of count 3, file 2 of 241 bytes.
pub const TWO_FILES: [u8; 43] = *b"\x01\x03\0\0\0\0\0\0\0\x1a\0\0\0\0\0\0\0\
\x01\x03\0\0\0\0\0\0\0\x02\0\0\0\0\0\0\0\xf1\0\0\0\0\0\0\0\0";

/// Two transactions in one file of 399 bytes, which is closed.
pub const CLOSED_FILE: [u8; 43] = *b"\x01\x02\0\0\0\0\0\0\0\x1a\0\0\0\0\0\0\0\
\x01\x02\0\0\0\0\0\0\0\x01\0\0\0\0\0\0\0\x8f\x01\0\0\0\0\0\0\x01";

/// The second version, number 4, length 54: count 3, file 2 of 241 bytes, first file 2, two passed, the key 30 `g3`.
pub const FIRST_DROPPED: [u8; 71] = *b"\x01\x04\0\0\0\0\0\0\0\x36\0\0\0\0\0\0\0\
\x02\x03\0\0\0\0\0\0\0\x02\0\0\0\0\0\0\0\xf1\0\0\0\0\0\0\0\0\x02\0\0\0\0\0\0\0\x02\0\0\0\0\0\0\0\
\x1e\0\0\0\0\0\0\0\0\x02g3";

/// An open slot of number 1 and length 26 with 20 bytes of payload.
pub const SHORT_SLOT: [u8; 37] = *b"\x01\x01\0\0\0\0\0\0\0\x1a\0\0\0\0\0\0\0\
\x01\x01\0\0\0\0\0\0\0\x01\0\0\0\0\0\0\0\xf1\0\0";

/// What the files of an output hold.
const BYTES: [u8; 500] = [7; 500];

/// The disk of an output: this slot, and files of so many bytes, from the first on; no call was made on it.
pub fn shelf(alloc: Global, slot: &[u8], lengths: &[usize]) -> Result<MemDisk, Fail> {
    let mut disk = MemDisk::new(alloc, 4, 500, 20, &[])?;
    write_through(&mut disk, DiskFile::SlotA, 0, slot)?;
    let mut number = 1u64;
    for length in lengths {
        let bytes = BYTES.get(..*length).ok_or("too long")?;
        write_through(&mut disk, DiskFile::Log(number), 0, bytes)?;
        number = number.saturating_add(1);
    }
    Ok(disk.after_crash(alloc, 1)?)
}

/// How a listing ended, and what it wrote.
#[derive(Debug, Drop)]
pub struct Listed {
    pub end: ListEnd,
    pub out: MemSink,
}

impl Listed {
    /// Whether it ended so and wrote this.
    pub fn is(&self, end: ListEnd, text: &[u8]) -> bool {
        self.end == end && self.out.written() == text
    }
}

/// Lists these outs; the listed writes fail.
pub fn list_all(alloc: Global, outs: &mut Vec<MemDisk>, fails: &[u64]) -> Result<Listed, Fail> {
    if outs.len() > 4 {
        return Err("too many outs")?;
    }
    let mut out = MemSink::new(alloc, 1_000, fails)?;
    let end = list(alloc, outs, &mut out);
    Ok(Listed { end, out })
}

/// Writes the own lines of these outs; the listed writes fail.
pub fn list_own(alloc: Global, outs: &mut Vec<MemDisk>, fails: &[u64]) -> Result<Listed, Fail> {
    if outs.len() > 4 {
        return Err("too many outs")?;
    }
    let mut out = MemSink::new(alloc, 1_000, fails)?;
    let end = list_fronts(alloc, outs, &mut out);
    Ok(Listed { end, out })
}
