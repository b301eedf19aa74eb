//! Calls of `list`: configurations, and outs as disks in memory.

use crate::call::{Config, Room, Seen, call};
use crate::service::{Service, put, service_of};
use crate::untold_disk::UntoldDisk;
use cdc_memory::MemDisk;
use cdc_outside::DiskFile;
use std::alloc::Global;
use std::test::Fail;

/// A configuration of one node and two outs.
pub const CONFIG: &[u8] =
    b"[[node]]\nfiles = [\"n1\"]\n[[out]]\nfolder = \"o1\"\n[[out]]\nfolder = \"o2\"\n[task]\nfolder = \"t\"\n";

/// The slot of a Front of the first version: gate, number 1, length 26, then version 1, count 1, file 1 of 241 bytes,
/// open.
pub const ONE_FILE: &[u8] = b"\x01\x01\0\0\0\0\0\0\0\x1a\0\0\0\0\0\0\0\
\x01\x01\0\0\0\0\0\0\0\x01\0\0\0\0\0\0\0\xf1\0\0\0\0\0\0\0\0";

/// The same of count 3, file 2 of 241 bytes.
const TWO_FILES: &[u8] = b"\x01\x03\0\0\0\0\0\0\0\x1a\0\0\0\0\0\0\0\
\x01\x03\0\0\0\0\0\0\0\x02\0\0\0\0\0\0\0\xf1\0\0\0\0\0\0\0\0";

/// An open slot of number 1 and length 26 with 20 bytes of payload.
pub const SHORT_SLOT: &[u8] = b"\x01\x01\0\0\0\0\0\0\0\x1a\0\0\0\0\0\0\0\
\x01\x01\0\0\0\0\0\0\0\x01\0\0\0\0\0\0\0\xf1\0\0";

/// What the files of an out hold.
const BYTES: [u8; 500] = [7; 500];

// Files of so many bytes, from the first on.
fn put_files(disk: &mut UntoldDisk, lengths: &[usize]) -> Result<(), Fail> {
    let mut number = 1u64;
    for length in lengths {
        let bytes = BYTES.get(..*length).ok_or("too long")?;
        put(disk, DiskFile::Log(number), bytes)?;
        number = number.saturating_add(1);
    }
    Ok(())
}

/// The disk of an out: this slot, and files of so many bytes, from the first on; no call was made on it.
pub fn shelf(alloc: Global, slot: &[u8], lengths: &[usize]) -> Result<UntoldDisk, Fail> {
    let disk = MemDisk::new(alloc, 4, 500, 20, &[])?;
    let mut out = UntoldDisk { disk };
    put(&mut out, DiskFile::SlotA, slot)?;
    put_files(&mut out, lengths)?;
    Ok(out.after_crash(alloc, 1)?)
}

/// Two outs, in their order.
pub fn pair(alloc: Global, first: UntoldDisk, second: UntoldDisk) -> Result<Service, Fail> {
    let mut outs = Vec::new(alloc);
    outs.push(first)?;
    outs.push(second)?;
    let disk = MemDisk::new(alloc, 1, 0, 0, &[])?;
    Ok(service_of(outs, UntoldDisk { disk }))
}

/// An out of two files before one of this slot and these files.
pub fn shelves(alloc: Global, slot: &[u8], lengths: &[usize]) -> Result<Service, Fail> {
    let first = shelf(alloc, TWO_FILES, &[399, 241])?;
    let second = shelf(alloc, slot, lengths)?;
    pair(alloc, first, second)
}

/// Lists outs by a configuration, onto a sink whose writes fail so.
pub fn list(
    alloc: Global,
    config: &Config,
    service: &mut Service,
    fails: &[u64],
) -> Result<Seen, Fail> {
    let mut nodes = Vec::new(alloc);
    let room = Room {
        out: 1_000,
        fails,
        err: 100,
    };
    call(alloc, "list c", config, &mut nodes, service, &room)
}
