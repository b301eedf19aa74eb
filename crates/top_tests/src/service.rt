//! The disks of a service, in memory, which don't tell what they have, as folders don't.

use crate::untold_disk::UntoldDisk;
use cdc_base::Memory;
use cdc_memory::MemDisk;
use cdc_outside::{Disk, DiskFile, Failed, write_through};
use std::alloc::Global;
use std::test::Fail;

/// The disks of a service.
#[derive(Drop)]
pub struct Service {
    pub outs: Vec<UntoldDisk>,
    pub task: UntoldDisk,
}

impl Service {
    /// A service without outs, whose task has no room.
    pub fn bare(alloc: Global) -> Result<Service, Memory> {
        let disk = MemDisk::new(alloc, 1, 0, 0, &[])?;
        Ok(service_of(Vec::new(alloc), UntoldDisk { disk }))
    }

    /// A service of so many outs that has published nothing.
    pub fn empty(alloc: Global, outs: usize) -> Result<Service, Memory> {
        let outs = empty_disks(alloc, outs)?;
        Ok(service_of(outs, disk_failing(alloc, &[])?))
    }

    /// The disks as a crash leaves them.
    pub fn after_crash(&self, alloc: Global, pick: u8) -> Result<Service, Memory> {
        let task = self.task.after_crash(alloc, pick)?;
        Ok(service_of(crashed(alloc, &self.outs, pick)?, task))
    }
}

/// These outs and this task.
pub fn service_of(outs: Vec<UntoldDisk>, task: UntoldDisk) -> Service {
    Service { outs, task }
}

/// An empty disk of which these calls fail.
pub fn disk_failing(alloc: Global, fails: &[u64]) -> Result<UntoldDisk, Memory> {
    let disk = MemDisk::new(alloc, 3, 2_000, 400, fails)?;
    Ok(UntoldDisk { disk })
}

/// An empty disk that stops at this call.
pub fn disk_stopping(alloc: Global, call: u64) -> Result<UntoldDisk, Memory> {
    let mut stopping = disk_failing(alloc, &[])?;
    stopping.disk.stop_at(call);
    Ok(stopping)
}

// So many empty disks.
fn empty_disks(alloc: Global, count: usize) -> Result<Vec<UntoldDisk>, Memory> {
    let mut disks = Vec::new(alloc);
    for _disk in 0..count {
        disks.push(disk_failing(alloc, &[])?)?;
    }
    Ok(disks)
}

// Disks as a crash leaves them.
fn crashed(alloc: Global, disks: &Vec<UntoldDisk>, pick: u8) -> Result<Vec<UntoldDisk>, Memory> {
    let mut left = Vec::new(alloc);
    for disk in disks {
        left.push(disk.after_crash(alloc, pick)?)?;
    }
    Ok(left)
}

/// Writes bytes into a file of a disk.
pub fn put(disk: &mut UntoldDisk, file: DiskFile, bytes: &[u8]) -> Result<(), Fail> {
    match write_through(disk, file, 0, bytes) {
        Ok(()) => Ok(()),
        Err(Failed) => Err("no room")?,
    }
}

/// Whether a disk's file has these bytes, and no more.
pub fn has_file(disk: &mut UntoldDisk, file: DiskFile, wanted: &[u8]) -> bool {
    let mut bytes = [0; 700];
    match disk.read_at(file, 0, &mut bytes) {
        Ok(read) => bytes.get(..read) == Some(wanted),
        Err(Failed) => false,
    }
}
