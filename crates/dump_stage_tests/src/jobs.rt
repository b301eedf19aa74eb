//! Stages with their disks in memory.

use crate::untold_disk::UntoldDisk;
use cdc_base::{Key, Memory};
use cdc_dump_stage::{DumpJob, DumpStage};
use cdc_dumper::Dumper;
use cdc_memory::MemDisk;
use std::alloc::Global;
use std::test::Fail;

/// An empty disk with room for three log files of 400 bytes, and for a hundred changes.
pub fn empty_disk(alloc: Global) -> Result<UntoldDisk, Memory> {
    Ok(UntoldDisk {
        disk: MemDisk::new(alloc, 3, 400, 100, &[])?,
    })
}

/// What a crash leaves of a disk.
pub fn after_crash(alloc: Global, disk: &UntoldDisk, pick: u8) -> Result<UntoldDisk, Memory> {
    Ok(UntoldDisk {
        disk: disk.disk.after_crash(alloc, pick)?,
    })
}

/// The stage of the output that a disk has, with the disk, where the pass goes on from a checkpoint with this count and key,
/// or from none.
pub fn job_over(disk: UntoldDisk, start: Option<(u64, Key)>) -> Result<DumpJob<UntoldDisk>, Fail> {
    let mut disk = disk;
    let Ok(dumper) = Dumper::open(&mut disk) else {
        return Err("not opened")?;
    };
    let stage = DumpStage::new(dumper, start);
    Ok(DumpJob::new(stage, disk))
}
