//! The first transaction on a disk that tells its content: the conditions of a publishing follow from those of an opening.

use crate::samples::{FIRST_FILE, unit_behind};
use cdc_dumper::Dumper;
use cdc_memory::MemDisk;
use cdc_samples::blobs::blob_of;
use std::alloc::Global;
use std::test::Fail;

// How many transactions an empty disk has when the first was published on it.
fn published_on_nothing(alloc: Global) -> Result<u64, Fail> {
    let bytes = blob_of(alloc, &FIRST_FILE)?;
    let mut disk = MemDisk::new(alloc, 3, 400, 16, &[])?;
    let Ok(mut dumper) = Dumper::open(&mut disk) else {
        return Ok(0);
    };
    let front = dumper.published();
    if front.count > 10 {
        return Ok(0);
    }
    let Some(unit) = unit_behind(front.count + 1, &front.layout(), bytes, false) else {
        return Ok(0);
    };
    let _done = dumper.publish(&mut disk, &unit).is_ok();
    Ok(dumper.published().count)
}

#[test]
fn the_first_is_published_on_a_told_disk(rt: HostRuntime) -> Result<(), Fail> {
    let count = published_on_nothing(rt.alloc())?;
    assert!(rt; count == 1, "{count}");
    Ok(())
}
