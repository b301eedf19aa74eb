//! Checkpoints and the slots that keep them, written down by hand.

use cdc_base::{Key, Memory, Place, Xid, gtrid_of};
use cdc_memory::MemDisk;
use cdc_model::{HeldList, Layout, NodeCut};
use cdc_outside::{DiskFile, write_through};
use cdc_records::{Checkpoint, CutList};
use cdc_task::{TaskFault, load};
use std::alloc::Global;
use std::test::Fail;

/// The rotation size of the samples: 512 MiB.
pub const ROTATION: u64 = 536_870_912;

/// The slot of the first sample: gate, number 4, length 101, then version 2, count 1, file 1 of 241 bytes, open, the key
/// 10 `g1`, the rotation size, one node: entry 3, place 1:293, mark 10, setting 0, one held branch: floor 0, format 1,
/// `g1` and no qualifier.
pub const FIRST: [u8; 118] = *b"\x01\x04\0\0\0\0\0\0\0\x65\0\0\0\0\0\0\0\
\x02\x01\0\0\0\0\0\0\0\x01\0\0\0\0\0\0\0\xf1\0\0\0\0\0\0\0\0\x0a\0\0\0\0\0\0\0\0\x02g1\0\0\0\x20\0\0\0\0\
\x01\0\x03\0\0\0\0\0\0\0\x01\0\0\0\x25\x01\0\0\0\0\0\0\x0a\0\0\0\0\0\0\0\0\x01\0\0\0\0\0\0\0\
\0\0\0\0\0\0\0\0\x01\0\0\0\x02g1\0";

/// The slot of the second sample: number 8, length 85, count 2, file 1 of 359 bytes, the key 20 `g2`, entry 6, place
/// 1:603, mark 20, nothing held.
pub const SECOND: [u8; 102] = *b"\x01\x08\0\0\0\0\0\0\0\x55\0\0\0\0\0\0\0\
\x02\x02\0\0\0\0\0\0\0\x01\0\0\0\0\0\0\0\x67\x01\0\0\0\0\0\0\0\x14\0\0\0\0\0\0\0\0\x02g2\0\0\0\x20\0\0\0\0\
\x01\0\x06\0\0\0\0\0\0\0\x01\0\0\0\x5b\x02\0\0\0\0\0\0\x14\0\0\0\0\0\0\0\0\0\0\0\0\0\0\0\0";

/// The first sample in a record of version 1, which has 93 bytes and names no rotation size.
pub const VERSION_ONE: [u8; 110] = *b"\x01\x04\0\0\0\0\0\0\0\x5d\0\0\0\0\0\0\0\
\x01\x01\0\0\0\0\0\0\0\x01\0\0\0\0\0\0\0\xf1\0\0\0\0\0\0\0\0\x0a\0\0\0\0\0\0\0\0\x02g1\
\x01\0\x03\0\0\0\0\0\0\0\x01\0\0\0\x25\x01\0\0\0\0\0\0\x0a\0\0\0\0\0\0\0\0\x01\0\0\0\0\0\0\0\
\0\0\0\0\0\0\0\0\x01\0\0\0\x02g1\0";

// The point of a node in file 1, with `g1` held where it is asked for.
fn point(alloc: Global, entry: u64, at: u64, mark: u64, holds: bool) -> Result<NodeCut, Memory> {
    let mut held = HeldList::new(alloc);
    if holds {
        if let (Some(gtrid), Some(bqual)) = (gtrid_of(b"g1"), gtrid_of(b"")) {
            let xid = Xid {
                gtrid,
                bqual,
                format: 1,
            };
            held.push((xid, 0))?;
        }
    }
    Ok(NodeCut {
        entry,
        place: Place { file: 1, at },
        mark: mark.min(1_000),
        checksum: 0,
        held,
    })
}

/// The first sample, or the second.
pub fn sample(alloc: Global, second: bool) -> Result<Checkpoint, Fail> {
    let (id, cut) = if second {
        (b"g2", point(alloc, 6, 603, 20, false)?)
    } else {
        (b"g1", point(alloc, 3, 293, 10, true)?)
    };
    let mut nodes = CutList::new(alloc);
    nodes.push(cut)?;
    let Some(gtrid) = gtrid_of(id) else {
        return Err(Fail::from("no id"));
    };
    Ok(Checkpoint {
        count: if second { 2 } else { 1 },
        layout: Layout {
            file: 1,
            length: if second { 359 } else { 241 },
            closed: false,
        },
        last: Key::Shared {
            timestamp: if second { 20 } else { 10 },
            gtrid,
        },
        rotation: Some(ROTATION),
        nodes,
    })
}

/// A disk with these slots, synced and before its first call.
pub fn with_slots(alloc: Global, first: &[u8], second: &[u8]) -> Result<MemDisk, Fail> {
    let mut disk = MemDisk::new(alloc, 0, 512, 8, &[])?;
    write_through(&mut disk, DiskFile::SlotA, 0, first)?;
    write_through(&mut disk, DiskFile::SlotB, 0, second)?;
    Ok(disk.after_crash(alloc, 1)?)
}

/// What a disk keeps for one node under the samples' rotation size: the count of its checkpoint, 0 where there is none.
pub fn kept_count(alloc: Global, disk: &mut MemDisk) -> Result<u64, TaskFault> {
    let (_cell, kept) = load(alloc, disk, 1, ROTATION)?;
    Ok(match kept {
        Some(checkpoint) => checkpoint.count,
        None => 0,
    })
}
