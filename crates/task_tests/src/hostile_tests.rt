//! Records that are no checkpoint's.

use crate::samples::{FIRST, ROTATION, with_slots};
use cdc_base::Buffer;
use cdc_outside::DiskFile;
use cdc_task::{TaskFault, load};
use std::alloc::Global;
use std::test::Fail;

// Whether the first sample with one byte of its payload changed is refused, with its slot.
fn is_refused(alloc: Global, at: usize, value: u8) -> Result<bool, Fail> {
    let mut slot = FIRST;
    if at < 101 {
        slot[17 + at] = value;
    }
    let mut disk = with_slots(alloc, &slot, b"")?;
    Ok(matches!(
        load(alloc, &mut disk, 1, ROTATION),
        Err(TaskFault::BadCell(DiskFile::SlotA))
    ))
}

#[test]
fn each_field_out_of_its_range_is_refused(rt: HostRuntime) -> Result<(), Fail> {
    // Version, count, file, length, closed, timestamp, class, id's length; number of nodes; entry, file of the place, mark,
    // setting, number held, floor, id's length, qualifier's length.
    let rows = [
        (0, 0),
        (0, 1),
        (0, 3),
        (1, 0),
        (1, 2),
        (9, 2),
        (20, 0x40),
        (25, 2),
        (33, 0x80),
        (34, 1),
        (34, 2),
        (35, 65),
        (35, 255),
        (46, 0),
        (46, 2),
        (47, 1),
        (48, 0),
        (48, 1),
        (48, 4),
        (56, 0),
        (75, 0x80),
        (76, 2),
        (77, 0),
        (77, 2),
        (84, 0x80),
        (92, 0x80),
        (97, 65),
        (97, 0),
        (100, 1),
        (100, 65),
    ];
    for (at, value) in rows {
        let refused = is_refused(rt.alloc(), at, value)?;
        assert!(rt; refused, "byte {at} as {value}");
    }
    Ok(())
}

#[test]
fn each_field_in_its_range_is_taken(rt: HostRuntime) -> Result<(), Fail> {
    // Length, closed, timestamp, place, mark, setting, floor, format.
    let rows = [
        (20, 0x3f),
        (25, 1),
        (33, 0x7f),
        (56, 2),
        (63, 9),
        (75, 0x7f),
        (76, 1),
        (92, 0x7f),
        (96, 255),
    ];
    for (at, value) in rows {
        let refused = is_refused(rt.alloc(), at, value)?;
        assert!(rt; !refused, "byte {at} as {value}");
    }
    Ok(())
}

// A node's point with these held branches behind a head: number of held branches, then each with floor 0, format 1, the id
// and no qualifier.
fn refused_with(alloc: Global, held: &[&[u8]], count: u8) -> Result<bool, Fail> {
    let mut slot = Buffer::new(alloc);
    slot.push(&FIRST[..94])?;
    slot.push(&[count, 0, 0, 0, 0, 0, 0, 0])?;
    for id in held {
        slot.push(b"\0\0\0\0\0\0\0\0\x01\0\0\0")?;
        slot.push(&[id.len().min(255) as u8])?;
        slot.push(id)?;
        slot.push(b"\0")?;
    }
    let length = slot.len().saturating_sub(17).min(1_000) as u16;
    let mut bytes = Buffer::new(alloc);
    bytes.push(b"\x01\x04\0\0\0\0\0\0\0")?;
    bytes.push(&length.to_le_bytes())?;
    bytes.push(b"\0\0\0\0\0\0")?;
    if 17 <= slot.len() {
        bytes.push(&slot.bytes()[17..])?;
    }
    let mut disk = with_slots(alloc, bytes.bytes(), b"")?;
    Ok(load(alloc, &mut disk, 1, ROTATION).is_err())
}

// 64 bytes and one more.
const LONG: [u8; 65] = [7; 65];

#[test]
fn held_branches_stand_in_order_each_once(rt: HostRuntime) -> Result<(), Fail> {
    let alloc = rt.alloc();
    let in_order = refused_with(alloc, &[b"a", b"b", b"c"], 3)?;
    assert!(rt; !in_order);
    let last_two = refused_with(alloc, &[b"a", b"c", b"b"], 3)?;
    assert!(rt; last_two);
    let first_two = refused_with(alloc, &[b"b", b"a", b"c"], 3)?;
    assert!(rt; first_two);
    let twice = refused_with(alloc, &[b"a", b"a"], 2)?;
    assert!(rt; twice);
    let longest = refused_with(alloc, &[&LONG[..64]], 1)?;
    assert!(rt; !longest);
    let too_long = refused_with(alloc, &[&LONG], 1)?;
    assert!(rt; too_long);
    let one_missing = refused_with(alloc, &[b"a", b"b"], 3)?;
    assert!(rt; one_missing);
    let one_more = refused_with(alloc, &[b"a", b"b"], 1)?;
    assert!(rt; one_more);
    Ok(())
}

// A number of held branches of 2^32 - 1, and a slot whose length is 2^64 - 1.
#[test]
fn numbers_that_cannot_be_are_refused(rt: HostRuntime) -> Result<(), Fail> {
    let alloc = rt.alloc();
    let mut many = FIRST;
    for at in 94..98 {
        many[at] = 255;
    }
    let mut disk = with_slots(alloc, &many, b"")?;
    let refused = load(alloc, &mut disk, 1, ROTATION);
    assert!(rt; matches!(refused, Err(TaskFault::BadCell(DiskFile::SlotA))));
    let mut long = FIRST;
    for at in 9..17 {
        long[at] = 255;
    }
    let mut disk = with_slots(alloc, b"", &long)?;
    let refused = load(alloc, &mut disk, 1, ROTATION);
    assert!(rt; matches!(refused, Err(TaskFault::BadCell(DiskFile::SlotB))));
    Ok(())
}
