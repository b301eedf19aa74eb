//! Stores that are cut off.

use crate::samples::{BEFORE, store_and_crash, stores_next, with_slots};
use cdc_memory::MemDisk;
use std::alloc::Global;
use std::test::Fail;

// Whether a store that was stopped at a call leaves the old record whole, or the new one, and the new one where it
// succeeded.
fn is_old_or_new(alloc: Global, stop: u64, pick: u8) -> Result<bool, Fail> {
    let mut disk = with_slots(alloc, BEFORE, b"", 64, 8)?;
    disk.stop_at(stop);
    let stored = store_and_crash(alloc, &mut disk, b"behind", pick)?;
    Ok(stored.is_new() || (stored.is_old() && !stored.done))
}

#[test]
fn a_stopped_store_leaves_the_old_record_or_the_new_one(rt: HostRuntime) -> Result<(), Fail> {
    for stop in 1..40 {
        for pick in 0..4 {
            let good = is_old_or_new(rt.alloc(), stop, pick)?;
            assert!(rt; good, "stop {stop}, pick {pick}");
        }
    }
    Ok(())
}

// How many calls a store makes with its opening: one less than the first stop that it doesn't meet.
fn calls(alloc: Global) -> Result<u64, Fail> {
    for stop in 1..40 {
        let mut disk = with_slots(alloc, BEFORE, b"", 64, 8)?;
        disk.stop_at(stop);
        if stores_next(&mut disk, b"behind") {
            return Ok(stop - 1);
        }
    }
    Ok(0)
}

// An opening asks for a slot's length, and reads its head where that is 17 bytes or more. A store asks whether the gate
// is shut, closes it, fills and opens it: two, three and two changes and syncs.
#[test]
fn a_store_makes_so_many_calls(rt: HostRuntime) -> Result<(), Fail> {
    let calls = calls(rt.alloc())?;
    assert!(rt; calls == 11, "{calls}");
    Ok(())
}

// Whether a store on an empty disk, of which one call fails, leaves nothing or the record, and counts the failure.
fn fails_once(alloc: Global, call: u64, pick: u8) -> Result<bool, Fail> {
    let mut disk = MemDisk::new(alloc, 0, 64, 8, &[call])?;
    let stored = store_and_crash(alloc, &mut disk, b"behind", pick)?;
    let counted = stored.faults == u64::from(!stored.done);
    Ok(counted && (stored.is_new() || (stored.number == 0 && !stored.done)))
}

#[test]
fn a_failed_call_is_counted_and_leaves_nothing_or_the_record(rt: HostRuntime) -> Result<(), Fail> {
    for call in 1..16 {
        for pick in 0..4 {
            let good = fails_once(rt.alloc(), call, pick)?;
            assert!(rt; good, "call {call}, pick {pick}");
        }
    }
    Ok(())
}

// Whether a store over these slots succeeds; where it fails, that is counted, and the old record stands.
fn succeeds(alloc: Global, second: &[u8], changes: usize, payload: &[u8]) -> Result<bool, Fail> {
    let mut disk = with_slots(alloc, BEFORE, second, 23, changes)?;
    let stored = store_and_crash(alloc, &mut disk, payload, 1)?;
    let done = stored.done;
    if stored.number != 5 + u64::from(done) || stored.faults != u64::from(!done) {
        return Err("neither the old record nor the new one")?;
    }
    Ok(done)
}

/// An open slot with number 4 and no payload.
const OPEN_SLOT: &[u8] = b"\x01\x04\0\0\0\0\0\0\0\0\0\0\0\0\0\0\0";

/// A second slot, the room for changes, a payload, and whether a store of it succeeds over `BEFORE` in a room of 23
/// bytes. A store of six bytes makes a slot of 23. It changes the gate where that is open or isn't there, then it
/// writes the head, the payload and the gate: four changes, or three.
const STORES: [(&[u8], usize, &[u8], bool); 9] = [
    (b"", 4, b"behind", true),
    (b"", 4, b"behind!", false),
    (b"", 3, b"behind", false),
    // A closed gate isn't written.
    (b"\0", 3, b"behind", true),
    (b"\x7f", 3, b"behind", true),
    (b"\x7f", 2, b"behind", false),
    // An open one is closed first.
    (b"\x01", 3, b"behind", false),
    (OPEN_SLOT, 3, b"behind", false),
    (OPEN_SLOT, 4, b"behind", true),
];

#[test]
fn room_and_record_run_out(rt: HostRuntime) -> Result<(), Fail> {
    for (second, changes, payload, want) in STORES {
        let done = succeeds(rt.alloc(), second, changes, payload)?;
        assert!(rt; done == want, "{changes} changes over {second:?}");
    }
    Ok(())
}
