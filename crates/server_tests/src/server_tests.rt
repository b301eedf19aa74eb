//! Several doors over memory, beside each other.

use crate::made::{DUMP, DUMPED, PING, TORN, WELL, door, output, shown};
use cdc_base::UserList;
use cdc_dumper::OpenFault;
use cdc_memory::{MemDisk, MemDoor, MemSalt};
use cdc_outside::{DiskFile, write_through};
use cdc_server::{ServeEnd, serve_all};
use std::alloc::Global;
use std::sync::Wait;
use std::test::Fail;
use std::thread::Threads;

// Serves doors without users, each from an output at its place.
fn serve<R: Threads + Wait + Sync>(
    rt: &R,
    alloc: Global,
    disks: &mut [MemDisk],
    doors: &mut [MemDoor],
) -> Result<ServeEnd, Fail> {
    let users = UserList::new(alloc);
    let mut salts = Vec::new(alloc);
    for _ in 0..doors.len() {
        salts.push(MemSalt::new(alloc, &[], &[])?)?;
    }
    if disks.len() != doors.len() || salts.len() != doors.len() || doors.len() > 4 {
        return Err("as many outputs as doors")?;
    }
    Ok(serve_all(rt, alloc, &users, disks, doors, salts.as_mut_slice()))
}

/// An output that is refused: its slot says more than there is.
fn refused(alloc: Global) -> Result<MemDisk, Fail> {
    let mut disk = MemDisk::new(alloc, 1, 100, 20, &[])?;
    let slot = hex::decode(alloc, "0105000000000000001b00000000000000010500")?;
    write_through(&mut disk, DiskFile::SlotA, 0, slot.as_slice())?;
    Ok(disk)
}

#[test]
fn a_hostile_client_takes_nothing_from_another(rt: HostRuntime) -> Result<(), Fail> {
    let alloc = rt.alloc();
    let many = format!(in alloc; "{PING}{PING}{PING}00000100")?;
    let hostile = door(alloc, &["ffffff00", many.as_str(), "01", DUMP], &[])?;
    let good = door(alloc, &[DUMP, PING], &[])?;
    let mut doors = vec![in alloc; hostile, good]?;
    let mut disks = vec![in alloc; output(alloc, &[])?, output(alloc, &[])?]?;
    let end = serve(&rt, alloc, disks.as_mut_slice(), doors.as_mut_slice())?;
    let hostile = format!(in alloc; "3 \n3 {WELL}{WELL}{WELL}\n3 \n2 {DUMPED}\n")?;
    let good = format!(in alloc; "2 {DUMPED}\n2 {WELL}\n")?;
    let found = shown(alloc, doors.first().ok_or("a door")?)?;
    assert!(&rt; found.as_str() == hostile.as_str(), "{found}");
    let found = shown(alloc, doors.get(1).ok_or("a door")?)?;
    assert!(&rt; found.as_str() == good.as_str(), "{found}");
    assert!(&rt; end == ServeEnd::Done, "{end:?}");
    Ok(())
}

// What three doors come to, to each of which one client comes with these bytes; the third door fails behind it.
fn end_of<R: Threads + Wait + Sync>(
    rt: &R,
    alloc: Global,
    inputs: &[&str; 3],
) -> Result<ServeEnd, Fail> {
    let first = door(alloc, &[inputs[0]], &[])?;
    let second = door(alloc, &[inputs[1]], &[])?;
    let third = door(alloc, &[inputs[2]], &[2])?;
    let mut doors = vec![in alloc; first, second, third]?;
    let mut disks = vec![in alloc; output(alloc, &[])?, refused(alloc)?, output(alloc, &[5])?]?;
    serve(rt, alloc, disks.as_mut_slice(), doors.as_mut_slice())
}

#[test]
fn the_first_cause_and_the_least_door_are_told(rt: HostRuntime) -> Result<(), Fail> {
    let alloc = rt.alloc();
    let fault = OpenFault::BadCell(DiskFile::SlotA);
    let kept = ServeEnd::Kept { out: 2, fault };
    let rows = [
        ([PING, PING, PING], ServeEnd::Door { door: 3 }),
        ([TORN, PING, PING], ServeEnd::Torn { out: 1 }),
        ([TORN, DUMP, PING], kept),
        ([DUMP, DUMP, PING], kept),
        ([TORN, DUMP, DUMP], ServeEnd::Disk { out: 3 }),
    ];
    for (inputs, wanted) in rows {
        let end = end_of(&rt, alloc, &inputs)?;
        assert!(&rt; end == wanted, "{end:?} for {wanted:?}");
    }
    Ok(())
}

#[test]
fn doors_that_fail_alike_are_told_by_the_least(rt: HostRuntime) -> Result<(), Fail> {
    let alloc = rt.alloc();
    for failing in 0..3usize {
        let mut doors = Vec::new(alloc);
        let mut disks = Vec::new(alloc);
        for place in 0..4usize {
            let fails: &[u64] = if place < failing { &[] } else { &[1] };
            doors.push(door(alloc, &[], fails)?)?;
            disks.push(output(alloc, &[])?)?;
        }
        let end = serve(&rt, alloc, disks.as_mut_slice(), doors.as_mut_slice())?;
        let wanted = ServeEnd::Door {
            door: failing as u32 + 1,
        };
        assert!(&rt; end == wanted, "{end:?} for {wanted:?}");
    }
    Ok(())
}
