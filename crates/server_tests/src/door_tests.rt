//! One door over memory: its links in order, and calls that fail.

use crate::made::{DUMP, DUMPED, PING, QUIT, TORN, WELL, client, door, door_of_two, output, shown};
use cdc_base::UserList;
use cdc_memory::{MemDisk, MemDoor, MemSalt};
use cdc_server::{DoorEnd, serve_door};
use std::alloc::Global;
use std::sync::Wait;
use std::test::Fail;

// Serves a door without users.
fn serve<R: Wait>(
    rt: &R,
    alloc: Global,
    disk: &mut MemDisk,
    door: &mut MemDoor,
) -> Result<DoorEnd, Fail> {
    let users = UserList::new(alloc);
    let mut salt = MemSalt::new(alloc, &[], &[])?;
    Ok(serve_door(rt, alloc, &users, 1, disk, door, &mut salt))
}

#[test]
fn each_link_is_served_in_order(rt: HostRuntime) -> Result<(), Fail> {
    let alloc = rt.alloc();
    let pings = format!(in alloc; "{PING}{PING}{QUIT}{PING}")?;
    let dump = format!(in alloc; "{DUMP}{QUIT}")?;
    let mut door = door(
        alloc,
        &[pings.as_str(), PING, "0100", "", dump.as_str(), "00000100"],
        &[],
    )?;
    let mut disk = output(alloc, &[])?;
    let end = serve(&rt, alloc, &mut disk, &mut door)?;
    let wanted = format!(in alloc; "1 {WELL}{WELL}\n2 {WELL}\n3 \n2 \n1 {DUMPED}\n3 \n")?;
    let found = shown(alloc, &door)?;
    assert!(&rt; end == DoorEnd::Done, "{end:?}");
    assert!(&rt; found.as_str() == wanted.as_str(), "{found}");
    Ok(())
}

#[test]
fn a_link_that_fails_leaves_the_next_one_whole(rt: HostRuntime) -> Result<(), Fail> {
    let alloc = rt.alloc();
    let first = format!(in alloc; "{PING}{QUIT}")?;
    let wanted = format!(in alloc; "\n2 {WELL}\n")?;
    // Two reads and a write for the ping, two reads for the end.
    for call in 1..6u64 {
        let mut door = door_of_two(alloc, first.as_str(), &[call], PING)?;
        let mut disk = output(alloc, &[])?;
        let end = serve(&rt, alloc, &mut disk, &mut door)?;
        let found = shown(alloc, &door)?;
        assert!(&rt; end == DoorEnd::Done, "{end:?} at call {call}");
        assert!(&rt; found.as_str().starts_with("4 "), "{found} at call {call}");
        assert!(&rt;
            found.as_str().ends_with(wanted.as_str()),
            "{found} at call {call}"
        );
    }
    Ok(())
}

#[test]
fn a_door_that_fails_ends_its_serving(rt: HostRuntime) -> Result<(), Fail> {
    let alloc = rt.alloc();
    let lines = format!(in alloc; "2 {WELL}\n2 {WELL}\n2 {WELL}\n")?;
    for call in 1..6u64 {
        let mut door = door(alloc, &[PING, PING, PING], &[call])?;
        let mut disk = output(alloc, &[])?;
        let end = serve(&rt, alloc, &mut disk, &mut door)?;
        let found = shown(alloc, &door)?;
        let wanted = if call < 5 {
            DoorEnd::Door
        } else {
            DoorEnd::Done
        };
        let served = (call.min(4) as usize - 1) * 25;
        assert!(&rt; end == wanted, "{end:?} at call {call}");
        assert!(&rt;
            Some(found.as_str()) == lines.as_str().get(..served),
            "{found} at call {call}"
        );
    }
    Ok(())
}

#[test]
fn an_outputs_faults_are_told_and_links_go_on(rt: HostRuntime) -> Result<(), Fail> {
    let alloc = rt.alloc();
    let mut torn = door(alloc, &[TORN, PING], &[])?;
    let mut disk = output(alloc, &[])?;
    let end = serve(&rt, alloc, &mut disk, &mut torn)?;
    let wanted = format!(in alloc; "7 \n2 {WELL}\n")?;
    let found = shown(alloc, &torn)?;
    assert!(&rt; end == DoorEnd::Torn, "{end:?}");
    assert!(&rt; found.as_str() == wanted.as_str(), "{found}");
    let mut failing = door(alloc, &[DUMP, TORN, DUMP], &[])?;
    let mut disk = output(alloc, &[5])?;
    let end = serve(&rt, alloc, &mut disk, &mut failing)?;
    let wanted = format!(in alloc; "5 \n7 \n2 {DUMPED}\n")?;
    let found = shown(alloc, &failing)?;
    assert!(&rt; end == DoorEnd::Disk, "{end:?}");
    assert!(&rt; found.as_str() == wanted.as_str(), "{found}");
    Ok(())
}
