//! Items through a lane.

ghost use Rattle.std.specs.Prelude.{◌≤◌};

use cdc_lane::PlainLane;
use cdc_outside::{LaneIn, LaneOut};
use std::alloc::Global;
use std::test::Fail;

/// Puts a number in; whether it went in. Where it didn't, that very number must come back, and the lane must hold as many as it
/// has room for.
fn push(lane: &mut PlainLane<u32>, number: u32, full: bool) -> Result<bool, Fail> {
    match lane.push(number) {
        Ok(()) => {
            if full {
                return Err("a full lane took an item")?;
            }
            Ok(true)
        }
        Err(back) => {
            if back != number || !full {
                return Err("another item came back, or the lane wasn't full")?;
            }
            Ok(false)
        }
    }
}

/// Takes a number out; whether one came. It must be the wanted one, and none comes only where all were taken.
fn pop(lane: &mut PlainLane<u32>, wanted: u32, empty: bool) -> Result<bool, Fail> {
    match lane.pop() {
        Some(number) => {
            if number != wanted || empty {
                return Err("another item came out")?;
            }
            Ok(true)
        }
        None => {
            if !empty {
                return Err("no item came out")?;
            }
            Ok(false)
        }
    }
}

/// So many turns over a lane with room for so many: of each seven turns `pushes` put a number in, and the others take one out.
/// How many came out.
fn numbers_through(alloc: Global, room: u32, pushes: u32, turns: u32) -> Result<u32, Fail>
    requires { 1 ≤ room }
{
    let mut lane = PlainLane::<u32>::new(alloc, room as usize)?;
    let mut sent = 0_u32;
    let mut got = 0_u32;
    for turn in 0..turns {
        let held = sent.wrapping_sub(got);
        if turn % 7 < pushes {
            if push(&mut lane, sent, held == room)? {
                sent = sent.wrapping_add(1);
            }
        } else if pop(&mut lane, got, held == 0)? {
            got = got.wrapping_add(1);
        }
    }
    Ok(got)
}

/// Of 7,000 turns the rarer ones decide how many numbers come out, and the room decides where bursts are longer than it. Worked
/// out by hand: of each seven turns the lane takes what it has room for, and gives all of it.
#[test]
fn items_come_out_as_they_went_in(rt: HostRuntime) -> Result<(), Fail> {
    assert_eq!(&rt; numbers_through(rt.alloc(), 1, 4, 7_000)?, 1_000);
    assert_eq!(&rt; numbers_through(rt.alloc(), 2, 4, 7_000)?, 2_000);
    assert_eq!(&rt; numbers_through(rt.alloc(), 3, 4, 7_000)?, 3_000);
    assert_eq!(&rt; numbers_through(rt.alloc(), 3, 2, 7_000)?, 2_000);
    assert_eq!(&rt; numbers_through(rt.alloc(), 16, 6, 7_000)?, 1_000);
    assert_eq!(&rt; numbers_through(rt.alloc(), 16, 3, 7_000)?, 3_000);
    assert_eq!(&rt; numbers_through(rt.alloc(), 5, 0, 7_000)?, 0);
    Ok(())
}

#[test]
fn a_lane_keeps_as_many_as_it_has_room_for(rt: HostRuntime) -> Result<(), Fail> {
    let mut lane = PlainLane::<u32>::new(rt.alloc(), 3)?;
    assert_eq!(&rt; lane.pop(), None);
    assert_eq!(&rt; lane.push(10), Ok(()));
    assert_eq!(&rt; lane.push(11), Ok(()));
    assert_eq!(&rt; lane.push(12), Ok(()));
    assert_eq!(&rt; lane.push(13), Err(13));
    assert_eq!(&rt; lane.pop(), Some(10));
    assert_eq!(&rt; lane.push(14), Ok(()));
    assert_eq!(&rt; lane.push(15), Err(15));
    assert_eq!(&rt; lane.pop(), Some(11));
    assert_eq!(&rt; lane.pop(), Some(12));
    assert_eq!(&rt; lane.pop(), Some(14));
    assert_eq!(&rt; lane.pop(), None);
    Ok(())
}
