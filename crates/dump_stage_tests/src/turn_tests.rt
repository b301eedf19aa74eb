//! What single turns answer.

use crate::jobs::{empty_disk, job_over};
use crate::units::unit_of;
use crate::untold_disk::UntoldDisk;
use cdc_dump_stage::DumpJob;
use cdc_item::DumpItem;
use cdc_lane::PlainLane;
use cdc_outside::LaneIn;
use cdc_turns::{DumpTurns, Turn};
use std::alloc::Global;
use std::test::Fail;

/// Puts an item onto the lane, which must have room for it.
fn put(lane: &mut PlainLane<DumpItem>, item: DumpItem) -> Result<(), Fail> {
    match lane.push(item) {
        Ok(()) => Ok(()),
        Err(_back) => Err("the lane is full")?,
    }
}

/// The letter of a turn's answer.
fn letter(turn: Turn) -> &'static str {
    match turn {
        Turn::Moved => "M",
        Turn::Blocked => "B",
        Turn::Done => "D",
    }
}

/// Opens the next window.
fn open_next(job: &mut DumpJob<UntoldDisk>) -> Result<&'static str, Fail> {
    if !job.has_ended() {
        return Err("no End was taken")?;
    }
    job.again();
    Ok(">")
}

/// Does one of the signs: `t` turns the job, `.` puts the End onto the lane, `>` opens the next window, and a digit puts that
/// unit onto the lane. What a turn answered, or the sign again.
fn do_sign(
    alloc: Global,
    job: &mut DumpJob<UntoldDisk>,
    lane: &mut PlainLane<DumpItem>,
    sign: &str,
) -> Result<&'static str, Fail> {
    match sign {
        "t" => Ok(letter(job.turn(lane))),
        ">" => open_next(job),
        "." => {
            put(lane, DumpItem::End)?;
            Ok(".")
        }
        _ => {
            let number = sign.parse::<u64>().or(Err("no such sign"))?;
            let unit = unit_of(alloc, number, b'g', 0)?;
            put(lane, DumpItem::Unit(unit))?;
            Ok("+")
        }
    }
}

/// What the signs did, one behind another.
fn done(alloc: Global, signs: &str) -> Result<String, Fail> {
    let mut job = job_over(empty_disk(alloc)?, None)?;
    let mut lane = PlainLane::new(alloc, 16)?;
    let mut told = String::new(alloc);
    for sign in signs.split_whitespace() {
        told.push_str(do_sign(alloc, &mut job, &mut lane, sign)?)?;
    }
    Ok(told)
}

/// A turn takes one item, and none behind the window's End before the next window; one that failed takes items as well.
#[test]
fn turns_are_moved_blocked_or_done(rt: HostRuntime) -> Result<(), Fail> {
    for (signs, wanted) in [
        ("t t", "BB"),
        ("1 t t", "+MB"),
        ("1 2 t t t", "++MMB"),
        (". t t t", ".MDD"),
        ("1 . t t t 2 t", "+.MMD+D"),
        ("1 . t t 2 t > t t", "+.MM+D>MB"),
        ("3 t t 1 t . t t", "+MB+M.MD"),
        ("3 . 1 t t t > t t", "+.+MMD>MB"),
    ] {
        let told = done(rt.alloc(), signs)?;
        assert_eq!(&rt; told.as_str(), wanted, "{signs}");
    }
    Ok(())
}
