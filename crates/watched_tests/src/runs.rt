//! Runs in words, and what their turns handed on.
//!
//! | Word | What it does |
//! |---|---|
//! | `3` | the unit of number 3 goes onto the lane |
//! | `3h` | one of number 3 with another key, that of 30 and `h3` |
//! | `.` | the End goes onto the lane |
//! | `>` | the next window is opened |

ghost use Rattle.std.specs.Prelude.{◌≤◌};

use crate::units::{is_unit_of, unit_of};
use crate::untold_disk::UntoldDisk;
use crate::watched::Watched;
use cdc_item::DumpItem;
use cdc_lane::PlainLane;
use cdc_memory::MemDisk;
use cdc_outside::LaneIn;
use std::alloc::Global;
use std::test::Fail;

/// An empty disk with room for six log files of 300 bytes, and for a hundred changes.
pub fn empty_disk(alloc: Global) -> Result<UntoldDisk, Fail> {
    Ok(UntoldDisk {
        disk: MemDisk::new(alloc, 6, 300, 100, &[])?,
    })
}

/// The item of a word.
fn item_of(alloc: Global, word: &str) -> Result<DumpItem, Fail> {
    if word == "." {
        return Ok(DumpItem::End);
    }
    let (digits, letter) = match word.strip_suffix("h") {
        Some(digits) => (digits, b'h'),
        None => (word, b'g'),
    };
    let number = digits.parse::<u64>().or(Err("no such word"))?;
    Ok(DumpItem::Unit(unit_of(alloc, number, letter)?))
}

/// An item by way of the lane.
fn give(
    watched: &mut Watched<UntoldDisk>,
    lane: &mut PlainLane<DumpItem>,
    item: DumpItem,
) -> Result<(), Fail> {
    let Ok(()) = lane.push(item) else {
        return Err("the lane is full")?;
    };
    if watched.turn(lane).is_move() {
        return Ok(());
    }
    Err("it didn't move")?
}

/// The numbers of the units that were handed on behind the first so many, with a comma behind each; `-` where there are none.
fn handed(alloc: Global, watched: &Watched<UntoldDisk>, before: usize) -> Result<String, Fail> {
    let mut told = String::new(alloc);
    let units = watched.watch().units();
    if before >= units.len() {
        told.push_str("-")?;
    }
    for index in before..units.len() {
        let unit = &units[index];
        let number = unit.number;
        if !is_unit_of(unit, number) {
            return Err("another unit")?;
        }
        told.push_str(&format!(in alloc; "{number},")?)?;
    }
    Ok(told)
}

/// Does one word. What was handed on by it, or `>`.
fn do_word(
    alloc: Global,
    watched: &mut Watched<UntoldDisk>,
    lane: &mut PlainLane<DumpItem>,
    word: &str,
) -> Result<String, Fail> {
    if word == ">" {
        if !watched.again() {
            return Err("no End was taken")?;
        }
        return Ok(format!(in alloc; ">")?);
    }
    let before = watched.watch().units().len();
    let item = item_of(alloc, word)?;
    give(watched, lane, item)?;
    handed(alloc, watched, before)
}

/// Does all words, over a lane with room for so many items: what was handed on by each, with a blank before it.
pub fn run(
    alloc: Global,
    watched: &mut Watched<UntoldDisk>,
    room: usize,
    words: &str,
) -> Result<String, Fail>
    requires { 1 ≤ room }
{
    let mut lane = PlainLane::new(alloc, room)?;
    let mut told = String::new(alloc);
    for word in words.split_whitespace() {
        let more = do_word(alloc, watched, &mut lane, word)?;
        told.push_str(" ")?;
        told.push_str(&more)?;
    }
    Ok(told)
}
