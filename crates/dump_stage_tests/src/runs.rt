//! Runs of a stage in words, and what its turns did.
//!
//! | Word | What it does |
//! |---|---|
//! | `3` | the unit of number 3 goes onto the lane |
//! | `3h` | one of number 3 with another key, that of 30 and `h3` |
//! | `3x` | one of number 3 that is said to begin one byte further |
//! | `.` | the End goes onto the lane |
//! | `>` | all that the lane holds is taken, and the next window is opened |

ghost use Rattle.std.specs.Prelude.{◌≤◌};

use crate::units::unit_of;
use crate::untold_disk::UntoldDisk;
use cdc_dump_stage::{DumpEnd, DumpJob};
use cdc_item::DumpItem;
use cdc_lane::PlainLane;
use cdc_model::Unit;
use cdc_outside::LaneIn;
use cdc_turns::DumpTurns;
use std::alloc::{AllocError, Global};
use std::test::Fail;

/// No lane of a test holds as many items.
const TURNS: u32 = 10_000;

/// How far the output is appended and published.
fn told_of(alloc: Global, job: &DumpJob<UntoldDisk>) -> Result<String, AllocError> {
    let stage = job.stage();
    let (appended, published) = (stage.appended().count, stage.published().count);
    format!(in alloc; "{appended}/{published} ")
}

/// Turns the job until it doesn't move, and appends behind each turn that moved how far the output is.
pub fn take_all(
    alloc: Global,
    job: &mut DumpJob<UntoldDisk>,
    lane: &mut PlainLane<DumpItem>,
    told: &mut String,
) -> Result<(), AllocError> {
    for _ in 0..TURNS {
        if !job.turn(lane).is_move() {
            return Ok(());
        }
        let more = told_of(alloc, job)?;
        told.push_str(&more)?;
    }
    Ok(())
}

/// Puts an item onto the lane; where that is full, the job is turned first.
fn send(
    alloc: Global,
    job: &mut DumpJob<UntoldDisk>,
    lane: &mut PlainLane<DumpItem>,
    told: &mut String,
    item: DumpItem,
) -> Result<(), Fail> {
    let Err(back) = lane.push(item) else {
        return Ok(());
    };
    take_all(alloc, job, lane, told)?;
    match lane.push(back) {
        Ok(()) => Ok(()),
        Err(_back) => Err("the lane stays full")?,
    }
}

/// The unit of a word.
fn unit_of_word(alloc: Global, word: &str) -> Result<Unit, Fail> {
    let (digits, letter, further) = match (word.strip_suffix("h"), word.strip_suffix("x")) {
        (Some(digits), _) => (digits, b'h', 0),
        (None, Some(digits)) => (digits, b'g', 1),
        (None, None) => (word, b'g', 0),
    };
    let number = digits.parse::<u64>().or(Err("no such word"))?;
    unit_of(alloc, number, letter, further)
}

/// Takes all that the lane holds, and opens the next window.
fn next_window(
    alloc: Global,
    job: &mut DumpJob<UntoldDisk>,
    lane: &mut PlainLane<DumpItem>,
    told: &mut String,
) -> Result<(), Fail> {
    take_all(alloc, job, lane, told)?;
    if !job.has_ended() {
        return Err("no End was taken")?;
    }
    job.again();
    Ok(())
}

/// Does one word.
fn do_word(
    alloc: Global,
    job: &mut DumpJob<UntoldDisk>,
    lane: &mut PlainLane<DumpItem>,
    told: &mut String,
    word: &str,
) -> Result<(), Fail> {
    match word {
        ">" => next_window(alloc, job, lane, told),
        "." => send(alloc, job, lane, told, DumpItem::End),
        _ => {
            let unit = unit_of_word(alloc, word)?;
            send(alloc, job, lane, told, DumpItem::Unit(unit))
        }
    }
}

/// How the stage ended.
fn end_name(end: &DumpEnd) -> &'static str {
    match end {
        DumpEnd::Open => "Open",
        DumpEnd::Whole => "Whole",
        DumpEnd::Disk => "Disk",
        DumpEnd::Differs { .. } => "Differs",
        DumpEnd::Key { .. } => "Key",
    }
}

/// Does all words, over a lane with room for so many items: behind each turn that moved how many units are appended and
/// published, as `5/4`, and at last how the stage ended.
pub fn run(
    alloc: Global,
    job: &mut DumpJob<UntoldDisk>,
    room: usize,
    words: &str,
) -> Result<String, Fail>
    requires { 1 ≤ room }
{
    let mut lane = PlainLane::new(alloc, room)?;
    let mut told = String::new(alloc);
    for word in words.split_whitespace() {
        do_word(alloc, job, &mut lane, &mut told, word)?;
    }
    take_all(alloc, job, &mut lane, &mut told)?;
    told.push_str(end_name(job.stage().end()))?;
    Ok(told)
}
