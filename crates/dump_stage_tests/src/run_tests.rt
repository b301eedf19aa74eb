//! Runs over outputs that have nothing, and over outputs that are ahead.

ghost use Rattle.std.specs.Prelude.{◌≤◌};

use crate::jobs::{empty_disk, job_over};
use crate::runs::run;
use crate::units::{has_front, key_of};
use crate::untold_disk::UntoldDisk;
use cdc_dump_stage::{DumpEnd, DumpJob};
use cdc_model::Layout;
use std::alloc::Global;
use std::test::Fail;

/// What an output was given before, behind `|` what its stage is given, and what its turns did. Units 1 to 4 stand in the first
/// file, and 5 to 8 in the second. Worked out by hand.
const RUNS: &str = "| . => 0/0 Whole
| 1 2 => 1/0 2/0 Open
| 1 2 3 . => 1/0 2/0 3/0 3/3 Whole
| 1 2 3 4 5 . => 1/0 2/0 3/0 4/0 5/4 5/5 Whole
| 1 2 3 4 5 6 7 8 9 10 . => 1/0 2/0 3/0 4/0 5/4 6/4 7/4 8/4 9/8 10/8 10/10 Whole
| 1 . > 2 . > . > 3 4 => 1/0 1/1 2/1 2/2 2/2 3/2 4/2 Open
| 1 1 2 1 2 . => 1/0 1/0 2/0 2/0 2/0 2/2 Whole
| 1 2 1h . => 1/0 2/0 2/0 2/2 Whole
| 1 3 2 . => 1/0 1/0 1/0 1/0 Differs
| 1 . > 3 . > 2 . => 1/0 1/1 1/1 1/1 1/1 1/1 Differs
| 2 1 . => 0/0 0/0 0/0 Differs
| 1 2x 2 . => 1/0 1/0 1/0 1/0 Differs
| 1 1h 2 . > 2 . => 1/0 1/0 1/0 1/0 1/0 1/0 Key
. | 1 2 . => 1/0 2/0 2/2 Whole
1 . | 1 2 . => 1/1 2/1 2/2 Whole
1 2 3 . | 1 2 3 4 5 . => 3/3 3/3 3/3 4/3 5/3 5/5 Whole
1 2 3 4 5 . | 1 2 3 4 5 . => 5/5 5/5 5/5 5/5 5/5 5/5 Whole
1 2 3 4 5 . | 3 6 . => 5/5 6/5 6/6 Whole
1 2 . > 3 4 | 1 2 3 4 . => 2/2 2/2 3/2 4/2 4/4 Whole
1 2 . | 1h 2 3 . => 2/2 2/2 3/2 3/3 Whole
1 2 . | 1 2h 3 . => 2/2 2/2 2/2 2/2 Key
1 2 . | 4 3 . => 2/2 2/2 2/2 Differs
1 3 . | 1 2 . => 1/0 2/0 2/2 Whole
";

/// The stage of an output that was given these words.
fn job_behind(alloc: Global, room: usize, words: &str) -> Result<DumpJob<UntoldDisk>, Fail>
    requires { 1 ≤ room }
{
    let mut job = job_over(empty_disk(alloc)?, None)?;
    let _told = run(alloc, &mut job, room, words)?;
    let (_stage, disk) = job.into_parts();
    job_over(disk, None)
}

/// What the turns did with the words behind other words. The files must have what was appended, and no more.
fn told_behind(alloc: Global, room: usize, first: &str, words: &str) -> Result<String, Fail>
    requires { 1 ≤ room }
{
    let mut job = job_behind(alloc, room, first)?;
    let told = run(alloc, &mut job, room, words)?;
    let (stage, disk) = job.into_parts();
    let mut disk = disk;
    if !has_front(&mut disk, stage.appended().count)? {
        return Err("other files")?;
    }
    Ok(told)
}

#[test]
fn units_are_published_as_they_must(rt: HostRuntime) -> Result<(), Fail> {
    for row in RUNS.lines() {
        let (words, wanted) = row.split_once("=> ").ok_or("no answer")?;
        let (first, words) = words.split_once("|").ok_or("no run")?;
        for room in [1, 16] {
            let told = told_behind(rt.alloc(), room, first, words)?;
            assert_eq!(&rt; told.as_str(), wanted, "{first}|{words}, room {room}");
        }
    }
    Ok(())
}

/// A place of an output.
fn layout(file: u64, length: u64, closed: bool) -> Layout {
    Layout {
        file,
        length,
        closed,
    }
}

/// Whether a stage ended at a unit that begins here, where its output ends at 203 in the first file.
fn differs_at(job: &DumpJob<UntoldDisk>, wanted: &Layout) -> bool {
    match job.stage().end() {
        DumpEnd::Differs { kept, given } => *kept == layout(1, 203, false) && *given == *wanted,
        DumpEnd::Open | DumpEnd::Whole | DumpEnd::Disk | DumpEnd::Key { .. } => false,
    }
}

/// Whether it ended at a unit, or a checkpoint, with the key of 20 and `h2`, where its output has that of 20 and `g2`.
fn has_other_key(job: &DumpJob<UntoldDisk>) -> bool {
    match job.stage().end() {
        DumpEnd::Key { kept, given } => {
            key_of(2, b'g') == Some(*kept) && key_of(2, b'h') == Some(*given)
        }
        DumpEnd::Open | DumpEnd::Whole | DumpEnd::Disk | DumpEnd::Differs { .. } => false,
    }
}

#[test]
fn a_stage_that_differs_says_where(rt: HostRuntime) -> Result<(), Fail> {
    for (words, given) in [
        ("1 2 3x .", layout(1, 204, false)),
        ("1 2 4 .", layout(1, 243, false)),
        ("5 .", layout(1, 323, true)),
        ("10 1 .", layout(3, 163, false)),
    ] {
        let mut job = job_behind(rt.alloc(), 4, "1 2 .")?;
        let _told = run(rt.alloc(), &mut job, 4, words)?;
        let differs = differs_at(&job, &given);
        assert!(rt; differs, "{words}");
    }
    Ok(())
}

#[test]
fn a_unit_with_another_key_says_both(rt: HostRuntime) -> Result<(), Fail> {
    let mut job = job_behind(rt.alloc(), 4, "1 2 .")?;
    let _told = run(rt.alloc(), &mut job, 4, "1 2h 3 .")?;
    let other = has_other_key(&job);
    assert!(rt; other);
    Ok(())
}

/// The stage of an output that has the first two units, behind a checkpoint.
fn job_behind_checkpoint(
    alloc: Global,
    count: u64,
    letter: u8,
) -> Result<DumpJob<UntoldDisk>, Fail> {
    let (_stage, disk) = job_behind(alloc, 4, "1 2 .")?.into_parts();
    let key = key_of(count, letter).ok_or("no key")?;
    job_over(disk, Some((count, key)))
}

#[test]
fn a_checkpoint_with_another_key_ends_the_stage(rt: HostRuntime) -> Result<(), Fail> {
    let mut job = job_behind_checkpoint(rt.alloc(), 2, b'h')?;
    let other = has_other_key(&job);
    assert!(rt; other);
    let told = run(rt.alloc(), &mut job, 4, "3 .")?;
    assert_eq!(&rt; told.as_str(), "2/2 2/2 Key");
    let other = has_other_key(&job);
    assert!(rt; other);
    Ok(())
}

/// One with the same key, and one of another number, which isn't compared.
#[test]
fn any_other_checkpoint_lets_it_go_on(rt: HostRuntime) -> Result<(), Fail> {
    for (count, letter) in [(2, b'g'), (1, b'h'), (3, b'h')] {
        let mut job = job_behind_checkpoint(rt.alloc(), count, letter)?;
        let told = run(rt.alloc(), &mut job, 4, "3 .")?;
        assert_eq!(&rt; told.as_str(), "3/2 3/3 Whole", "{count}");
    }
    Ok(())
}
