//! What is handed on, and when.

use crate::runs::{empty_disk, run};
use crate::watched::Watched;
use cdc_dump_stage::DumpEnd;
use std::alloc::Global;
use std::test::Fail;

/// What an output was given before, behind `|` what its stage is given, and what was handed on by each word. Units 1 and 2 stand
/// in the first file, 3 and 4 in the second: units of one file are published before a unit of the next file but one, and all
/// at the End. Worked out by hand.
const RUNS: &str = "| . => -
| 1 2 => - -
| 1 2 . => - - 1,2,
| 1 2 3 4 . => - - 1,2, - 3,4,
| 1 2 3 4 5 6 7 . => - - 1,2, - 3,4, - 5,6, 7,
| 1 . > 2 . > . > 3 . => - 1, > - 2, > - > - 3,
| 1 1 2 1 2 . => - - - - - 1,2,
| 1 3 . => - - -
| 1 2 3 5 . => - - 1,2, - -
| 1 1h . => - - -
| 1 . > 1h . > 2 . => - 1, > - - > - -
1 2 . | 1 2 . => - - -
1 . | 1 2 3 . => - - - 2,3,
1 2 3 . | 3 4 5 . => - - - 4,5,
";

/// What was handed on by each of the words behind other words, by a watch that keeps at most so many units.
fn told_behind(alloc: Global, first: &str, words: &str, most: usize) -> Result<String, Fail> {
    let mut before = Watched::over(alloc, empty_disk(alloc)?, 100)?;
    let _told = run(alloc, &mut before, 1, first)?;
    let mut watched = Watched::over(alloc, before.into_disk(), most)?;
    run(alloc, &mut watched, 16, words)
}

#[test]
fn units_are_handed_on_behind_their_commit(rt: HostRuntime) -> Result<(), Fail> {
    for row in RUNS.lines() {
        let (words, wanted) = row.split_once("=>").ok_or("no answer")?;
        let (first, words) = words.split_once("|").ok_or("no run")?;
        let told = told_behind(rt.alloc(), first, words, 100)?;
        assert_eq!(&rt; told.as_str(), wanted, "{first}|{words}");
    }
    Ok(())
}

/// A watch that ends by itself keeps no more, and the output goes on.
#[test]
fn a_watch_that_ends_gets_no_more(rt: HostRuntime) -> Result<(), Fail> {
    let words = "1 2 3 . > 4 5 .";
    for (most, wanted) in [
        (0, " - - - - > - - -"),
        (1, " - - 1, - > - - -"),
        (3, " - - 1,2, 3, > - - -"),
        (4, " - - 1,2, 3, > - - 4,"),
        (5, " - - 1,2, 3, > - - 4,5,"),
    ] {
        let mut watched = Watched::over(rt.alloc(), empty_disk(rt.alloc())?, most)?;
        let told = run(rt.alloc(), &mut watched, 1, words)?;
        assert_eq!(&rt; told.as_str(), wanted, "{most} at most");
        assert_eq!(&rt; watched.watch().has_ended(), most < 5);
        assert_eq!(&rt; *watched.stage().end(), DumpEnd::Whole);
        assert_eq!(&rt; watched.stage().published().count, 5);
    }
    Ok(())
}
