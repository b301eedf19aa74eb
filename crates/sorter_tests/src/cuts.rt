//! The points from which logs are read again.

use crate::answers::{Asked, last_of};
use cdc_base::{Key, first_key};
use std::alloc::Global;
use std::test::Fail;

/// The entries of a log, a key up to which all was merged, and the latest point for it: the number of its entry, its place, mark and
/// checksum setting, and the branches that stand open there, each with its floor. Worked out by hand: before the first entry
/// that began an open branch or one with a greater key, or behind all.
const CUTS: &str = "P:g1=0:g0=1 1:0 0 0
P:g1 C:g1@10=0:g0=1 1:0 0 0
P:g1 C:g1@10=10:g1=3 1:300 10 0
P:g1>1:265:0 B:10>1:293:0 P:g2>1:435:0 C:g1@10>1:519:0=10:g1=3 1:293 10 0 49.0
P:g1>1:265:0 B:10>1:293:0 P:g2>1:435:0 C:g1@10>1:519:0 C:g2@20>1:603:0=10:g1=3 1:293 10 0 49.0
P:g1>1:265:0 B:10>1:293:0 P:g2>1:435:0 C:g1@10>1:519:0 C:g2@20>1:603:0=20:g2=6 1:603 20 0
P:g1>1:265:0 C:g1@10>2:215:1=10:g1=3 2:215 10 1
P:g1>1:269:1 B:10>1:301:1 P:g2>2:265:0 C:g1@11>2:349:0=11:g1=3 1:301 10 1 49.0
O:g1@10 O:g2@20 P:g3=10:g1=2 1:200 10 0
O:g1@10 O:g2@20 P:g3=15:g9=2 1:200 10 0
O:g1@10 O:g2@20 P:g3=20:g2=3 1:300 20 0
P:g1 B:5 P:g2 C:g1@9 C:g2@30=9:g1=3 1:300 5 0 49.0
P:g1 B:5 P:g2 R:g1 C:g2@30=5:g1=3 1:300 5 0 49.0
P:g1 B:5 P:g2 R:g2 B:6=0:g0=1 1:0 0 0
P:g1 B:5 R:g1 B:6=0:g0=5 1:500 6 0
P:g2 P:g1 B:7 P:g3 C:g2@8 C:g1@9=9:g1=4 1:400 7 0 49.0 50.0
P:g2 P:g1 B:7 P:g3 C:g2@8 C:g1@9=8:g2=2 1:200 0 0 50.0
P:g1 C:g1@3 P:g1 B:8 P:g2 C:g1@9=9:g1=5 1:500 8 0 49.3
P:g1 C:g1@3 P:g1 B:8 P:g2 C:g1@9=3:g1=3 1:300 3 0
B:10 L: B:11=10:g1=2 1:200 10 0
B:10 L: B:11=L10:2=4 1:400 11 0
B:10 L: L: B:11=L10:2=3 1:300 10 0
P:g1 P:g2 C:g1@8 B:9 C:g2@8=8:g1=2 1:200 0 0 49.0
";

// The latest point for a key behind the entries of these words, twice: the second time behind what was forgotten for it.
fn points(alloc: Global, words: &str, last: &Key) -> Result<(String, String), Fail> {
    let mut sorter = Asked::new(alloc);
    sorter.take_all(1, words)?;
    let cut = sorter.cut(last)?;
    sorter.forget(last);
    Ok((cut, sorter.cut(last)?))
}

#[test]
fn the_latest_point(rt: HostRuntime) -> Result<(), Fail> {
    for row in CUTS.lines() {
        let (words, rest) = row.split_once("=").ok_or("no key")?;
        let (last, wanted) = rest.split_once("=").ok_or("no cut")?;
        let (cut, again) = points(rt.alloc(), words, &last_of(last)?)?;
        assert_eq!(&rt; cut.as_str(), wanted, "{words}");
        assert_eq!(&rt; again.as_str(), wanted, "forgotten behind {words}");
    }
    Ok(())
}

// The latest point for a key, where all that isn't wanted for it was forgotten before the entries of these words.
fn point_forgotten_first(alloc: Global, words: &str, last: &Key) -> Result<String, Fail> {
    let mut sorter = Asked::new(alloc);
    sorter.forget(last);
    sorter.forget(&first_key());
    sorter.take_all(1, words)?;
    sorter.cut(last)
}

#[test]
fn what_is_forgotten_first_is_not_wanted(rt: HostRuntime) -> Result<(), Fail> {
    for row in CUTS.lines() {
        let (words, rest) = row.split_once("=").ok_or("no key")?;
        let (last, wanted) = rest.split_once("=").ok_or("no cut")?;
        let cut = point_forgotten_first(rt.alloc(), words, &last_of(last)?)?;
        assert_eq!(&rt; cut.as_str(), wanted, "{words}");
    }
    Ok(())
}

/// Entries from the third on, behind `P:g1>1:265:0 B:10>1:293:0` and above the key 10 of g1, a key, and the latest point for it. The
/// branch of g1 that is held open keeps no point back.
const RESTS: &str = "P:g2>1:435:0=10:g1=3 1:293 10 0 49.0
P:g2>1:435:0 C:g1@10>1:519:0=10:g1=3 1:293 10 0 49.0
P:g2>1:435:0 C:g1@10>1:519:0 C:g2@20>1:603:0=20:g2=6 1:603 20 0
B:11 P:g2 C:g2@13=12:g9=4 1:400 11 0 49.0
B:11 R:g1 P:g1 B:12=10:g1=5 1:500 11 0
B:11 C:g1@10 P:g1 B:12=11:g1=5 1:500 11 0
";

// The latest point for a key behind the entries of these words, which come behind another point.
fn later_point(alloc: Global, words: &str, last: &str) -> Result<String, Fail> {
    let mut sorter = Asked::resumed(alloc, 293, &last_of("10:g1")?)?;
    sorter.take_all(3, words)?;
    sorter.cut(&last_of(last)?)
}

#[test]
fn the_latest_point_behind_another(rt: HostRuntime) -> Result<(), Fail> {
    for row in RESTS.lines() {
        let (words, rest) = row.split_once("=").ok_or("no key")?;
        let (last, wanted) = rest.split_once("=").ok_or("no cut")?;
        let later = later_point(rt.alloc(), words, last)?;
        assert_eq!(&rt; later.as_str(), wanted, "{words}");
    }
    Ok(())
}

// Takes the entries of branches that come and go, a thousand times, numbered from `first` on; the number behind them.
fn take_many(sorter: &mut Asked, first: u32) -> Result<u32, Fail> {
    let mut number = first;
    for _ in 0..1_000 {
        sorter.take_all(number, "P:g4 R:g4")?;
        number = number.wrapping_add(2);
    }
    Ok(number)
}

/// Of so many branches that come and go one stays open: only what stood open where it began is kept.
#[test]
fn ended_branches_are_dropped(rt: HostRuntime) -> Result<(), Fail> {
    let mut sorter = Asked::new(rt.alloc());
    sorter.take_all(1, "P:g1 P:g2 B:5 P:g3")?;
    let number = take_many(&mut sorter, 5)?;
    sorter.take_all(number, "C:g2@6 C:g1@7")?;
    let cut = sorter.cut(&last_of("7:g1")?)?;
    assert_eq!(&rt; cut.as_str(), "4 1:400 5 0 49.0 50.0");
    Ok(())
}
