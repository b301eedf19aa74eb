//! Logs in windows of many sizes.

ghost use Rattle.std.specs.Prelude.{◌≤◌, ◌^◌, length, IfOk};

use crate::sent::{job_over, sent_by};
use cdc_base::Blob;
use cdc_memory::MemSource;
use cdc_samples::Log;
use std::alloc::{AllocError, Global};
use std::test::Fail;

/// How many groups of entries a log has.
const GROUPS: u64 = 60;

/// The words of a log: in each group a branch with a row is prepared and committed, and a heartbeat comes. The log has a head of
/// 123 bytes and 329 for each group: 217, 84 and 28.
fn words_of(alloc: Global, first: u64, last: u64) -> Result<String, AllocError> {
    let mut words = String::new(alloc);
    words.push_str("H ")?;
    for group in first..last {
        let (digit, at) = (group % 10, group.saturating_mul(10));
        let beat = at.saturating_add(5);
        words.push_str(&format!(in alloc; "Pr(g{digit}) C(g{digit},{at}) B({beat}) ")?)?;
    }
    Ok(words)
}

/// What is to be sent of it, in so many windows: the branch of a group, committed by its second entry, and the bounds of its commit
/// and its heartbeat.
fn wanted(alloc: Global, windows: u32) -> Result<String, AllocError> {
    let mut told = format!(in alloc; "{windows} Ends: ")?;
    for group in 1..GROUPS + 1 {
        let (letter, at) = ((group % 10).saturating_add(48), group.saturating_mul(10));
        let (entry, beat) = (group.saturating_mul(3) - 1, at.saturating_add(5));
        told.push_str(&format!(in alloc; "{at}:{letter}#{entry}/2 ={at} ={beat} ")?)?;
    }
    Ok(told)
}

/// The bytes of a file of some groups.
fn file_of(alloc: Global, first: u64, last: u64) -> Result<Blob, Fail>
    ensures { IfOk result (λ file. length file ≤ 2 ^ 30) }
{
    let words = words_of(alloc, first, last)?;
    let log = Log::of(alloc, &words)?;
    Ok(log.freeze()?)
}

/// All groups in one file, or half of them in another, and how many bytes that is.
fn source_of(alloc: Global, files: u32) -> Result<(MemSource, u64), Fail> {
    if files == 1 {
        let whole = file_of(alloc, 1, GROUPS + 1)?;
        let bytes = whole.len() as u64;
        return Ok((MemSource::new(alloc, &[whole], &[])?, bytes));
    }
    let first = file_of(alloc, 1, 31)?;
    let second = file_of(alloc, 31, GROUPS + 1)?;
    let bytes = (first.len() as u64).saturating_add(second.len() as u64);
    Ok((MemSource::new(alloc, &[first, second], &[])?, bytes))
}

/// How many Ends are sent over a lane with room for so many items, and the items.
fn told_over(alloc: Global, source: MemSource, window: u64, room: usize) -> Result<String, Fail>
    requires { 1 ≤ room }
{
    let mut job = job_over(alloc, source, window)?;
    let sent = sent_by(alloc, &mut job, room)?;
    let (items, ends) = (sent.items.as_str(), sent.ends);
    Ok(format!(in alloc; "{ends} Ends: {items}")?)
}

/// The same of all groups in so many files, in windows of so many bytes.
fn told_in(alloc: Global, files: u32, window: u64, room: usize) -> Result<String, Fail>
    requires { 1 ≤ room }
{
    let (source, _bytes) = source_of(alloc, files)?;
    told_over(alloc, source, window, room)
}

#[test]
fn a_group_has_as_many_bytes_as_was_counted(rt: HostRuntime) -> Result<(), Fail> {
    for (files, wanted) in [(1, 19_863), (2, 19_986)] {
        let (_source, bytes) = source_of(rt.alloc(), files)?;
        assert_eq!(&rt; bytes, wanted, "{files} files");
    }
    Ok(())
}

/// In how many files a log is, how many bytes a window has, and how many windows there are. The last one is that in which nothing
/// more is read: it comes behind as many as the log fills.
const WINDOWS: [(u32, u64, u32); 16] = [
    (1, 4_096, 5),
    (1, 5_000, 4),
    (1, 8_192, 3),
    (1, 12_288, 2),
    (1, 16_384, 2),
    (1, 19_862, 2),
    (1, 19_863, 2),
    (1, 19_864, 1),
    (2, 4_096, 5),
    (2, 5_000, 4),
    (2, 8_192, 3),
    (2, 12_288, 2),
    (2, 16_384, 2),
    (2, 19_985, 2),
    (2, 19_986, 2),
    (2, 19_987, 1),
];

#[test]
fn the_items_are_the_same_whatever_the_window(rt: HostRuntime) -> Result<(), Fail> {
    for (files, window, windows) in WINDOWS {
        let wanted = wanted(rt.alloc(), windows)?;
        for room in [1, 16] {
            let told = told_in(rt.alloc(), files, window, room)?;
            assert_eq!(&rt; told.as_str(), wanted.as_str(), "{window}, room {room}");
        }
    }
    Ok(())
}

/// Every size from the least one on, up to one behind the log's 19,863 bytes.
#[test]
fn the_items_are_the_same_in_windows_of_every_size(rt: HostRuntime) -> Result<(), Fail> {
    let file = file_of(rt.alloc(), 1, GROUPS + 1)?;
    for window in 4_096..19_865_u64 {
        let source = MemSource::new(rt.alloc(), &[file.share()?], &[])?;
        let told = told_over(rt.alloc(), source, window, 16)?;
        let windows = (19_863 / window) as u32 + 1;
        let wanted = wanted(rt.alloc(), windows)?;
        assert_eq!(&rt; told.as_str(), wanted.as_str(), "{window}");
    }
    Ok(())
}

/// A log with a fault in its middle: its second transaction is prepared twice. Its source fails at the first read, or never.
fn faulty_source(alloc: Global, fails: bool) -> Result<MemSource, Fail> {
    let log = Log::of(alloc, "H P(g1) C(g1,10) P(g2) P(g2) C(g2,20)")?;
    let file = log.freeze()?;
    if fails {
        return Ok(MemSource::new(alloc, &[file], &[1])?);
    }
    Ok(MemSource::new(alloc, &[file], &[])?)
}

/// What is sent of it.
fn told_of_fault(alloc: Global, fails: bool, room: usize) -> Result<String, Fail>
    requires { 1 ≤ room }
{
    let source = faulty_source(alloc, fails)?;
    told_over(alloc, source, 4_096, room)
}

/// What was settled before is sent, and then the one End of the last window.
#[test]
fn a_reading_that_fails_ends_its_window(rt: HostRuntime) -> Result<(), Fail> {
    for (fails, wanted) in [(false, "1 Ends: 10:49#2/0 =10 "), (true, "1 Ends: ")] {
        for room in [1, 16] {
            let told = told_of_fault(rt.alloc(), fails, room)?;
            assert_eq!(&rt; told.as_str(), wanted);
        }
    }
    Ok(())
}
