//! Sources over real files.

ghost use Rattle.std.specs.Prelude.{◌≤◌, length};

use crate::pattern::{ask, pattern, read_file};
use cdc_base::Text;
use cdc_files::{FileSource, HeldSource};
use cdc_outside::{Failed, Source};
use std::alloc::Global;
use std::fs::File;
use std::test::Fail;
use std::{fs, slice};

// Whether a read of a file, of at most four bytes, gives these.
fn gives<S: Source>(
    source: &mut S,
    file: u32,
    at: u64,
    room: usize,
    want: &[u8],
) -> Result<bool, Failed> {
    let mut into = [9u8; 4];
    let read = ask(source, file, at, &mut into[..room.min(4)])?;
    Ok(&into[..read.min(4)] == want)
}

/// Places in a file of the pattern's 70,000 bytes, in any order, and what a read of two bytes gives there.
const READS: [(u64, &[u8]); 6] = [
    (3, &[3, 4]),
    (5, &[5, 6]),
    (251, &[0, 1]),
    (3, &[3, 4]),
    (70_000, &[]),
    (69_999, &[221]),
];

// Whether all of these reads give what they should.
fn gives_all<S: Source>(source: &mut S) -> Result<bool, Failed> {
    let mut good = true;
    for (at, want) in READS {
        good = gives(source, 1, at, 2, want)? && good;
    }
    Ok(good)
}

// Whether a file of the pattern's 70,000 bytes is read whole, and then in any order.
fn is_read<S: Source>(alloc: Global, source: &mut S, want: &[u8]) -> Result<bool, Fail> {
    let read = read_file(alloc, source, 1)?;
    Ok(read.bytes() == want && gives_all(source)?)
}

#[test]
fn a_real_file_is_read(rt: HostRuntime) -> Result<(), Fail> {
    let want = pattern(rt.alloc(), 70_000)?;
    fs::write(&rt, "log", want.bytes())?;
    let mut source = FileSource::single(rt.alloc(), Some(File::open(&rt, "log")?))?;
    let good = is_read(rt.alloc(), &mut source, want.bytes())?;
    assert!(rt; good && source.faults() == 0);
    Ok(())
}

// How many of three calls of the first file fail.
fn failures<S: Source>(source: &mut S) -> u32
    requires { 1 ≤ length (S.sizes source.old) }
{
    let files = source.files().is_err();
    let length = source.length(1).is_err();
    let read = source.read_at(1, 4, &mut [0u8; 2]).is_err();
    u32::from(files) + u32::from(length) + u32::from(read)
}

#[test]
fn a_file_that_cannot_be_opened_fails_at_each_call(rt: HostRuntime) -> Result<(), Fail> {
    let mut source = FileSource::single(rt.alloc(), File::open(&rt, "none").ok())?;
    assert!(rt; failures(&mut source) == 3 && source.faults() == 3);
    Ok(())
}

// The length of a file; none where the source fails.
fn told<S: Source>(source: &mut S, file: u32) -> Option<u64> {
    let files = source.files().ok()?;
    if file == 0 || files < file {
        return None;
    }
    source.length(file).ok()
}

// A list of three files as one source: the first one once more behind the second.
fn listed(rt: &HostRuntime) -> Result<FileSource<File>, Fail> {
    let first = Text::of(rt.alloc(), "a")?;
    let second = Text::of(rt.alloc(), "b")?;
    let third = Text::of(rt.alloc(), "a")?;
    Ok(FileSource::open(rt, &[first, second, third])?)
}

#[test]
fn a_list_of_files_is_one_source(rt: HostRuntime) -> Result<(), Fail> {
    fs::write(&rt, "a", b"abc")?;
    fs::write(&rt, "b", b"0123456789")?;
    let mut source = listed(&rt)?;
    assert!(rt; source.files() == Ok(3));
    assert!(rt; told(&mut source, 1) == Some(3));
    assert!(rt; told(&mut source, 2) == Some(10));
    assert!(rt; gives(&mut source, 2, 7, 4, b"789")?);
    assert!(rt; gives(&mut source, 3, 1, 4, b"bc")?);
    assert!(rt; source.faults() == 0);
    Ok(())
}

// How many of three calls fail of a list of the file at this path, and how many are counted.
fn failures_listed(rt: &HostRuntime, path: &Text) -> Result<(u32, u64), Fail> {
    let mut source = FileSource::open(rt, slice::from_ref(path))?;
    Ok((failures(&mut source), source.faults()))
}

// How many of three calls fail of the file at this path, held, and how many are counted.
fn failures_held(rt: &HostRuntime, path: &Text) -> Result<(u32, u64), Fail> {
    let mut source = HeldSource::open(rt, path)?;
    Ok((failures(&mut source), source.faults()))
}

#[test]
fn only_regular_files_are_read(rt: HostRuntime) -> Result<(), Fail> {
    fs::create_dir(&rt, "folder")?;
    for path in ["folder", "/dev/null", "none"] {
        let text = Text::of(rt.alloc(), path)?;
        let listed = failures_listed(&rt, &text)?;
        let held = failures_held(&rt, &text)?;
        assert!(rt; listed == (3, 3) && held == (3, 3), "{path}");
    }
    Ok(())
}

// A list of one file.
fn list_of(rt: &HostRuntime, path: &str) -> Result<FileSource<File>, Fail> {
    let path = Text::of(rt.alloc(), path)?;
    Ok(FileSource::open(rt, slice::from_ref(&path))?)
}

#[test]
fn a_file_that_becomes_shorter_fails(rt: HostRuntime) -> Result<(), Fail> {
    fs::write(&rt, "log", b"0123456789")?;
    let mut source = list_of(&rt, "log")?;
    assert!(rt; told(&mut source, 1) == Some(10));
    fs::write(&rt, "log", b"01234")?;
    assert!(rt; gives(&mut source, 1, 3, 4, b"34")?);
    assert!(rt; gives(&mut source, 1, 5, 4, b"").is_err());
    assert!(rt; told(&mut source, 1) == None && source.faults() == 2);
    Ok(())
}

// A file that was held before it became empty.
fn held_before(rt: &HostRuntime, bytes: &[u8]) -> Result<HeldSource, Fail> {
    fs::write(rt, "held", bytes)?;
    let path = Text::of(rt.alloc(), "held")?;
    let source = HeldSource::open(rt, &path)?;
    fs::write(rt, "held", b"")?;
    Ok(source)
}

// Whether of a held file of so many bytes the first so many are read, as the pattern has them.
fn is_held(rt: &HostRuntime, bytes: u32, kept: u32) -> Result<bool, Fail> {
    let all = pattern(rt.alloc(), bytes)?;
    let want = pattern(rt.alloc(), kept)?;
    let mut source = held_before(rt, all.bytes())?;
    let read = read_file(rt.alloc(), &mut source, 1)?;
    Ok(read.bytes() == want.bytes() && source.faults() == 0)
}

#[test]
fn a_file_is_held_as_it_was_read(rt: HostRuntime) -> Result<(), Fail> {
    let rows = [
        (0, 0),
        (70_000, 70_000),
        (1_048_576, 1_048_576),
        (1_048_577, 1_048_577),
        (1_048_600, 1_048_577),
    ];
    for (bytes, kept) in rows {
        let good = is_held(&rt, bytes, kept)?;
        assert!(rt; good, "{bytes} bytes");
    }
    Ok(())
}
