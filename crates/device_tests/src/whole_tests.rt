//! Reading one file whole.

ghost use Rattle.std.specs.Prelude.{◌≤◌, length};

use crate::odd_source::OddSource;
use crate::pattern::{one_file, pattern, read_file, two_files};
use cdc_outside::{ReadWholeError, Source, read_whole};
use std::alloc::Global;
use std::test::Fail;

// Whether a file of a source is read whole as these bytes.
fn reads<S: Source>(alloc: Global, mut source: S, file: u32, want: &[u8]) -> Result<bool, Fail> {
    let read = read_file(alloc, &mut source, file)?;
    Ok(read.bytes() == want)
}

// Whether a file of so many bytes is read whole, of a source of one file and of one of two.
fn is_read_whole(alloc: Global, bytes: u32) -> Result<bool, Fail> {
    let want = pattern(alloc, bytes)?;
    let first = reads(alloc, one_file(alloc, bytes, &[])?, 1, want.bytes())?;
    let second = reads(alloc, two_files(alloc, 7, bytes)?, 2, want.bytes())?;
    Ok(first && second)
}

#[test]
fn a_file_is_read_whole(rt: HostRuntime) -> Result<(), Fail> {
    for bytes in [0, 1, 65_536, 65_537, 200_000] {
        let good = is_read_whole(rt.alloc(), bytes)?;
        assert!(rt; good, "{bytes} bytes");
    }
    Ok(())
}

// Whether reading the first file fails.
fn fails<S: Source>(alloc: Global, source: &mut S) -> bool
    requires { 1 ≤ length (S.sizes source.old) }
{
    match read_whole(alloc, source, 1) {
        Err(error) => error == ReadWholeError::Failed,
        Ok(_) => false,
    }
}

// Whether reading 200,000 bytes fails, and how often the source failed, where this call fails.
fn failing_at(alloc: Global, call: u64) -> Result<(bool, u64), Fail> {
    let mut source = one_file(alloc, 200_000, &[call])?;
    let failed = fails(alloc, &mut source);
    Ok((failed, source.faults()))
}

// 200,000 bytes are read by five calls: the length, and four pieces.
#[test]
fn a_failing_call_is_told_wherever_it_comes(rt: HostRuntime) -> Result<(), Fail> {
    for call in 1..8u64 {
        let want = if call <= 5 { (true, 1) } else { (false, 0) };
        let found = failing_at(rt.alloc(), call)?;
        assert!(rt; found == want, "call {call}");
    }
    Ok(())
}

// Whether so many bytes are read of an odd source, and the end of what was asked for is this.
fn ends_at(alloc: Global, mut source: OddSource, bytes: u32, asked: u64) -> Result<bool, Fail> {
    let want = pattern(alloc, bytes)?;
    let read = read_file(alloc, &mut source, 1)?;
    Ok(read.bytes() == want.bytes() && source.asked() == asked)
}

/// The bytes that a source has, the length it tells, the most that a read gives, the bytes that are read of it, and the
/// end of what is asked for.
const ODD: [(u32, u32, usize, u32, u64); 7] = [
    (100, 60, 7, 60, 60),
    (100, 100, 100, 100, 100),
    (100, 200, 1000, 100, 200),
    (100, 0, 7, 0, 0),
    (0, 5, 7, 0, 5),
    (90_000, 65_537, 65_536, 65_537, 65_537),
    (90_000, 65_537, 40_000, 65_537, 65_537),
];

#[test]
fn no_byte_past_the_told_length_is_asked_for(rt: HostRuntime) -> Result<(), Fail> {
    for (bytes, told, step, read, asked) in ODD {
        let source = OddSource::new(pattern(rt.alloc(), bytes)?, told, step);
        let good = ends_at(rt.alloc(), source, read, asked)?;
        assert!(rt; good, "{told} bytes told of {bytes}");
    }
    Ok(())
}
