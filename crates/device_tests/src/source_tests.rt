//! Sources in memory.

ghost use Rattle.std.specs.Prelude.{◌≡◌, ◌≤◌, length};
ghost use Rattle.cdc_memory.specs.Source.{held_files};

use crate::pattern::{ask, one_file, two_files};
use cdc_base::Place;
use cdc_memory::MemSource;
use cdc_outside::Source;
use std::alloc::Global;
use std::test::Fail;

// Whether a read from files of 3 and 10 bytes gives these bytes, and its place is the lowest.
fn gives(alloc: Global, place: Place, room: usize, want: &[u8]) -> Result<bool, Fail> {
    let mut source = two_files(alloc, 3, 10)?;
    let mut into = [255u8; 4];
    let room = room.min(4);
    let read = ask(&mut source, place.file, place.at, &mut into[..room])?;
    let bytes = &into[..read.min(4)];
    Ok(bytes == want && source.lowest() == Some(place))
}

/// A file, a place in it, the room for what is read there, and what that is.
const READS: [(u32, u64, usize, &[u8]); 8] = [
    (1, 0, 4, &[0, 1, 2]),
    (1, 3, 4, &[]),
    (2, 0, 4, &[0, 1, 2, 3]),
    (2, 8, 4, &[8, 9]),
    (2, 9, 1, &[9]),
    (2, 10, 4, &[]),
    (2, 11, 4, &[]),
    (2, 3, 0, &[]),
];

#[test]
fn reads_give_what_the_file_still_has(rt: HostRuntime) -> Result<(), Fail> {
    for (file, at, room, want) in READS {
        let good = gives(rt.alloc(), Place { file, at }, room, want)?;
        assert!(rt; good, "file {file} at {at}");
    }
    Ok(())
}

// The least place that two reads, one after the other, ask for.
fn lowest_of_two(alloc: Global, first: Place, second: Place) -> Result<Option<Place>, Fail> {
    let mut source = two_files(alloc, 3, 10)?;
    let _read = ask(&mut source, first.file, first.at, &mut [0u8; 4])?;
    let _read = ask(&mut source, second.file, second.at, &mut [0u8; 4])?;
    Ok(source.lowest())
}

/// Places of two files, from the least on.
const PLACES: [Place; 4] = [
    Place { file: 1, at: 8 },
    Place { file: 1, at: 9 },
    Place { file: 2, at: 0 },
    Place { file: 2, at: 3 },
];

// Whether of two of these places, asked for one after the other, the least is the lowest.
fn least_is_lowest(alloc: Global, first: usize, second: usize) -> Result<bool, Fail> {
    let (place, other) = (PLACES[first % 4], PLACES[second % 4]);
    let want = if first < second { place } else { other };
    Ok(lowest_of_two(alloc, place, other)? == Some(want))
}

#[test]
fn lowest_is_the_least_place_asked_for(rt: HostRuntime) -> Result<(), Fail> {
    for first in 0..4usize {
        for second in 0..4usize {
            let good = least_is_lowest(rt.alloc(), first, second)?;
            assert!(rt; good, "{first} then {second}");
        }
    }
    Ok(())
}

// Whether a call of the first file succeeds: of `files`, `length` or `read_at`.
fn succeeds(source: &mut MemSource, which: u8) -> bool
    requires { 1 ≤ length (held_files source.old) }
    ensures { held_files source.new ≡ held_files source.old }
{
    match which {
        0 => source.files().is_ok(),
        1 => source.length(1).is_ok(),
        _ => source.read_at(1, 2, &mut [0u8; 9]).is_ok(),
    }
}

// Whether the second of three calls fails, and no other, and is counted.
fn second_fails(alloc: Global, first: u8, second: u8) -> Result<bool, Fail> {
    let mut source = one_file(alloc, 5, &[7, 2])?;
    let before = succeeds(&mut source, first);
    let listed = succeeds(&mut source, second);
    let after = succeeds(&mut source, second);
    Ok(before && !listed && after && source.faults() == 1)
}

#[test]
fn a_listed_call_fails_and_no_other(rt: HostRuntime) -> Result<(), Fail> {
    for first in 0..3u8 {
        for second in 0..3u8 {
            let good = second_fails(rt.alloc(), first, second)?;
            assert!(rt; good, "call {first}, then {second}");
        }
    }
    Ok(())
}
