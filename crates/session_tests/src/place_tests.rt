//! Places in published files, over a disk in memory.

ghost use Rattle.std.specs.Prelude.{◌≡◌};

use cdc_base::Buffer;
use cdc_index::{ShelfFault, is_boundary, next_file};
use cdc_memory::MemDisk;
use cdc_outside::{DiskFile, write_through};
use cdc_records::Front;
use std::alloc::Global;
use std::test::Fail;

/// What a log file begins with.
const MAGIC: &[u8] = b"\xfe\x62\x69\x6e";

/// The lengths of a small file's events, and the places where they end.
const SMALL: [u32; 3] = [19, 25, 40];

const SMALL_ENDS: [u64; 4] = [4, 23, 48, 88];

// Appends an event of zeros that tells this length, and has so many bytes.
fn push_event(file: &mut Buffer, told: u32, bytes: usize) -> Result<(), Fail> {
    let mut header = [0u8; 19];
    header[9..13].copy_from_slice(&told.to_le_bytes());
    file.push(header.get(..bytes).unwrap_or(&header))?;
    for _ in 19..bytes {
        file.push(&[0])?;
    }
    Ok(())
}

// A file of events of these lengths.
fn file_of(alloc: Global, lengths: &[u32]) -> Result<Buffer, Fail> {
    let mut file = Buffer::new(alloc);
    file.push(MAGIC)?;
    for length in lengths {
        push_event(&mut file, *length, *length as usize)?;
    }
    Ok(file)
}

// A Front whose last file is this one, published up to a length.
fn front(file: u64, length: u64) -> Front
    ensures first { result.first ≡ 1 }
    ensures file { result.file ≡ file }
{
    Front {
        count: 1,
        file,
        length,
        closed: false,
        first: 1,
        passed: 0,
        last: None,
    }
}

// A disk with this file, synced.
fn disk_with(alloc: Global, file: &[u8], room: usize, fails: &[u64]) -> Result<MemDisk, Fail> {
    let mut disk = MemDisk::new(alloc, 2, room, 4, fails)?;
    write_through(&mut disk, DiskFile::Log(1), 0, file)?;
    Ok(disk)
}

#[test]
fn ends_of_events_are_boundaries(rt: HostRuntime) -> Result<(), Fail> {
    let file = file_of(rt.alloc(), &SMALL)?;
    let mut disk = disk_with(rt.alloc(), file.bytes(), 100, &[])?;
    for at in 0..100u64 {
        let want = SMALL_ENDS.contains(&at);
        let found = is_boundary(&mut disk, &front(1, 88), 1, at);
        assert!(rt; found == Ok(want), "{found:?} at {at}");
        // The same of a file before the Front's, whatever the Front's length.
        let found = is_boundary(&mut disk, &front(2, 0), 1, at);
        assert!(rt; found == Ok(want), "{found:?} at {at}");
    }
    Ok(())
}

#[test]
fn a_front_inside_an_event_is_torn(rt: HostRuntime) -> Result<(), Fail> {
    let file = file_of(rt.alloc(), &SMALL)?;
    let mut disk = disk_with(rt.alloc(), file.bytes(), 100, &[])?;
    for length in 0..95u64 {
        let whole = SMALL_ENDS.contains(&length) || length > 88;
        let found = is_boundary(&mut disk, &front(1, length), 1, 4);
        let want = if whole {
            Ok(true)
        } else {
            Err(ShelfFault::Torn)
        };
        assert!(rt; found == want, "{found:?} with {length}");
    }
    Ok(())
}

#[test]
fn odd_files_are_torn(rt: HostRuntime) -> Result<(), Fail> {
    // Lengths that an event tells, and the bytes that it has: a header's length less one, one more than is there, 0.
    let rows: [(u32, usize); 4] = [(18, 18), (20, 19), (0, 19), (4_294_967_295, 30)];
    for (told, bytes) in rows {
        let mut file = file_of(rt.alloc(), &SMALL)?;
        push_event(&mut file, told, bytes)?;
        let mut disk = disk_with(rt.alloc(), file.bytes(), 200, &[])?;
        let found = is_boundary(&mut disk, &front(2, 0), 1, 4);
        assert!(rt; found == Err(ShelfFault::Torn), "{found:?} for {told}");
    }
    let mut disk = disk_with(rt.alloc(), b"\xfe\x62\x69\x6f", 200, &[])?;
    let found = is_boundary(&mut disk, &front(1, 4), 1, 4);
    assert!(rt; found == Err(ShelfFault::Torn), "{found:?} without a magic");
    Ok(())
}

#[test]
fn a_file_of_many_reads_is_walked_over(rt: HostRuntime) -> Result<(), Fail> {
    // Events of 65,517 bytes and 19 end at the end of a read; one of 70,000 is longer than a read.
    let lengths = [65_513, 19, 70_000, 50, 65_000, 536, 19];
    let file = file_of(rt.alloc(), &lengths)?;
    let mut disk = disk_with(rt.alloc(), file.bytes(), 300_000, &[])?;
    let all = file.len() as u64;
    let mut end = 4u64;
    for length in lengths {
        let found = is_boundary(&mut disk, &front(1, all), 1, end);
        assert!(rt; found == Ok(true), "{found:?} at {end}");
        let found = is_boundary(&mut disk, &front(1, all), 1, end.saturating_add(19));
        assert!(rt; found == Ok(length == 19), "{found:?} behind {end}");
        end = end.saturating_add(u64::from(length));
    }
    assert!(rt; end == all);
    let found = is_boundary(&mut disk, &front(1, all), 1, all);
    assert!(rt; found == Ok(true), "{found:?} at the end");
    Ok(())
}

#[test]
fn a_failed_call_is_told(rt: HostRuntime) -> Result<(), Fail> {
    let file = file_of(rt.alloc(), &SMALL)?;
    // The write and the sync are the first two calls, the length and a read the next.
    for call in 3..5u64 {
        let mut disk = disk_with(rt.alloc(), file.bytes(), 100, &[call])?;
        let found = is_boundary(&mut disk, &front(1, 88), 1, 4);
        assert!(rt;
            found == Err(ShelfFault::DiskFault),
            "{found:?} at call {call}"
        );
        let found = is_boundary(&mut disk, &front(1, 88), 1, 4);
        assert!(rt; found == Ok(true), "{found:?} behind call {call}");
    }
    Ok(())
}

#[test]
fn files_follow_up_to_the_fronts(rt: HostRuntime) {
    let rows: [(u64, u64, Option<u64>); 5] = [
        (3, 1, Some(2)),
        (3, 2, Some(3)),
        (3, 3, None),
        (3, 4, None),
        (0, 0, None),
    ];
    for (last, file, want) in rows {
        let next = next_file(&front(last, 200), file);
        assert!(rt; next == want, "{next:?} behind {file}");
    }
}
