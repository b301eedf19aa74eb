//! Disks over a folder.

use cdc_base::Text;
use cdc_files::FileDisk;
use cdc_outside::{Disk, DiskFile};
use std::fs;
use std::fs::File;
use std::test::Fail;

/// A disk over a folder.
type Folder<'a> = FileDisk<&'a HostRuntime, File>;

/// A file, a place in it and bytes.
type Write<'a> = (DiskFile, u64, &'a [u8]);

// A disk over a folder.
fn over<'a>(rt: &'a HostRuntime, folder: &str) -> Result<Folder<'a>, Fail> {
    let folder = Text::of(rt.alloc(), folder)?;
    Ok(FileDisk::new(rt, rt.alloc(), &folder)?)
}

// Whether a file has exactly these bytes.
fn has<D: Disk>(disk: &mut D, file: DiskFile, want: &[u8]) -> Result<bool, Fail> {
    let mut into = [0u8; 16];
    let length = disk.length(file)?;
    let read = disk.read_at(file, 0, &mut into)?;
    Ok(length == want.len() as u64 && &into[..read] == want)
}

// Writes all of these, one behind another.
fn write_all(disk: &mut Folder<'_>, writes: &[Write<'_>]) -> Result<(), Fail> {
    for (file, at, bytes) in writes {
        disk.write_at(*file, *at, bytes)?;
    }
    Ok(())
}

/// What the tests read: slots, logs of short and long numbers, and eight logs more, so that some are closed.
const FILLED: [Write<'static>; 12] = [
    (DiskFile::SlotA, 0, b"abc"),
    (DiskFile::SlotA, 2, b"de"),
    (DiskFile::Log(1), 0, b"log"),
    (DiskFile::Log(2), 0, b"log"),
    (DiskFile::Log(3), 0, b"log"),
    (DiskFile::Log(4), 0, b"log"),
    (DiskFile::Log(5), 0, b"log"),
    (DiskFile::Log(6), 0, b"log"),
    (DiskFile::Log(7), 0, b"log"),
    (DiskFile::Log(8), 0, b"log"),
    (DiskFile::Log(1_234_567), 0, b"long"),
    (DiskFile::Log(1), 3, b"ging"),
];

// Writes what the tests read, and answers another disk over the folder.
fn filled<'a>(rt: &'a HostRuntime) -> Result<Folder<'a>, Fail> {
    let mut disk = over(rt, "store")?;
    write_all(&mut disk, &FILLED)?;
    disk.sync()?;
    over(rt, "store")
}

#[test]
fn what_is_written_is_read_by_another_disk(rt: HostRuntime) -> Result<(), Fail> {
    let mut disk = filled(&rt)?;
    let rows: [(DiskFile, &[u8]); 6] = [
        (DiskFile::SlotA, b"abde"),
        (DiskFile::SlotB, b""),
        (DiskFile::Log(1), b"logging"),
        (DiskFile::Log(8), b"log"),
        (DiskFile::Log(9), b""),
        (DiskFile::Log(1_234_567), b"long"),
    ];
    for (file, want) in rows {
        let same = has(&mut disk, file, want)?;
        assert!(rt; same, "{file:?}");
    }
    assert!(rt; disk.faults() == 0);
    Ok(())
}

/// Writes into a fresh folder: one behind another, over each other, and in turns into two files.
const TURNS: [Write<'static>; 6] = [
    (DiskFile::Log(1), 0, b"abc"),
    (DiskFile::Log(1), 3, b"de"),
    (DiskFile::Log(1), 1, b"BC"),
    (DiskFile::Log(2), 0, b"x"),
    (DiskFile::Log(1), 5, b"f"),
    (DiskFile::Log(3), 0, b"y"),
];

// Writes in turns, and then one that is long.
fn write_in_turns(rt: &HostRuntime, disk: &mut Folder<'_>) -> Result<(), Fail> {
    let long = vec![in rt.alloc(); 7u8; 70_000]?;
    write_all(disk, &TURNS)?;
    write_all(
        disk,
        &[
            (DiskFile::Log(3), 1, long.as_slice()),
            (DiskFile::Log(3), 70_001, b"z"),
        ],
    )
}

// Whether a long file has so many bytes, and ends with these two.
fn ends_with<D: Disk>(
    disk: &mut D,
    file: DiskFile,
    bytes: u64,
    want: [u8; 2],
) -> Result<bool, Fail> {
    let mut last = [0u8; 2];
    let length = disk.length(file)?;
    let read = disk.read_at(file, bytes.saturating_sub(2), &mut last)?;
    Ok(length == bytes && read == 2 && last == want)
}

#[test]
fn writes_are_read_before_they_are_synced(rt: HostRuntime) -> Result<(), Fail> {
    let mut disk = over(&rt, "turns")?;
    write_in_turns(&rt, &mut disk)?;
    assert!(rt; has(&mut disk, DiskFile::Log(1), b"aBCdef")?);
    assert!(rt; has(&mut disk, DiskFile::Log(2), b"x")?);
    assert!(rt; ends_with(&mut disk, DiskFile::Log(3), 70_002, *b"\x07z")?);
    Ok(())
}

#[test]
fn files_have_their_names(rt: HostRuntime) -> Result<(), Fail> {
    let _disk = filled(&rt)?;
    let rows = [
        ("store/slot.a", true),
        ("store/slot.b", false),
        ("store/binlog.000001", true),
        ("store/binlog.000008", true),
        ("store/binlog.1234567", true),
    ];
    for (path, want) in rows {
        let there = fs::metadata(&rt, path).is_ok();
        assert!(rt; there == want, "{path}");
    }
    Ok(())
}

// Cuts a slot, one that isn't there, and a log behind its end.
fn cut_all(disk: &mut Folder<'_>) -> Result<(), Fail> {
    for (file, to) in [
        (DiskFile::SlotA, 3),
        (DiskFile::SlotB, 0),
        (DiskFile::Log(2), 9),
    ] {
        disk.cut(file, to)?;
    }
    Ok(disk.sync()?)
}

#[test]
fn a_file_is_cut(rt: HostRuntime) -> Result<(), Fail> {
    let mut disk = filled(&rt)?;
    cut_all(&mut disk)?;
    assert!(rt; has(&mut disk, DiskFile::SlotA, b"abd")?);
    assert!(rt; has(&mut over(&rt, "store")?, DiskFile::Log(2), b"log")?);
    let bytes = fs::read(&rt, "store/slot.a")?;
    assert!(rt; bytes.as_slice() == b"abd".as_slice());
    Ok(())
}

#[test]
fn a_file_that_becomes_shorter_fails(rt: HostRuntime) -> Result<(), Fail> {
    let mut disk = filled(&rt)?;
    let before = has(&mut disk, DiskFile::SlotA, b"abde")?;
    fs::write(&rt, "store/slot.a", b"ab")?;
    let length = disk.length(DiskFile::SlotA).is_err();
    let read = disk.read_at(DiskFile::SlotA, 2, &mut [0u8; 2]).is_err();
    assert!(rt; before && length && read && disk.faults() == 2);
    Ok(())
}

// How many of the calls of a disk fail.
fn failures<D: Disk>(disk: &mut D) -> u64 {
    let length = disk.length(DiskFile::SlotA).is_err();
    let read = disk.read_at(DiskFile::Log(1), 0, &mut [0u8; 2]).is_err();
    let sync = disk.sync().is_err();
    u64::from(length) + u64::from(read) + u64::from(sync)
}

#[test]
fn a_folder_is_made_where_it_can_be(rt: HostRuntime) -> Result<(), Fail> {
    fs::write(&rt, "plain", b"abc")?;
    for (folder, want, made) in [
        ("plain", 3, false),
        ("none", 0, true),
        ("none/two", 0, true),
        ("no/two", 0, false),
    ] {
        let mut disk = over(&rt, folder)?;
        let failed = failures(&mut disk);
        let done = disk.write_at(DiskFile::SlotB, 0, b"abc").is_ok();
        assert!(rt; failed == want && done == made, "{folder}: {failed}");
        assert!(rt; disk.faults() == want + u64::from(!made), "{folder}");
    }
    Ok(())
}
