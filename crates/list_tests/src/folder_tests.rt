//! Outs in folders.

use crate::shelves::{ONE_FILE, TWO_FILES};
use cdc_base::Text;
use cdc_files::FileDisk;
use cdc_list::{ListEnd, list};
use cdc_memory::MemSink;
use cdc_outside::{Disk, DiskFile};
use std::fs;
use std::fs::File;
use std::test::Fail;

// A disk over a folder.
fn over<'a>(rt: &'a HostRuntime, folder: &str) -> Result<FileDisk<&'a HostRuntime, File>, Fail> {
    let folder = Text::of(rt.alloc(), folder)?;
    Ok(FileDisk::new(rt, rt.alloc(), &folder)?)
}

// Writes the files of an output: its slot, a first file of 399 bytes and a second of 250.
fn fill(rt: &HostRuntime, folder: &str, slot: &[u8]) -> Result<(), Fail> {
    let mut disk = over(rt, folder)?;
    disk.write_at(DiskFile::SlotB, 0, slot)?;
    disk.write_at(DiskFile::Log(1), 0, &[7; 399])?;
    disk.write_at(DiskFile::Log(2), 0, &[7; 250])?;
    Ok(disk.sync()?)
}

// What a listing of three folders writes.
fn list_folders(rt: &HostRuntime, folders: [&str; 3]) -> Result<MemSink, Fail> {
    let mut outs = Vec::new(rt.alloc());
    for folder in folders {
        outs.push(over(rt, folder)?)?;
    }
    if outs.len() > 3 {
        return Err("too many outs")?;
    }
    let mut out = MemSink::new(rt.alloc(), 1_000, &[])?;
    if list(rt.alloc(), &mut outs, &mut out) != ListEnd::Done {
        return Err("another end")?;
    }
    Ok(out)
}

#[test]
fn folders_are_listed_and_none_is_made(rt: HostRuntime) -> Result<(), Fail> {
    fill(&rt, "two", &TWO_FILES)?;
    fill(&rt, "one", &ONE_FILE)?;
    let out = list_folders(&rt, ["two", "none", "one"])?;
    let text = b"1 binlog.000001 399\n1 binlog.000002 241\nout 1 binlog.000002 241 3\n\
        out 2 - 0 0\n3 binlog.000001 241\nout 3 binlog.000001 241 1\n"
        .as_slice();
    assert!(rt; out.written() == text);
    let made = fs::metadata(&rt, "none").is_ok();
    assert!(rt; !made);
    Ok(())
}
