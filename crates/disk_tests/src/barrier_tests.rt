//! Which folders a disk makes durable.

use cdc_base::Text;
use cdc_files::FileDisk;
use cdc_outside::{Disk, DiskFile};
use std::alloc::Allocator;
use std::fs::{File, Files, Metadata, OpenOptions};
use std::io;
use std::io::ErrorKind;
use std::test::Fail;

// The system, but for one path that can't be opened.
#[derive(Drop)]
struct Without<'a> {
    rt: &'a HostRuntime,
    path: &'a str,
}

impl<'a> Files for Without<'a> {
    type File = File;

    type Dir = <HostRuntime as Files>::Dir;

    fn open_file(&self, how: &OpenOptions, path: &str) -> io::Result<File> {
        if path == self.path {
            return Err(io::Error::from(ErrorKind::PermissionDenied));
        }
        self.rt.open_file(how, path)
    }

    fn open_dir(&self, path: &str) -> io::Result<<HostRuntime as Files>::Dir> {
        self.rt.open_dir(path)
    }

    fn metadata(&self, path: &str) -> io::Result<Metadata> {
        self.rt.metadata(path)
    }

    fn symlink_metadata(&self, path: &str) -> io::Result<Metadata> {
        self.rt.symlink_metadata(path)
    }

    fn copy(&self, from: &str, to: &str) -> io::Result<u64> {
        self.rt.copy(from, to)
    }

    fn rename(&self, from: &str, to: &str) -> io::Result<()> {
        self.rt.rename(from, to)
    }

    fn remove_file(&self, path: &str) -> io::Result<()> {
        self.rt.remove_file(path)
    }

    fn create_dir(&self, path: &str) -> io::Result<()> {
        self.rt.create_dir(path)
    }

    fn remove_dir(&self, path: &str) -> io::Result<()> {
        self.rt.remove_dir(path)
    }

    fn remove_dir_all<B: Allocator>(&self, alloc: B, path: &str) -> io::Result<()> {
        self.rt.remove_dir_all(alloc, path)
    }
}

// How many of two syncs succeed over a folder where this path can't be opened: the first one, and one behind a write.
fn syncs(rt: &HostRuntime, path: &str) -> Result<u64, Fail> {
    let folder = Text::of(rt.alloc(), "fresh")?;
    let mut disk = FileDisk::new(Without { rt, path }, rt.alloc(), &folder)?;
    let first = disk.sync().is_ok();
    let _written = disk.write_at(DiskFile::SlotA, 0, b"abc").is_ok();
    let second = disk.sync().is_ok();
    Ok(u64::from(first) + u64::from(second))
}

// A sync opens the folder and what it stands in, and the slots. While there is no folder it has nothing to do.
#[test]
fn the_folder_and_its_name_are_synced(rt: HostRuntime) -> Result<(), Fail> {
    let rows = [
        ("fresh", 1),
        ("fresh/..", 0),
        ("fresh", 0),
        ("fresh/slot.a", 0),
        ("fresh/slot.b", 2),
        ("fresh/binlog.000001", 2),
    ];
    for (path, want) in rows {
        let done = syncs(&rt, path)?;
        assert!(rt; done == want, "{path}: {done}");
    }
    Ok(())
}
