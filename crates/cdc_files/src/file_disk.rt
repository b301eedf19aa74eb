//! A disk over a folder.

ghost use Rattle.std.specs.Prelude.{◌≡◌, false, [], IfOk};
ghost use Rattle.std.specs.Prelude.{⊤};

use crate::counted::counted;
use crate::open_folder::OpenFolder;
use cdc_base::{Memory, Text};
use cdc_outside::{Disk, DiskFile, Failed};
use std::alloc::Global;
use std::fs::{Files, OpenFile};
use std::os::unix::fs::FileExt;

/// The files `slot.a`, `slot.b` and `binlog.000001` and so on of one folder. The folder and its files are made at the
/// first write. A file that becomes shorter than it was seen, but by a cut of this disk, fails.
#[derive(Drop)]
pub struct FileDisk<R, F> {
    folder: OpenFolder<R, F>,
    faults: u64,
}

impl<F: FileExt + OpenFile + Drop, R: Files<File = F> + Drop> FileDisk<R, F> {
    /// A disk over the folder at this path, of which nothing is opened or made as yet.
    pub fn new(rt: R, alloc: Global, folder: &Text) -> Result<FileDisk<R, F>, Memory>
        ensures { IfOk result (λ disk. ⟦<FileDisk<R, F> as Disk>⟧.faults disk ≡ 0) }
    {
        Ok(FileDisk {
            folder: OpenFolder::new(rt, alloc, folder)?,
            faults: 0,
        })
    }

    /// How many calls failed.
    pub fn faults(&self) -> u64
        ensures { result ≡ ⟦<FileDisk<R, F> as Disk>⟧.faults self.now }
    {
        self.faults
    }
}

impl<F: FileExt + OpenFile + Drop, R: Files<File = F> + Drop> Disk for FileDisk<R, F> {
    ghost use Rattle.cdc_files.specs.Untold.{untold};

    ghost tells = { false };

    ghost seen = { λ _ _. [] };

    ghost synced = { λ _ _. [] };

    ghost pending = { λ _ _. [] };

    ghost may_leave = { λ _ _. ⊤ };

    ghost moment = { λ _. 0 };

    ghost left_since = { λ _ _ _. ⊤ };

    ghost faults = { λ disk. disk.faults };

    ghost image_is = { λ disk image told. untold told };

    ghost seen_may_stay = { λ disk told. untold told };

    ghost counts_now = { λ disk t image told. untold told };

    ghost only_now = { λ disk image told. untold told };

    fn length(&mut self, file: DiskFile) -> Result<u64, Failed> {
        let bytes = self.folder.length(file);
        counted(bytes, &mut self.faults)
    }

    fn read_at(&mut self, file: DiskFile, at: u64, into: &mut [u8]) -> Result<usize, Failed> {
        let read = self.folder.read(file, at, into);
        counted(read, &mut self.faults)
    }

    fn write_at(&mut self, file: DiskFile, at: u64, from: &[u8]) -> Result<(), Failed> {
        let done = self.folder.write(file, at, from);
        counted(done, &mut self.faults)
    }

    fn cut(&mut self, file: DiskFile, to: u64) -> Result<(), Failed> {
        let done = self.folder.cut(file, to);
        counted(done, &mut self.faults)
    }

    fn sync(&mut self) -> Result<(), Failed> {
        let done = self.folder.sync();
        counted(done, &mut self.faults)
    }
}
