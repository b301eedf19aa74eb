//! A disk in memory that doesn't tell its content, as a folder doesn't.

ghost use Rattle.std.specs.Prelude.{◌≡◌, false, [], ⊤};

use cdc_base::Memory;
use cdc_memory::MemDisk;
use cdc_outside::{Disk, DiskFile, Failed};
use std::alloc::Global;

/// A disk of which nothing is known but what is read of it, so that passes may be made over it one after another.
#[derive(Drop)]
pub struct UntoldDisk {
    pub disk: MemDisk,
}

impl UntoldDisk {
    /// One outcome of a crash now.
    pub fn after_crash(&self, alloc: Global, pick: u8) -> Result<UntoldDisk, Memory> {
        let disk = self.disk.after_crash(alloc, pick)?;
        Ok(UntoldDisk { disk })
    }
}

impl Disk for UntoldDisk {
    ghost use Rattle.cdc_files.specs.Untold.{untold};

    ghost tells = { false };

    ghost seen = { λ _ _. [] };

    ghost synced = { λ _ _. [] };

    ghost pending = { λ _ _. [] };

    ghost may_leave = { λ _ _. ⊤ };

    ghost moment = { λ _. 0 };

    ghost left_since = { λ _ _ _. ⊤ };

    ghost faults = { λ disk. ⟦<MemDisk as Disk>⟧.faults disk.disk };

    ghost image_is = { λ disk image told. untold told };

    ghost seen_may_stay = { λ disk told. untold told };

    ghost counts_now = { λ disk t image told. untold told };

    ghost only_now = { λ disk image told. untold told };

    fn length(&mut self, file: DiskFile) -> Result<u64, Failed> {
        self.disk.length(file)
    }

    fn read_at(&mut self, file: DiskFile, at: u64, into: &mut [u8]) -> Result<usize, Failed> {
        self.disk.read_at(file, at, into)
    }

    /// It asks for the length first: a disk in memory is never written behind it. So a write is two calls.
    fn write_at(&mut self, file: DiskFile, at: u64, from: &[u8]) -> Result<(), Failed> {
        let length = self.disk.length(file)?;
        self.disk.write_at(file, at.min(length), from)
    }

    fn cut(&mut self, file: DiskFile, to: u64) -> Result<(), Failed> {
        let length = self.disk.length(file)?;
        self.disk.cut(file, to.min(length))
    }

    fn sync(&mut self) -> Result<(), Failed> {
        self.disk.sync()
    }
}
