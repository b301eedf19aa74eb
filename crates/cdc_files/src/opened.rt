//! A regular file that is opened.

ghost use Rattle.std.specs.Prelude.{◌≤◌, length, IfSome};

use std::fs;
use std::fs::{File, Files, OpenFile};
use std::os::unix::fs::FileExt;

/// An opened file, and how many bytes it was seen to have. It fails where it is seen to have become shorter.
#[derive(Drop)]
pub struct Opened<F> {
    file: F,
    seen: u64,
}

/// Opens a regular file; none where it can't be opened or is something else. A pipe isn't opened, since that would
/// wait for its writer.
pub fn open_regular<F: OpenFile + Drop, R: Files<File = F>>(rt: &R, path: &str) -> Option<F> {
    if !fs::metadata(rt, path).ok()?.is_file() {
        return None;
    }
    let file = File::open(rt, path).ok()?;
    if file.metadata().ok()?.is_file() {
        Some(file)
    } else {
        None
    }
}

impl<F: FileExt + OpenFile + Drop> Opened<F> {
    /// This file, of which nothing was seen.
    pub fn new(file: F) -> Opened<F> {
        Opened { file, seen: 0 }
    }

    /// How many bytes it has; none where it has become shorter, or the system failed.
    pub fn length(&mut self) -> Option<u64> {
        let bytes = self.file.metadata().ok()?.len();
        if bytes < self.seen {
            return None;
        }
        self.seen = bytes;
        Some(bytes)
    }

    /// Reads from the byte `at` on. Where there is none, it looks whether the file has become shorter.
    pub fn read(&mut self, at: u64, into: &mut [u8]) -> Option<usize>
        ensures { IfSome result (λ read. read ≤ length into.old) }
    {
        let read = self.file.read_at(into, at).ok()?;
        if read > 0 {
            self.seen = self.seen.max(at.saturating_add(read as u64));
        } else if !into.is_empty() {
            let _bytes = self.length()?;
        }
        Some(read)
    }

    /// Writes all of these bytes from the byte `at` on.
    pub fn write(&mut self, at: u64, from: &[u8]) -> Option<()> {
        self.file.write_all_at(from, at).ok()?;
        self.seen = self.seen.max(at.saturating_add(from.len() as u64));
        Some(())
    }

    /// Keeps the first bytes alone. A shorter file isn't lengthened.
    pub fn cut(&mut self, to: u64) -> Option<()> {
        if to < self.length()? {
            self.file.set_len(to).ok()?;
            self.seen = to;
        }
        Some(())
    }

    /// Makes durable its bytes, and how many it has.
    pub fn sync(&self) -> Option<()> {
        self.file.sync_data().ok()
    }
}
