//! The files of a folder, of which some are kept open.

ghost use Rattle.std.specs.Prelude.{◌≡◌, ◌≤◌, ◌<◌, length, IfOk, IfSome};

use crate::file_path::FilePath;
use crate::gathered::Gathered;
use crate::opened::Opened;
use cdc_base::{Memory, Text};
use cdc_outside::DiskFile;
use std::alloc::Global;
use std::fs;
use std::fs::{File, Files, OpenFile, OpenOptions};
use std::io::ErrorKind;
use std::os::unix::fs::FileExt;

/// How many files are kept open: the slots, and as many logs as there is room for besides.
const KEPT: usize = 8;

/// A file that is kept open.
#[derive(Drop)]
struct KeptFile<F> {
    file: DiskFile,
    opened: Opened<F>,
    /// Whether what it has is to be made durable at the next sync.
    waits: bool,
}

/// A folder of slots and logs. A file is opened once, and kept until another log takes its place. Writes into one file,
/// each right behind the one before, are gathered, and reach it in one piece before anything else is done here.
///
/// What an earlier program left unsynced is made durable too: at the first sync the slots, the folder, what it stands
/// in and all files that were opened before; from then on each file when it is opened.
#[derive(Drop)]
pub struct OpenFolder<R, F> {
    rt: R,
    path: FilePath,
    kept: Vec<Option<KeptFile<F>>>,
    /// What was written and didn't reach its file as yet, which is kept open.
    gathered: Gathered,
    /// Whether the folder's own list of files is to be made durable.
    folder_waits: bool,
    /// Whether the folder's name in what it stands in is.
    parent_waits: bool,
    /// Whether a sync was done.
    settled: bool,
    /// Whether a sync failed. Then the system may have let go of what was written, so each later one fails.
    lost: bool,
    ghost places: { length kept.items ≡ 8 },
}

impl<F: FileExt + OpenFile + Drop, R: Files<File = F> + Drop> OpenFolder<R, F> {
    /// This folder, of which no file is open.
    pub fn new(rt: R, alloc: Global, folder: &Text) -> Result<OpenFolder<R, F>, Memory> {
        Ok(OpenFolder {
            rt,
            path: FilePath::new(alloc, folder)?,
            kept: no_files(alloc)?,
            gathered: Gathered::new(alloc)?,
            folder_waits: true,
            parent_waits: true,
            settled: false,
            lost: false,
        })
    }

    /// How many bytes a file has, and 0 where it isn't there.
    pub fn length(&mut self, file: DiskFile) -> Option<u64> {
        self.flush()?;
        self.keep(file)?;
        match &mut self.kept[place_of(file)] {
            Some(kept) => kept.opened.length(),
            None => Some(0),
        }
    }

    /// Reads of a file from the byte `at` on.
    pub fn read(&mut self, file: DiskFile, at: u64, into: &mut [u8]) -> Option<usize>
        ensures { IfSome result (λ read. read ≤ length into.old) }
    {
        self.flush()?;
        self.keep(file)?;
        match &mut self.kept[place_of(file)] {
            Some(kept) => kept.opened.read(at, into),
            None => Some(0),
        }
    }

    /// Writes into a file, which is made where it isn't there.
    pub fn write(&mut self, file: DiskFile, at: u64, from: &[u8]) -> Option<()> {
        if !self.gathered.takes(file, at, from.len()) {
            self.flush()?;
        }
        self.keep(file)?;
        self.make(file)?;
        let kept = self.kept[place_of(file)].as_mut()?;
        kept.waits = true;
        if self.gathered.takes(file, at, from.len()) {
            self.gathered.add(file, at, from);
            return Some(());
        }
        kept.opened.write(at, from)
    }

    /// Brings what was gathered to its file.
    fn flush(&mut self) -> Option<()> {
        let Some(file) = self.gathered.file() else {
            return Some(());
        };
        let kept = self.kept[place_of(file)].as_mut()?;
        self.gathered.write_to(&mut kept.opened)
    }

    /// Cuts a file, where it is there and longer.
    pub fn cut(&mut self, file: DiskFile, to: u64) -> Option<()> {
        self.flush()?;
        self.keep(file)?;
        match &mut self.kept[place_of(file)] {
            Some(kept) => {
                kept.waits = true;
                kept.opened.cut(to)
            }
            None => Some(()),
        }
    }

    /// Makes durable all that a read gives, and the names of the files.
    pub fn sync(&mut self) -> Option<()> {
        if self.lost {
            return None;
        }
        self.flush()?;
        self.lost = true;
        if !self.settled {
            self.keep(DiskFile::SlotA)?;
            self.keep(DiskFile::SlotB)?;
        }
        for place in 0..KEPT {
            self.secure(place)?;
        }
        self.sync_names()?;
        self.lost = false;
        self.settled = true;
        Some(())
    }

    /// Makes durable the folder, and its name in what it stands in, where it is there.
    fn sync_names(&mut self) -> Option<()> {
        if !(self.folder_waits || self.parent_waits) || !self.is_there()? {
            return Some(());
        }
        sync_folder(&self.rt, self.path.folder())?;
        self.folder_waits = false;
        if self.parent_waits {
            sync_folder(&self.rt, self.path.parent()?)?;
            self.parent_waits = false;
        }
        Some(())
    }

    /// Whether the folder is there; none where something else is.
    fn is_there(&self) -> Option<bool> {
        match fs::metadata(&self.rt, self.path.folder()) {
            Ok(found) if found.is_dir() => Some(true),
            Err(error) if error.kind() == ErrorKind::NotFound => Some(false),
            _ => None,
        }
    }

    /// Opens a file and keeps it at its place, where it is there and isn't open.
    fn keep(&mut self, file: DiskFile) -> Option<()> {
        let place = place_of(file);
        if is_kept(&self.kept[place], file) {
            return Some(());
        }
        self.leave(place)?;
        if let Some(opened) = self.open(file)? {
            self.kept[place] = Some(KeptFile {
                file,
                opened: Opened::new(opened),
                waits: !self.settled,
            });
        }
        Some(())
    }

    /// Closes what is kept at a place, and makes it durable before.
    fn leave(&mut self, place: usize) -> Option<()>
        requires { place < 8 }
    {
        self.flush()?;
        let lost = self.lost;
        self.lost = true;
        self.secure(place)?;
        self.lost = lost;
        self.kept[place] = None;
        Some(())
    }

    /// Makes durable what is kept at a place.
    fn secure(&mut self, place: usize) -> Option<()>
        requires { place < 8 }
    {
        make_durable(&mut self.kept[place])
    }

    /// Opens a file that is there; an inner none where it isn't.
    fn open(&mut self, file: DiskFile) -> Option<Option<F>> {
        let path = self.path.of(file)?;
        match fs::metadata(&self.rt, path) {
            Ok(found) if found.is_file() => {}
            Err(error) if error.kind() == ErrorKind::NotFound => return Some(None),
            _ => return None,
        }
        let opened = OpenOptions::new()
            .read(true)
            .write(true)
            .open(&self.rt, path)
            .ok()?;
        if !opened.metadata().ok()?.is_file() {
            return None;
        }
        if self.settled {
            opened.sync_all().ok()?;
        }
        Some(Some(opened))
    }

    /// Makes a file, and the folder, where they aren't there.
    fn make(&mut self, file: DiskFile) -> Option<()> {
        if self.kept[place_of(file)].is_some() {
            return Some(());
        }
        if !self.is_there()? {
            fs::create_dir(&self.rt, self.path.folder()).ok()?;
            self.parent_waits = true;
        }
        self.folder_waits = true;
        let made = OpenOptions::new()
            .read(true)
            .write(true)
            .create_new(true)
            .open(&self.rt, self.path.of(file)?)
            .ok()?;
        self.kept[place_of(file)] = Some(KeptFile {
            file,
            opened: Opened::new(made),
            waits: true,
        });
        Some(())
    }
}

/// Places for all files that are kept open, with none in them.
fn no_files<F: Drop>(alloc: Global) -> Result<Vec<Option<KeptFile<F>>>, Memory>
    ensures { IfOk result (λ kept. length kept.items ≡ 8) }
{
    let mut kept = Vec::with_capacity(alloc, KEPT)?;
    for _ in 0..KEPT {
        kept.push(None)?;
    }
    Ok(kept)
}

/// Where a file is kept: each slot at its own place, and the logs at the others in turn.
fn place_of(file: DiskFile) -> usize
    ensures { result < 8 }
{
    match file {
        DiskFile::SlotA => 0,
        DiskFile::SlotB => 1,
        DiskFile::Log(number) => 2 + (number % 6) as usize,
    }
}

/// Whether this file is what is kept.
fn is_kept<F>(kept: &Option<KeptFile<F>>, file: DiskFile) -> bool {
    match kept {
        Some(kept) => kept.file == file,
        None => false,
    }
}

/// Makes durable what is kept at a place, where that waits.
fn make_durable<F: FileExt + OpenFile + Drop>(kept: &mut Option<KeptFile<F>>) -> Option<()> {
    if let Some(kept) = kept {
        if kept.waits {
            kept.opened.sync()?;
            kept.waits = false;
        }
    }
    Some(())
}

/// Makes durable which names a folder has.
fn sync_folder<F: OpenFile + Drop, R: Files<File = F>>(rt: &R, path: &str) -> Option<()> {
    File::open(rt, path).ok()?.sync_all().ok()
}
