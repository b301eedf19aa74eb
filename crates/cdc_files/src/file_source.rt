//! A source over opened files.

ghost use Rattle.std.specs.Prelude.{◌≡◌, ◌≤◌, ◌<◌, ◌*◌, ◌/◌, ◌^◌, false, [], ◌∷◌, length, None, IfOk, IfSome};
ghost use Rattle.cdc_files.specs.Share.{shares, shares_fit};

use crate::counted::counted;
use crate::opened::{Opened, open_regular};
use cdc_base::{Memory, Place, Text};
use cdc_outside::{Failed, Source, highest_place, lowest_place};
use std::alloc::Global;
use std::fs::{Files, OpenFile};
use std::os::unix::fs::FileExt;

/// The most bytes that all files of a source have together.
const MOST_BYTES: u64 = 1 << 54;

/// Regular files, counted from 1, that are opened once and kept open. Each may have at most its share of 2^54
/// bytes: a longer one fails when its length is asked for. One that becomes shorter than it was seen fails too.
/// Where one of them couldn't be opened, each call fails.
#[derive(Drop)]
pub struct FileSource<F> {
    files: Vec<Option<Opened<F>>>,
    all_open: bool,
    lowest: Option<Place>,
    highest: Option<Place>,
    faults: u64,
    ghost few: { length files.items < 2 ^ 32 },
}

impl<F: FileExt + OpenFile + Drop> FileSource<F> {
    /// The files at these paths. Only regular files are opened.
    pub fn open<R: AllocGlobal + Files<File = F>>(
        rt: &R,
        paths: &[Text],
    ) -> Result<FileSource<F>, Memory>
        requires { length paths.now < 2 ^ 32 }
        ensures sizes { IfOk result (λ source. ⟦<FileSource<F> as Source>⟧.sizes source ≡ shares (length paths.now)) }
        ensures lowest { IfOk result (λ source. ⟦<FileSource<F> as Source>⟧.lowest source ≡ None) }
        ensures highest { IfOk result (λ source. ⟦<FileSource<F> as Source>⟧.highest source ≡ None) }
        ensures faults { IfOk result (λ source. ⟦<FileSource<F> as Source>⟧.faults source ≡ 0) }
    {
        let mut files = Vec::with_capacity(rt.alloc(), paths.len())?;
        for path in paths {
            files.push(open_regular(rt, path.as_str()).map(Opened::new))?;
        }
        Ok(FileSource::over(files))
    }

    /// These files, with none in the place of one that couldn't be opened.
    fn over(files: Vec<Option<Opened<F>>>) -> FileSource<F>
        requires { length files.items < 2 ^ 32 }
        ensures sizes { ⟦<FileSource<F> as Source>⟧.sizes result ≡ shares (length files.items) }
        ensures lowest { ⟦<FileSource<F> as Source>⟧.lowest result ≡ None }
        ensures highest { ⟦<FileSource<F> as Source>⟧.highest result ≡ None }
        ensures faults { ⟦<FileSource<F> as Source>⟧.faults result ≡ 0 }
    {
        let all_open = files.iter().all(|file| file.is_some());
        FileSource {
            files,
            all_open,
            lowest: None,
            highest: None,
            faults: 0,
        }
    }

    /// One file, or none where it couldn't be opened.
    pub fn single(alloc: Global, file: Option<F>) -> Result<FileSource<F>, Memory>
        ensures sizes { IfOk result (λ source. ⟦<FileSource<F> as Source>⟧.sizes source ≡ 2 ^ 54 ∷ []) }
        ensures lowest { IfOk result (λ source. ⟦<FileSource<F> as Source>⟧.lowest source ≡ None) }
        ensures highest { IfOk result (λ source. ⟦<FileSource<F> as Source>⟧.highest source ≡ None) }
        ensures faults { IfOk result (λ source. ⟦<FileSource<F> as Source>⟧.faults source ≡ 0) }
    {
        let mut files = Vec::new(alloc);
        files.push(file.map(Opened::new))?;
        Ok(FileSource::over(files))
    }

    /// How many calls failed.
    pub fn faults(&self) -> u64
        ensures { result ≡ ⟦<FileSource<F> as Source>⟧.faults self.now }
    {
        self.faults
    }

    /// How many files there are, where all could be opened.
    fn number(&self) -> Option<u32>
        ensures { IfSome result (λ number. number ≡ length self.now.files.items) }
    {
        if self.all_open {
            Some(self.files.len() as u32)
        } else {
            None
        }
    }

    /// How many bytes a file has, where that is within its share.
    fn measure(&mut self, file: u32) -> Option<u64>
        requires first { 1 ≤ file }
        requires last { file ≤ length self.old.files.items }
        ensures within { IfSome result (λ bytes. bytes ≤ 2 ^ 54 / length self.old.files.items) }
        ensures files { length self.new.files.items ≡ length self.old.files.items }
        ensures lowest { self.new.lowest ≡ self.old.lowest }
        ensures highest { self.new.highest ≡ self.old.highest }
        ensures faults { self.new.faults ≡ self.old.faults }
    {
        let share = MOST_BYTES / self.files.len() as u64;
        let bytes = length_of(&mut self.files[file as usize - 1])?;
        if self.all_open && bytes <= share {
            Some(bytes)
        } else {
            None
        }
    }

    /// Reads from a place on.
    fn read(&mut self, place: Place, into: &mut [u8]) -> Option<usize>
        requires first { 1 ≤ place.file }
        requires last { place.file ≤ length self.old.files.items }
        ensures within { IfSome result (λ read. read ≤ length into.old) }
        ensures files { length self.new.files.items ≡ length self.old.files.items }
        ensures lowest { self.new.lowest ≡ self.old.lowest }
        ensures highest { self.new.highest ≡ self.old.highest }
        ensures faults { self.new.faults ≡ self.old.faults }
    {
        if !self.all_open {
            return None;
        }
        read_of(&mut self.files[place.file as usize - 1], place.at, into)
    }
}

/// How many bytes a file has.
fn length_of<F: FileExt + OpenFile + Drop>(file: &mut Option<Opened<F>>) -> Option<u64> {
    file.as_mut()?.length()
}

/// Reads of a file from the byte `at` on.
fn read_of<F: FileExt + OpenFile + Drop>(
    file: &mut Option<Opened<F>>,
    at: u64,
    into: &mut [u8],
) -> Option<usize>
    ensures { IfSome result (λ read. read ≤ length into.old) }
{
    file.as_mut()?.read(at, into)
}

impl<F: FileExt + OpenFile + Drop> Source for FileSource<F> {
    ghost tells = { false };

    ghost held = { λ _. [] };

    ghost sizes = { λ source. shares (length source.files.items) };

    ghost lowest = { λ source. source.lowest };

    ghost highest = { λ source. source.highest };

    ghost faults = { λ source. source.faults };

    ghost limit = { λ source. shares_fit (length source.files.items) };

    ghost sizes_are_lengths = { λ source told. Prim.cc };

    fn files(&mut self) -> Result<u32, Failed> {
        counted(self.number(), &mut self.faults)
    }

    fn length(&mut self, file: u32) -> Result<u64, Failed> {
        let bytes = self.measure(file);
        counted(bytes, &mut self.faults)
    }

    fn read_at(&mut self, file: u32, at: u64, into: &mut [u8]) -> Result<usize, Failed> {
        self.lowest = lowest_place(self.lowest, file, at);
        self.highest = highest_place(self.highest, file, at, into.len());
        let read = self.read(Place { file, at }, into);
        counted(read, &mut self.faults)
    }
}
