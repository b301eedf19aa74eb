//! A source that reads one file once.

ghost use Rattle.std.specs.Prelude.{◌≡◌, ◌≤◌, ◌<◌, ◌-◌, ◌^◌, ◌↔◌, [], ◌∷◌, IsTrue, true, false, refl, length, map, min, sum, take, None, IfOk, IfSome, IsNone, IsErr};
ghost use Rattle.cdc_outside.specs.Count.{RisesOnErr};
ghost use Rattle.cdc_outside.specs.Source.{behind, file_of, lowered, raised, ReadsFile};

use crate::counted::counted;
use crate::opened::open_regular;
use cdc_base::{Memory, Place, Text};
use cdc_outside::{Failed, Source, highest_place, lowest_place};
use std::alloc::Global;
use std::fs::{Files, OpenFile};
use std::io::{ErrorKind, Read};

/// The most bytes that are kept: one more than the longest configuration has.
pub const HELD_MOST: u64 = 1_048_577;

/// The bytes of one file, of which the first 1,048,577 are kept, or that it couldn't be read. The file is read once,
/// when the source is made; where that failed, each call fails.
#[derive(Debug, Drop)]
pub struct HeldSource {
    bytes: Vec<u8>,
    fails: bool,
    lowest: Option<Place>,
    highest: Option<Place>,
    faults: u64,
    ghost short: { length bytes.items ≤ 1048577 },
    ghost fit: { sum (length bytes.items ∷ []) ≤ 2 ^ 54 },
}

impl HeldSource {
    ghost use Rattle.cdc_files.specs.Held.{bytes_kept, keeps_failure, held_lowest, held_highest, held_faults};

    /// What stands at this path, read now; a failure where that is no regular file, or can't be read.
    pub fn open<F: Read + OpenFile + Drop, R: AllocGlobal + Files<File = F>>(
        rt: &R,
        path: &Text,
    ) -> Result<HeldSource, Memory>
        ensures lowest { IfOk result (λ source. held_lowest source ≡ None) }
        ensures highest { IfOk result (λ source. held_highest source ≡ None) }
        ensures faults { IfOk result (λ source. held_faults source ≡ 0) }
        ensures short { IfOk result (λ source. length (bytes_kept source) ≤ HELD_MOST) }
    {
        HeldSource::new(rt.alloc(), open_regular(rt, path.as_str()))
    }

    /// What this reader has, read now; a failure in its place where there is none.
    pub fn new<F: Read + Drop>(alloc: Global, file: Option<F>) -> Result<HeldSource, Memory>
        ensures none { IsNone file → IfOk result (λ source. IsTrue (keeps_failure source)) }
        // Where it is known what the reader has, that is kept, up to the limit.
        ensures whole { IfSome file (λ reader. IfSome (F.remaining reader) (λ bytes. IfOk result (λ source. keeps_failure source ≡ false → bytes_kept source ≡ take HELD_MOST bytes))) }
        ensures lowest { IfOk result (λ source. held_lowest source ≡ None) }
        ensures highest { IfOk result (λ source. held_highest source ≡ None) }
        ensures faults { IfOk result (λ source. held_faults source ≡ 0) }
        ensures short { IfOk result (λ source. length (bytes_kept source) ≤ HELD_MOST) }
    {
        match file {
            None => Ok(HeldSource::kept(Vec::new(alloc), true)),
            Some(reader) => HeldSource::read(alloc, reader),
        }
    }

    fn read<F: Read + Drop>(alloc: Global, reader: F) -> Result<HeldSource, Memory>
        ensures whole { IfSome (F.remaining reader) (λ bytes. IfOk result (λ source. keeps_failure source ≡ false → bytes_kept source ≡ take HELD_MOST bytes)) }
        ensures lowest { IfOk result (λ source. held_lowest source ≡ None) }
        ensures highest { IfOk result (λ source. held_highest source ≡ None) }
        ensures faults { IfOk result (λ source. held_faults source ≡ 0) }
        ensures short { IfOk result (λ source. length (bytes_kept source) ≤ HELD_MOST) }
    {
        let mut bytes = Vec::new(alloc);
        match reader.take(HELD_MOST).read_to_end(&mut bytes) {
            Ok(_) => Ok(HeldSource::kept(bytes, false)),
            Err(error) if error.kind() == ErrorKind::OutOfMemory => Err(Memory),
            Err(_) => Ok(HeldSource::kept(bytes, true)),
        }
    }

    /// These bytes up to the limit, or a failure, before any call.
    fn kept(mut bytes: Vec<u8>, fails: bool) -> HeldSource
        ensures bytes { bytes_kept result ≡ take HELD_MOST bytes.items }
        ensures fails { keeps_failure result ≡ fails }
        ensures lowest { held_lowest result ≡ None }
        ensures highest { held_highest result ≡ None }
        ensures faults { held_faults result ≡ 0 }
        ensures short { length (bytes_kept result) ≤ HELD_MOST }
    {
        bytes.truncate(HELD_MOST as usize);
        HeldSource {
            bytes,
            fails,
            lowest: None,
            highest: None,
            faults: 0,
        }
    }

    /// The bytes that are kept, also where each call fails.
    pub fn bytes(&self) -> &[u8]
        ensures { result.now ≡ bytes_kept self.now }
    {
        self.bytes.as_slice()
    }

    /// How many calls failed.
    pub fn faults(&self) -> u64
        ensures { result ≡ held_faults self.now }
    {
        self.faults
    }

    /// What a call answers where the file could be read.
    fn answer<T: Drop>(&mut self, value: T) -> Result<T, Failed>
        ensures ok { IfOk result (λ answer. answer ≡ value) }
        ensures bytes { self.new.bytes ≡ self.old.bytes }
        ensures fails { self.new.fails ≡ self.old.fails }
        ensures lowest { self.new.lowest ≡ self.old.lowest }
        ensures highest { self.new.highest ≡ self.old.highest }
        ensures faults { RisesOnErr (held_faults self.old) (held_faults self.new) result }
        ensures call { IsErr result ↔ IsTrue (keeps_failure self.old) }
    {
        let answer = if self.fails { None } else { Some(value) };
        counted(answer, &mut self.faults)
    }

    /// Puts as many bytes at the front of `into` as it takes and are kept behind `at`.
    fn copy(&self, at: u64, into: &mut [u8]) -> usize
        ensures read { ReadsFile (bytes_kept self.now) at into.new result }
        ensures full { result ≡ min (length into.old) (length (bytes_kept self.now) - at) }
    {
        let bytes = self.bytes.as_slice();
        let start = at.min(bytes.len() as u64) as usize;
        let read = into.len().min(bytes.len() - start);
        into[..read].copy_from_slice(&bytes[start..start + read]);
        read
    }
}

impl Source for HeldSource {
    ghost use Rattle.cdc_files.specs.Held.{keeps_failure, one_held_file, held_lowest, held_highest, held_faults};

    ghost tells = { true };

    ghost held = { one_held_file };

    ghost sizes = { λ source. map length (one_held_file source) };

    ghost lowest = { held_lowest };

    ghost highest = { held_highest };

    ghost faults = { held_faults };

    ghost limit = { λ source. source.fit };

    ghost sizes_are_lengths = { λ source told. refl };

    fn files(&mut self) -> Result<u32, Failed>
        ensures number { IfOk result (λ number. number ≡ 1) }
        ensures held { one_held_file self.new ≡ one_held_file self.old }
        ensures kept { keeps_failure self.new ≡ keeps_failure self.old }
        ensures lowest { held_lowest self.new ≡ held_lowest self.old }
        ensures highest { held_highest self.new ≡ held_highest self.old }
        ensures faults { RisesOnErr (held_faults self.old) (held_faults self.new) result }
        ensures call { IsErr result ↔ IsTrue (keeps_failure self.old) }
    {
        self.answer(1)
    }

    fn length(&mut self, file: u32) -> Result<u64, Failed>
        requires first { 1 ≤ file }
        requires last { file ≤ 1 }
        ensures exact { IfOk result (λ bytes. bytes ≡ length (file_of (one_held_file self.old) file)) }
        ensures held { one_held_file self.new ≡ one_held_file self.old }
        ensures kept { keeps_failure self.new ≡ keeps_failure self.old }
        ensures lowest { held_lowest self.new ≡ held_lowest self.old }
        ensures highest { held_highest self.new ≡ held_highest self.old }
        ensures faults { RisesOnErr (held_faults self.old) (held_faults self.new) result }
        ensures call { IsErr result ↔ IsTrue (keeps_failure self.old) }
    {
        let bytes = self.bytes.len() as u64;
        self.answer(bytes)
    }

    fn read_at(&mut self, file: u32, at: u64, into: &mut [u8]) -> Result<usize, Failed>
        requires first { 1 ≤ file }
        requires last { file ≤ 1 }
        ensures read { IfOk result (λ read. ReadsFile (file_of (one_held_file self.old) file) at into.new read) }
        ensures full { IfOk result (λ read. read ≡ min (length into.old) (length (file_of (one_held_file self.old) file) - at)) }
        ensures held { one_held_file self.new ≡ one_held_file self.old }
        ensures kept { keeps_failure self.new ≡ keeps_failure self.old }
        // Also where it failed.
        ensures lowest { held_lowest self.new ≡ lowered (held_lowest self.old) file at }
        ensures highest { held_highest self.new ≡ raised (held_highest self.old) file (behind at (length into.old)) }
        ensures faults { RisesOnErr (held_faults self.old) (held_faults self.new) result }
        ensures call { IsErr result ↔ IsTrue (keeps_failure self.old) }
    {
        self.lowest = lowest_place(self.lowest, file, at);
        self.highest = highest_place(self.highest, file, at, into.len());
        let read = self.copy(at, into);
        self.answer(read)
    }
}
