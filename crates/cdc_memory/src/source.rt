//! Sources in memory.

ghost use Rattle.std.specs.Prelude.{◌≡◌, ◌≤◌, ◌<◌, ◌-◌, ◌^◌, false, true, refl, length, map, min, sum, None, IfOk, IsOk};
ghost use Rattle.cdc_outside.specs.Count.{RisesOnErr};
ghost use Rattle.cdc_outside.specs.Source.{behind, file_of, lowered, raised, ReadsFile};
ghost use Rattle.cdc_memory.specs.Calls.{at_first, Counts};

use crate::calls::CallPlan;
use crate::files::MemFiles;
use cdc_base::{Blob, Memory, Place};
use cdc_outside::{Failed, Source};
use std::alloc::Global;

/// Files in memory, whose listed calls fail.
#[derive(Debug, Drop)]
pub struct MemSource {
    files: MemFiles,
    calls: CallPlan,
}

impl MemSource {
    ghost use Rattle.cdc_memory.specs.Source.{held_files, lowest_of, highest_of, calls_of};

    /// These files, their bytes shared. The k-th call (from 1, of any kind) fails for each k of `fails`, and no
    /// other does.
    pub fn new(alloc: Global, files: &[Blob], fails: &[u64]) -> Result<MemSource, Memory>
        requires few { length files.now < 2 ^ 32 }
        requires fit { sum (map length files.now) ≤ 2 ^ 54 }
        ensures files { IfOk result (λ source. held_files source ≡ files.now) }
        ensures lowest { IfOk result (λ source. lowest_of source ≡ None) }
        ensures highest { IfOk result (λ source. highest_of source ≡ None) }
        ensures calls { IfOk result (λ source. calls_of source ≡ at_first fails.now) }
    {
        Ok(MemSource {
            files: MemFiles::new(alloc, files)?,
            calls: CallPlan::new(alloc, fails)?,
        })
    }

    /// How many calls failed.
    pub fn faults(&self) -> u64
        ensures { result ≡ (calls_of self.now).faults }
    {
        self.calls.faults()
    }

    /// The least place that `read_at` was asked for.
    pub fn lowest(&self) -> Option<Place>
        ensures { result ≡ lowest_of self.now }
    {
        self.files.lowest()
    }
}

impl Source for MemSource {
    ghost use Rattle.cdc_memory.specs.Source.{held_files, lowest_of, highest_of, calls_of};

    ghost tells = { true };

    ghost held = { held_files };

    ghost sizes = { λ source. map length (held_files source) };

    ghost lowest = { lowest_of };

    ghost highest = { highest_of };

    ghost faults = { λ source. (calls_of source).faults };

    ghost limit = { λ source. source.files.fit };

    ghost sizes_are_lengths = { λ source told. refl };

    fn files(&mut self) -> Result<u32, Failed>
        ensures number { IfOk result (λ number. number ≡ length (held_files self.old)) }
        ensures held { held_files self.new ≡ held_files self.old }
        ensures lowest { lowest_of self.new ≡ lowest_of self.old }
        ensures highest { highest_of self.new ≡ highest_of self.old }
        ensures faults { RisesOnErr (calls_of self.old).faults (calls_of self.new).faults result }
        ensures call { Counts false (calls_of self.old) (calls_of self.new) result }
    {
        self.calls.count(false)?;
        Ok(self.files.number())
    }

    fn length(&mut self, file: u32) -> Result<u64, Failed>
        requires first { 1 ≤ file }
        requires last { file ≤ length (held_files self.old) }
        ensures exact { IfOk result (λ bytes. bytes ≡ length (file_of (held_files self.old) file)) }
        ensures held { held_files self.new ≡ held_files self.old }
        ensures lowest { lowest_of self.new ≡ lowest_of self.old }
        ensures highest { highest_of self.new ≡ highest_of self.old }
        ensures faults { RisesOnErr (calls_of self.old).faults (calls_of self.new).faults result }
        ensures call { Counts false (calls_of self.old) (calls_of self.new) result }
    {
        self.calls.count(false)?;
        Ok(self.files.length(file))
    }

    fn read_at(&mut self, file: u32, at: u64, into: &mut [u8]) -> Result<usize, Failed>
        requires first { 1 ≤ file }
        requires last { file ≤ length (held_files self.old) }
        ensures read { IfOk result (λ read. ReadsFile (file_of (held_files self.old) file) at into.new read) }
        ensures full { IfOk result (λ read. read ≡ min (length into.old) (length (file_of (held_files self.old) file) - at)) }
        ensures held { held_files self.new ≡ held_files self.old }
        ensures lowest { lowest_of self.new ≡ lowered (lowest_of self.old) file at }
        ensures highest { highest_of self.new ≡ raised (highest_of self.old) file (behind at (length into.old)) }
        ensures faults { RisesOnErr (calls_of self.old).faults (calls_of self.new).faults result }
        ensures call { Counts false (calls_of self.old) (calls_of self.new) result }
    {
        self.files.ask(file, at, into.len());
        self.calls.count(false)?;
        Ok(self.files.read(file, at, into))
    }
}

/// Files in memory, whose calls never fail.
#[derive(Debug, Drop)]
pub struct PureSource {
    files: MemFiles,
}

impl PureSource {
    ghost use Rattle.cdc_memory.specs.Source.{pure_held_files, pure_lowest_of, pure_highest_of};

    /// These files, their bytes shared.
    pub fn new(alloc: Global, files: &[Blob]) -> Result<PureSource, Memory>
        requires few { length files.now < 2 ^ 32 }
        requires fit { sum (map length files.now) ≤ 2 ^ 54 }
        ensures files { IfOk result (λ source. pure_held_files source ≡ files.now) }
        ensures lowest { IfOk result (λ source. pure_lowest_of source ≡ None) }
        ensures highest { IfOk result (λ source. pure_highest_of source ≡ None) }
    {
        Ok(PureSource {
            files: MemFiles::new(alloc, files)?,
        })
    }

    /// The least place that `read_at` was asked for.
    pub fn lowest(&self) -> Option<Place>
        ensures { result ≡ pure_lowest_of self.now }
    {
        self.files.lowest()
    }
}

impl Source for PureSource {
    ghost use Rattle.cdc_memory.specs.Source.{pure_held_files, pure_lowest_of, pure_highest_of};

    ghost tells = { true };

    ghost held = { pure_held_files };

    ghost sizes = { λ source. map length (pure_held_files source) };

    ghost lowest = { pure_lowest_of };

    ghost highest = { pure_highest_of };

    ghost faults = { λ _. 0 };

    ghost limit = { λ source. source.files.fit };

    ghost sizes_are_lengths = { λ source told. refl };

    fn files(&mut self) -> Result<u32, Failed>
        ensures ok { IsOk result }
        ensures number { IfOk result (λ number. number ≡ length (pure_held_files self.old)) }
        ensures held { pure_held_files self.new ≡ pure_held_files self.old }
        ensures lowest { pure_lowest_of self.new ≡ pure_lowest_of self.old }
        ensures highest { pure_highest_of self.new ≡ pure_highest_of self.old }
    {
        Ok(self.files.number())
    }

    fn length(&mut self, file: u32) -> Result<u64, Failed>
        requires first { 1 ≤ file }
        requires last { file ≤ length (pure_held_files self.old) }
        ensures ok { IsOk result }
        ensures exact { IfOk result (λ bytes. bytes ≡ length (file_of (pure_held_files self.old) file)) }
        ensures held { pure_held_files self.new ≡ pure_held_files self.old }
        ensures lowest { pure_lowest_of self.new ≡ pure_lowest_of self.old }
        ensures highest { pure_highest_of self.new ≡ pure_highest_of self.old }
    {
        Ok(self.files.length(file))
    }

    fn read_at(&mut self, file: u32, at: u64, into: &mut [u8]) -> Result<usize, Failed>
        requires first { 1 ≤ file }
        requires last { file ≤ length (pure_held_files self.old) }
        ensures ok { IsOk result }
        ensures read { IfOk result (λ read. ReadsFile (file_of (pure_held_files self.old) file) at into.new read) }
        ensures full { IfOk result (λ read. read ≡ min (length into.old) (length (file_of (pure_held_files self.old) file) - at)) }
        ensures held { pure_held_files self.new ≡ pure_held_files self.old }
        ensures lowest { pure_lowest_of self.new ≡ lowered (pure_lowest_of self.old) file at }
        ensures highest { pure_highest_of self.new ≡ raised (pure_highest_of self.old) file (behind at (length into.old)) }
    {
        self.files.ask(file, at, into.len());
        Ok(self.files.read(file, at, into))
    }
}
