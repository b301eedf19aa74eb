//! A node's log, read on from its source piece by piece.

ghost use Rattle.std.specs.Prelude.{◌≡◌, ◌<◌, ◌≤◌, ◌+◌, ◌-◌, ◌^◌, ℕ, false, List, [], IsTrue, length, IfOk, OnOk, OnErr, IsErrOf, MatchResult};
ghost use Rattle.cdc_outside.specs.Count.{Rose};
ghost use Rattle.cdc_outside.specs.Source.{file_of, lowered};
ghost use Rattle.cdc_cutter.specs.Cutting.{IsGoingOn};
ghost use Rattle.cdc_model.specs.Records.{LogEntry};
ghost use Rattle.cdc_model.specs.Restart.{RestartPoint};
ghost use Rattle.cdc_reader.specs.Asking.{IsFromOn, NothingBelow, bytes_up_to};
ghost use Rattle.cdc_reader.specs.LogFront.{IsReadUpTo, IsTakenTo};
ghost use Rattle.cdc_reader.specs.Fed.{Follows, IsPassedEvent};
ghost use Rattle.cdc_reader.specs.declared.follower.Found.TheVariants.{Need as NeedsMore};
ghost use Rattle.cdc_reader.specs.declared.log.Stopped.TheVariants.{Failed as SourceFailed, Memory as NoMemory};

use crate::follower::{Follower, Found};
use cdc_base::{Memory, Place};
use cdc_event::file_is_read_in_one_way;
use cdc_outside::{Failed, Source};
use std::alloc::Global;

/// The most bytes that one read asks for.
const PIECE: u64 = 65_536;

/// Why no bytes were had.
#[derive(Clone, Copy, Debug, PartialEq, Eq)]
pub enum Stopped {
    /// The source failed.
    Failed,
    /// There was no memory for them.
    Memory,
}

impl From<Failed> for Stopped {
    ghost from_gives = { λ _ error. error ≡ SourceFailed };

    fn from(_failed: Failed) -> Stopped {
        Stopped::Failed
    }
}

impl From<Memory> for Stopped {
    ghost from_gives = { λ _ error. error ≡ NoMemory };

    fn from(_memory: Memory) -> Stopped {
        Stopped::Memory
    }
}

/// How far a log was read: up to a place, and what follows its bytes. `size` is the length that was told for the
/// place's file, where it was asked for (`opened`).
#[derive(Debug, Drop)]
pub struct LogReader {
    pub follower: Follower,
    pub place: Place,
    pub opened: bool,
    pub size: u64,
    ghost in_file: { follower.cutter.file ≡ place.file },
    ghost fed: { follower.cutter.at + length follower.cutter.rest ≤ place.at },
    ghost counted: { place.at < 2 ^ 63 },
    ghost sized: { size ≤ 2 ^ 54 },
}

impl LogReader {
    ghost use Rattle.cdc_reader.specs.Filling.{IsLogSized, FindsInLog, FillsLog};

    /// At a place of a log, under the checksum setting there.
    pub fn resumed(alloc: Global, place: Place, checksum: u8) -> Result<LogReader, Memory>
        requires setting { checksum ≤ 1 }
        requires counted { place.at < 2 ^ 63 }
        ensures follows { IfOk result (λ log. Follows log.follower place.file place.at checksum [] []) }
        ensures place { IfOk result (λ log. (log.place ≡ place) × (log.opened ≡ false)) }
    {
        Ok(LogReader {
            follower: Follower::resumed(alloc, place, checksum)?,
            place,
            opened: false,
            size: 0,
        })
    }

    /// Finds what is next in the bytes so far. On `Memory` nothing has changed.
    pub fn next(&mut self) -> Result<Found, Memory>
        ensures finds { IfOk result (λ found. (point : RestartPoint) (files : List (List ℕ)) (taken : List LogEntry) → IsReadUpTo point files self.old.follower self.old.place taken → FindsInLog point files self.new.follower self.new.place taken found) }
        ensures shorter { IfOk result (λ found. IsPassedEvent found → length self.new.follower.cutter.rest < length self.old.follower.cutter.rest) }
        ensures no_longer { length self.new.follower.cutter.rest ≤ length self.old.follower.cutter.rest }
        ensures going { IfOk result (λ found. found ≡ NeedsMore → IsGoingOn self.new.follower.cutter.state) }
        ensures place { (self.new.place ≡ self.old.place) × (self.new.opened ≡ self.old.opened) × (self.new.size ≡ self.old.size) }
        ensures err { OnErr result (self.new ≡ self.old) }
    {
        self.follower.next()
    }

    // Asks for the length of the file, once.
    fn open<S: Source>(&mut self, source: &mut S) -> Result<(), Stopped>
        requires first { 1 ≤ self.old.place.file }
        requires last { self.old.place.file ≤ length (S.sizes source.old) }
        ensures follower { self.new.follower ≡ self.old.follower }
        ensures place { self.new.place ≡ self.old.place }
        ensures sized { IsTrue S.tells → IsLogSized (S.held source.old) self.old → IsLogSized (S.held source.old) self.new }
        ensures opened { OnOk result (IsTrue self.new.opened) }
        ensures failed { IsErrOf result Stopped.Failed → Rose (S.faults source.old) (S.faults source.new) }
        ensures later { S.faults source.old ≤ S.faults source.new }
        ensures held { S.held source.new ≡ S.held source.old }
        ensures sizes { S.sizes source.new ≡ S.sizes source.old }
        ensures lowest { S.lowest source.new ≡ S.lowest source.old }
        ensures highest { S.highest source.new ≡ S.highest source.old }
    {
        if self.opened {
            return Ok(());
        }
        self.size = source.length(self.place.file)?;
        self.opened = true;
        Ok(())
    }

    // Reads the next piece of the file, where it has one: how many bytes were read.
    fn read_piece<S: Source>(&mut self, source: &mut S, piece: &mut [u8]) -> Result<usize, Stopped>
        requires first { 1 ≤ self.old.place.file }
        requires last { self.old.place.file ≤ length (S.sizes source.old) }
        requires room { 0 < length piece.old }
        requires left { self.old.place.at < self.old.size }
        ensures lowest { S.lowest source.new ≡ lowered (S.lowest source.old) self.old.place.file self.old.place.at }
        ensures place { IfOk result (λ read. self.new.place ≡ record { file = self.old.place.file; at = self.old.place.at + read }) }
        ensures within { IfOk result (λ read. read ≤ length piece.old) }
        ensures same { (self.new.opened ≡ self.old.opened) × (self.new.size ≡ self.old.size) }
        ensures none { IfOk result (λ read. read ≡ 0 → self.new ≡ self.old) }
        ensures ends { IsTrue S.tells → IfOk result (λ read. read ≡ 0 → length (file_of (S.held source.old) self.old.place.file) ≤ self.old.place.at) }
        ensures reads { IsTrue S.tells → OnOk result ((point : RestartPoint) (taken : List LogEntry) → IsReadUpTo point (S.held source.old) self.old.follower self.old.place taken → IsReadUpTo point (S.held source.old) self.new.follower self.new.place taken) }
        ensures err { OnErr result (self.new ≡ self.old) }
        ensures failed { IsErrOf result Stopped.Failed → Rose (S.faults source.old) (S.faults source.new) }
        ensures later { S.faults source.old ≤ S.faults source.new }
        ensures held { S.held source.new ≡ S.held source.old }
        ensures sizes { S.sizes source.new ≡ S.sizes source.old }
    {
        let left = self.size - self.place.at;
        let asked = left.min(PIECE).min(piece.len() as u64) as usize;
        let read = source.read_at(self.place.file, self.place.at, &mut piece[..asked])?;
        if read == 0 {
            return Ok(0);
        }
        self.follower.feed(&piece[..read])?;
        self.place.at += read as u64;
        Ok(read)
    }

    // Goes to the start of the next file.
    fn next_file(&mut self)
        requires counted { self.old.place.file < 2 ^ 32 - 1 }
        requires going { IsGoingOn self.old.follower.cutter.state }
        ensures place { self.new.place ≡ record { file = self.old.place.file + 1; at = 0 } }
        ensures opened { self.new.opened ≡ false }
        ensures going { IsGoingOn self.new.follower.cutter.state }
        ensures taken { (point : RestartPoint) (files : List (List ℕ)) (taken : List LogEntry) → self.old.place.file ≤ length files → length (file_of files self.old.place.file) ≤ self.old.place.at → IsTakenTo point files self.old.follower self.old.place taken → IsTakenTo point files self.new.follower self.new.place taken }
    {
        file_is_read_in_one_way();
        self.follower.next_file();
        self.place = Place {
            file: self.place.file + 1,
            at: 0,
        };
        self.opened = false;
        self.size = 0;
    }

    // Reads on in the file: how many bytes were read, none at its end.
    fn read_on<S: Source>(&mut self, source: &mut S, piece: &mut [u8]) -> Result<usize, Stopped>
        requires first { 1 ≤ self.old.place.file }
        requires last { self.old.place.file ≤ length (S.sizes source.old) }
        requires room { 0 < length piece.old }
        ensures place { IfOk result (λ read. self.new.place ≡ record { file = self.old.place.file; at = self.old.place.at + read }) }
        ensures within { IfOk result (λ read. read ≤ length piece.old) }
        ensures none { IfOk result (λ read. read ≡ 0 → self.new.follower ≡ self.old.follower) }
        ensures below { NothingBelow self.old.place (S.lowest source.old) (S.lowest source.new) }
        ensures sized { IsTrue S.tells → IsLogSized (S.held source.old) self.old → IsLogSized (S.held source.old) self.new }
        ensures ends { IsTrue S.tells → IsLogSized (S.held source.old) self.old → IfOk result (λ read. read ≡ 0 → length (file_of (S.held source.old) self.old.place.file) ≤ self.old.place.at) }
        ensures reads { IsTrue S.tells → OnOk result ((point : RestartPoint) (taken : List LogEntry) → IsReadUpTo point (S.held source.old) self.old.follower self.old.place taken → IsReadUpTo point (S.held source.old) self.new.follower self.new.place taken) }
        ensures err { OnErr result ((self.new.follower ≡ self.old.follower) × (self.new.place ≡ self.old.place)) }
        ensures failed { IsErrOf result Stopped.Failed → Rose (S.faults source.old) (S.faults source.new) }
        ensures later { S.faults source.old ≤ S.faults source.new }
        ensures held { S.held source.new ≡ S.held source.old }
        ensures sizes { S.sizes source.new ≡ S.sizes source.old }
    {
        self.open(source)?;
        if self.size <= self.place.at {
            return Ok(0);
        }
        self.read_piece(source, piece)
    }

    /// Reads the next bytes of the log, where all events of those so far were taken: how many bytes were read, none at
    /// the log's end.
    pub fn fill<S: Source>(&mut self, source: &mut S, piece: &mut [u8]) -> Result<usize, Stopped>
        requires first { 1 ≤ self.old.place.file }
        requires room { 0 < length piece.old }
        requires going { IsGoingOn self.old.follower.cutter.state }
        ensures fills { IsTrue S.tells → (point : RestartPoint) (taken : List LogEntry) → IsTakenTo point (S.held source.old) self.old.follower self.old.place taken → IsLogSized (S.held source.old) self.old → FillsLog point (S.held source.old) self.new taken result }
        ensures first { 1 ≤ self.new.place.file }
        // Nothing below the place so far is asked for, and the place doesn't go back.
        ensures below { NothingBelow self.old.place (S.lowest source.old) (S.lowest source.new) }
        ensures onward { IsFromOn self.old.place self.new.place }
        ensures bytes { IsTrue S.tells → IsLogSized (S.held source.old) self.old → MatchResult result
            (λ read. bytes_up_to (S.held source.old) self.new.place ≤ bytes_up_to (S.held source.old) self.old.place + read)
            (λ _. bytes_up_to (S.held source.old) self.new.place ≤ bytes_up_to (S.held source.old) self.old.place) }
        ensures within { IfOk result (λ read. read ≤ length piece.old) }
        ensures failed { IsErrOf result Stopped.Failed → Rose (S.faults source.old) (S.faults source.new) }
        ensures later { S.faults source.old ≤ S.faults source.new }
        ensures held { S.held source.new ≡ S.held source.old }
        ensures sizes { S.sizes source.new ≡ S.sizes source.old }
    {
        file_is_read_in_one_way();
        let files = match source.files() {
            Ok(files) => files,
            Err(Failed) => return Err(Stopped::Failed),
        };
        if files < self.place.file {
            return Ok(0);
        }
        'files: for file in self.place.file..files {
            match self.read_on(source, piece) {
                Err(stopped) => return Err(stopped),
                Ok(read) => {
                    if read > 0 {
                        return Ok(read);
                    }
                }
            }
            self.next_file();
        }
        self.read_on(source, piece)
    }
}
