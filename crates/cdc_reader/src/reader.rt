//! The reader.

ghost use Rattle.std.specs.Prelude.{◌≡◌, ◌<◌, ◌≤◌, ◌+◌, ◌^◌, ◌⊎◌, ◌∷◌, ◌++◌, if◌then◌else◌, ℕ, Bool, List, [], Some, None, IsTrue, length, map, IfOk, IfSome, IfNone, MatchOption};
ghost use Rattle.std.specs.Ordering.{is_gt};
ghost use Rattle.cdc_base.specs.Key.{key_order, first_key as specs_first_key};
ghost use Rattle.cdc_outside.specs.Count.{Rose};
ghost use Rattle.cdc_cutter.specs.Cutting.{IsGoingOn};
ghost use Rattle.cdc_model.specs.Feed.{NodeFeed};
ghost use Rattle.cdc_model.specs.NodeReading.{no_feed};
ghost use Rattle.cdc_model.specs.Records.{LogEntry};
ghost use Rattle.cdc_model.specs.Openings.{AscendByXid};
ghost use Rattle.cdc_model.specs.Commits.{IsStart};
ghost use Rattle.cdc_model.specs.ReadFrom.{first_place};
ghost use Rattle.cdc_model.specs.Restart.{first_point, held_open, start_at, IsAtMost, IsLatestPoint};
ghost use Rattle.cdc_sorter.specs.Sorting.{SortReading};
ghost use Rattle.cdc_reader.specs.Asking.{IsFromOn, NothingBelow, bytes_in, bytes_up_to};
ghost use Rattle.cdc_reader.specs.Filling.{IsLogSized};
ghost use Rattle.cdc_reader.specs.LogFront.{IsTakenTo};
ghost use Rattle.cdc_reader.specs.Standing.{IsFeeding, AllGiven, IsReading, is_going, IsGiving, IsOfLog, IsOfEvents, Settles, RefusesEntry, IsEntryFound, end_of_refusal, end_of_stop, AdvancesTo, Advances, WantsBytes, StepsTo};
ghost use Rattle.cdc_reader.specs.declared.step.NodeEnd.TheVariants.{Open as GoesOn, Read as SourceFailed};
ghost use Rattle.cdc_reader.specs.declared.step.Step.{Step};
ghost use Rattle.cdc_reader.specs.declared.step.Step.TheVariants.{Read as BytesRead, Bound as TellsBound};
ghost use Rattle.cdc_reader.specs.declared.step.Advance.TheVariants.{NeedsBytes, Gives as GivesStep};

use crate::follower::Found;
use crate::log::{LogReader, Stopped};
use crate::step::{Advance, NodeEnd, Step};
use cdc_base::{Key, Memory, Place};
use cdc_model::{Entry, NodeCut, NodeFault, feed_begins, feed_gives, feed_reads_on, feed_tells};
use cdc_outside::Source;
use cdc_sorter::{SortError, Sorter, gave_is_a_front};
use std::alloc::Global;
use std::marker::Model;

/// No log has as many entries.
const MOST_ENTRIES: u64 = 1 << 62;

// How a reading ends where an entry at this place is refused.
fn end_of_refusal(at: Place, error: SortError) -> NodeEnd
    ensures { result ≡ end_of_refusal at error }
{
    match error {
        SortError::Fault(fault) => NodeEnd::Fault {
            place: at,
            fault: NodeFault::Sort(fault),
        },
        SortError::Memory => NodeEnd::Memory,
    }
}

// How a reading ends where no bytes are had.
fn end_of_stop(stopped: Stopped) -> NodeEnd
    ensures { result ≡ end_of_stop stopped }
{
    match stopped {
        Stopped::Failed => NodeEnd::Read,
        Stopped::Memory => NodeEnd::Memory,
    }
}

/// Reads one node's log from its source.
///
/// Contracts see it as what it keeps. What it promises is said over all that it may have taken and given, by
/// `IsReading`.
#[derive(Debug, Drop)]
pub struct Reader {
    log: LogReader,
    sorter: Sorter,
    entries: u64,
    told: u64,
    end: NodeEnd,
}

impl Model for Reader {
    ghost use Rattle.cdc_reader.specs.Standing.{ReaderState};

    ghost Value = { ReaderState };

    ghost use Rattle.cdc_reader.specs.Seen.{reader_seen, IsKeptReader};

    ghost view = { reader_seen };

    ghost invariant = { IsKeptReader };
}

impl Reader {
    /// At the start of a node's log; all branches are given.
    pub fn new(alloc: Global, node: u32) -> Result<Reader, Memory>
        requires first { 1 ≤ node }
        requires last { node ≤ 256 }
        ensures reads { IfOk result (λ reader. (tells : Bool) (files : List (List ℕ)) → IsReading tells files reader (record { last = specs_first_key; from = first_point; node = node }) [] no_feed) }
        ensures goes_on { IfOk result (λ reader. reader.end ≡ GoesOn) }
        ensures place { IfOk result (λ reader. reader.log.place ≡ first_place) }
        ensures known { IfOk result (λ reader. reader.sorter.trail.known ≡ specs_first_key) }
    {
        feed_begins();
        Ok(Reader {
            log: LogReader::resumed(alloc, Place { file: 1, at: 0 }, 0)?,
            sorter: Sorter::new(alloc, node),
            entries: 1,
            told: 0,
            end: NodeEnd::Open,
        })
    }

    /// At a point of a node's log; the branches that began from there on are given, with keys above `last`. The branches that
    /// stand open there come in the order of their xids, each once.
    pub fn resumed(alloc: Global, node: u32, cut: &NodeCut, last: &Key) -> Result<Reader, Memory>
        requires first { 1 ≤ node }
        requires last { node ≤ 256 }
        requires file { 1 ≤ cut.now.place.file }
        requires byte { cut.now.place.at < 2 ^ 63 }
        requires ascend { AscendByXid (map held_open cut.now.held) }
        ensures reads { IfOk result (λ reader. (tells : Bool) (files : List (List ℕ)) → IsReading tells files reader (record { last = last.now; from = cut.now; node = node }) [] no_feed) }
        ensures goes_on { IfOk result (λ reader. reader.end ≡ GoesOn) }
        ensures place { IfOk result (λ reader. reader.log.place ≡ cut.now.place) }
        ensures known { IfOk result (λ reader. reader.sorter.trail.known ≡ last.now) }
    {
        feed_begins();
        Ok(Reader {
            log: LogReader::resumed(alloc, cut.place, cut.checksum)?,
            sorter: Sorter::resumed(alloc, node, cut, last)?,
            entries: cut.entry,
            told: 0,
            end: NodeEnd::Open,
        })
    }

    /// How far the log was read: its file, and the place behind the last byte.
    pub fn place(&self) -> Place
        ensures { result ≡ self.now.log.place }
    {
        self.log.place
    }

    /// How the reading ended.
    pub fn end(&self) -> NodeEnd
        ensures { result ≡ self.now.end }
    {
        self.end
    }

    /// Drops what is kept for points to read this log again from, but for those that a key above `last` could want. What is
    /// read and given stays as it is.
    pub fn forget(&mut self, last: &Key)
        ensures reads { (tells : Bool) (files : List (List ℕ)) (reading : SortReading) (taken : List LogEntry) (feed : NodeFeed) → IsReading tells files self.old reading taken feed → IsReading tells files self.new reading taken feed }
        ensures end { self.new.end ≡ self.old.end }
        ensures log { self.new.log ≡ self.old.log }
        ensures known { self.new.sorter.trail.known ≡ (if is_gt (key_order last.now self.old.sorter.trail.known) then last.now else self.old.sorter.trail.known) }
    {
        self.sorter.forget(last);
    }

    /// The latest point from which the log may be read again, where all branches with keys of at most `last` are given and
    /// merged: every branch that is open or has a greater key began from there on. `last` isn't below the key up to which
    /// the reader was told to forget, nor below the one that it began with. It takes time by what is open or kept.
    pub fn cut(&self, last: &Key) -> Result<NodeCut, Memory>
        ensures { (tells : Bool) (files : List (List ℕ)) (reading : SortReading) (taken : List LogEntry) (feed : NodeFeed) → IsReading tells files self.now reading taken feed
            → IsStart (start_at reading.from) → IsAtMost self.now.sorter.trail.known last.now
            → IfOk result (λ cut. IsLatestPoint last.now reading.from reading.node taken cut) }
    {
        self.sorter.cut(last)
    }

    // What is settled and wasn't given yet.
    fn settled(&mut self) -> Option<Step>
        ensures settles { (reading : SortReading) (taken : List LogEntry) (feed : NodeFeed) → IsFeeding self.old reading taken feed → MatchOption result (IsFeeding self.new reading taken feed × AllGiven reading taken feed) (Settles self.new reading taken feed) }
        ensures giving { IfSome result IsGiving }
        ensures tells { (bound : ℕ) → result ≡ Some (TellsBound bound) → bound ≡ self.old.told → ⊥ }
        ensures told { IfNone result (self.new.told ≡ self.old.told) }
        ensures log { self.new.log ≡ self.old.log }
        ensures entries { self.new.entries ≡ self.old.entries }
        ensures end { self.new.end ≡ self.old.end }
        ensures stopped { self.new.sorter.stopped ≡ self.old.sorter.stopped }
        ensures known { self.new.sorter.trail.known ≡ self.old.sorter.trail.known }
    {
        gave_is_a_front();
        feed_gives();
        feed_tells();
        if let Some(branch) = self.sorter.pop() {
            return Some(Step::Branch(branch));
        }
        let bound = self.sorter.bound();
        if bound == self.told {
            return None;
        }
        self.told = bound;
        Some(Step::Bound(bound))
    }

    // Takes an entry; or says why not.
    fn take(&mut self, entry: Entry) -> Option<NodeEnd>
        ensures takes { (reading : SortReading) (taken : List LogEntry) (feed : NodeFeed) → IsFeeding self.old reading taken feed → self.old.sorter.stopped ≡ None → MatchOption result (IsFeeding self.new reading (taken ++ entry ∷ []) feed × (self.new.sorter.stopped ≡ None)) (λ end. IsFeeding self.new reading taken feed × RefusesEntry reading taken entry end) }
        ensures own { IfSome result IsOfLog }
        ensures log { self.new.log ≡ self.old.log }
        ensures told { self.new.told ≡ self.old.told }
        ensures counted { self.new.entries ≤ self.old.entries + 1 }
        ensures end { self.new.end ≡ self.old.end }
        ensures known { (reading : SortReading) (taken : List LogEntry) (feed : NodeFeed) → IsFeeding self.old reading taken feed → self.new.sorter.trail.known ≡ self.old.sorter.trail.known }
    {
        feed_reads_on();
        let at = entry.at;
        if self.entries >= MOST_ENTRIES {
            return Some(NodeEnd::Memory);
        }
        match self.sorter.take(entry) {
            Ok(()) => {
                self.entries += 1;
                None
            }
            Err(error) => Some(end_of_refusal(at, error)),
        }
    }

    // Takes an entry that was found in the log.
    fn take_found(&mut self, entry: Entry) -> Option<Advance>
        ensures takes { (tells : Bool) (files : List (List ℕ)) (reading : SortReading) (taken : List LogEntry) (feed : NodeFeed) → IsEntryFound tells files self.old reading taken feed entry → MatchOption result (AdvancesTo tells files self.new reading taken feed) (Advances tells files self.new reading taken feed) }
        ensures tells { (bound : ℕ) → result ≡ Some (GivesStep (TellsBound bound)) → bound ≡ self.old.told → ⊥ }
        ensures told { IfNone result (self.new.told ≡ self.old.told) }
        ensures log { self.new.log ≡ self.old.log }
        ensures counted { self.new.entries ≤ self.old.entries + 1 }
        ensures end { self.new.end ≡ self.old.end }
        ensures own { IfSome result IsOfEvents }
        ensures bytes { (result ≡ Some NeedsBytes) → ⊥ }
        ensures known { (reading : SortReading) (taken : List LogEntry) (feed : NodeFeed) → IsFeeding self.old reading taken feed → self.new.sorter.trail.known ≡ self.old.sorter.trail.known }
    {
        if let Some(end) = self.take(entry) {
            return Some(Advance::Ends(end));
        }
        match self.settled() {
            Some(step) => Some(Advance::Gives(step)),
            None => None,
        }
    }

    // Takes the next event at hand; answers where it isn't to go on.
    fn take_next(&mut self) -> Option<Advance>
        ensures takes { (tells : Bool) (files : List (List ℕ)) (reading : SortReading) (taken : List LogEntry) (feed : NodeFeed) → IsReading tells files self.old reading taken feed → self.old.end ≡ GoesOn → AllGiven reading taken feed → MatchOption result (AdvancesTo tells files self.new reading taken feed) (Advances tells files self.new reading taken feed) }
        ensures own { IfSome result IsOfEvents }
        ensures tells { (bound : ℕ) → result ≡ Some (GivesStep (TellsBound bound)) → bound ≡ self.old.told → ⊥ }
        ensures told { IfNone result (self.new.told ≡ self.old.told) }
        ensures shorter { result ≡ None → length self.new.log.follower.cutter.rest < length self.old.log.follower.cutter.rest }
        ensures cuts { self.new.entries + length self.new.log.follower.cutter.rest ≤ self.old.entries + length self.old.log.follower.cutter.rest }
        ensures going { result ≡ Some NeedsBytes → IsGoingOn self.new.log.follower.cutter.state }
        ensures place { self.new.log.place ≡ self.old.log.place }
        ensures end { self.new.end ≡ self.old.end }
        ensures known { (reading : SortReading) (taken : List LogEntry) (feed : NodeFeed) → IsFeeding self.old reading taken feed → self.new.sorter.trail.known ≡ self.old.sorter.trail.known }
    {
        let found = match self.log.next() {
            Ok(found) => found,
            Err(_) => return Some(Advance::Ends(NodeEnd::Memory)),
        };
        match found {
            Found::Nothing => None,
            Found::Need => Some(Advance::NeedsBytes),
            Found::Fault { place, fault } => {
                Some(Advance::Ends(NodeEnd::Fault { place, fault }))
            }
            Found::Entry(entry) => self.take_found(entry),
        }
    }

    // Takes the events at hand, up to one by which something is settled.
    fn advance(&mut self) -> Advance
        ensures advances { (tells : Bool) (files : List (List ℕ)) (reading : SortReading) (taken : List LogEntry) (feed : NodeFeed) → IsReading tells files self.old reading taken feed → self.old.end ≡ GoesOn → AllGiven reading taken feed → Advances tells files self.new reading taken feed result }
        ensures own { IsOfEvents result }
        ensures tells { (bound : ℕ) → result ≡ GivesStep (TellsBound bound) → bound ≡ self.old.told → ⊥ }
        ensures cuts { self.new.entries + length self.new.log.follower.cutter.rest ≤ self.old.entries + length self.old.log.follower.cutter.rest }
        ensures place { self.new.log.place ≡ self.old.log.place }
        ensures end { self.new.end ≡ self.old.end }
        ensures going { result ≡ NeedsBytes → IsGoingOn self.new.log.follower.cutter.state }
        ensures known { (tells : Bool) (files : List (List ℕ)) (reading : SortReading) (taken : List LogEntry) (feed : NodeFeed) → IsReading tells files self.old reading taken feed → self.old.end ≡ GoesOn → AllGiven reading taken feed → self.new.sorter.trail.known ≡ self.old.sorter.trail.known }
    {
        'events: loop {
            match self.take_next() {
                Some(advance) => return advance,
                None => {}
            }
        }
    }

    /// Whether the reading goes on.
    pub fn is_going(&self) -> bool
        ensures { result ≡ is_going self.now.end }
    {
        match self.end {
            NodeEnd::Open => true,
            NodeEnd::Whole | NodeEnd::Read | NodeEnd::Memory | NodeEnd::Fault { .. } => false,
        }
    }

    // Goes on where all that is settled was given: takes the events at hand; none where they settle no more.
    fn go_on(&mut self) -> Option<Step>
        ensures steps { (tells : Bool) (files : List (List ℕ)) (reading : SortReading) (taken : List LogEntry) (feed : NodeFeed) → IsReading tells files self.old reading taken feed → self.old.end ≡ GoesOn → AllGiven reading taken feed → MatchOption result (WantsBytes tells files self.new reading taken feed) (StepsTo tells files self.new reading taken feed) }
        ensures no_read { (count : ℕ) → result ≡ Some (BytesRead count) → ⊥ }
        ensures tells { (bound : ℕ) → result ≡ Some (TellsBound bound) → bound ≡ self.old.told → ⊥ }
        ensures cuts { self.new.entries + length self.new.log.follower.cutter.rest ≤ self.old.entries + length self.old.log.follower.cutter.rest }
        ensures place { self.new.log.place ≡ self.old.log.place }
        ensures wants { result ≡ None → (self.new.end ≡ self.old.end) × IsGoingOn self.new.log.follower.cutter.state }
        ensures giving { (step : Step) → result ≡ Some step → IsGiving step → self.new.end ≡ self.old.end }
        ensures failed { self.new.end ≡ SourceFailed → self.old.end ≡ SourceFailed }
        ensures known { (tells : Bool) (files : List (List ℕ)) (reading : SortReading) (taken : List LogEntry) (feed : NodeFeed) → IsReading tells files self.old reading taken feed → self.old.end ≡ GoesOn → AllGiven reading taken feed → self.new.sorter.trail.known ≡ self.old.sorter.trail.known }
    {
        match self.advance() {
            Advance::Gives(step) => Some(step),
            Advance::NeedsBytes => None,
            Advance::Ends(end) => {
                self.end = end;
                Some(Step::End)
            }
        }
    }

    /// What comes next of the bytes that were read: a settled branch, the low-water mark, or the end, as `next` has them;
    /// none where bytes are to be read first. It asks nothing of a source.
    pub fn at_hand(&mut self) -> Option<Step>
        // Whatever it may have taken and given, this is what comes next.
        ensures steps { (tells : Bool) (files : List (List ℕ)) (reading : SortReading) (taken : List LogEntry) (feed : NodeFeed) → IsReading tells files self.old reading taken feed → MatchOption result (WantsBytes tells files self.new reading taken feed) (StepsTo tells files self.new reading taken feed) }
        ensures no_read { (count : ℕ) → result ≡ Some (BytesRead count) → ⊥ }
        // A mark is told where it isn't the one that was told last.
        ensures tells { (bound : ℕ) → result ≡ Some (TellsBound bound) → bound ≡ self.old.told → ⊥ }
        // Each entry that is taken takes bytes at hand.
        ensures cuts { self.new.entries + length self.new.log.follower.cutter.rest ≤ self.old.entries + length self.old.log.follower.cutter.rest }
        ensures place { self.new.log.place ≡ self.old.log.place }
        ensures wants { result ≡ None → (self.new.end ≡ GoesOn) × IsGoingOn self.new.log.follower.cutter.state }
        ensures giving { (step : Step) → result ≡ Some step → IsGiving step → self.new.end ≡ self.old.end }
        ensures over { (self.old.end ≡ GoesOn → ⊥) → self.new.end ≡ self.old.end }
        ensures failed { self.new.end ≡ SourceFailed → self.old.end ≡ SourceFailed }
        ensures known { (tells : Bool) (files : List (List ℕ)) (reading : SortReading) (taken : List LogEntry) (feed : NodeFeed) → IsReading tells files self.old reading taken feed → self.new.sorter.trail.known ≡ self.old.sorter.trail.known }
    {
        match self.settled() {
            Some(step) => Some(step),
            None => {
                if self.is_going() {
                    self.go_on()
                } else {
                    Some(Step::End)
                }
            }
        }
    }

    /// Reads the next bytes, where `at_hand` had nothing more: that they were read, or the end. They are read into `piece`,
    /// at most as many as it has and at most 65,536.
    pub fn fill<S: Source>(&mut self, source: &mut S, piece: &mut [u8]) -> Step
        requires room { 0 < length piece.old }
        requires going { IsGoingOn self.old.log.follower.cutter.state }
        ensures steps { (reading : SortReading) (taken : List LogEntry) (feed : NodeFeed) → IsReading S.tells (S.held source.old) self.old reading taken feed → self.old.end ≡ GoesOn → AllGiven reading taken feed → (IsTrue S.tells → IsTakenTo reading.from (S.held source.old) self.old.log.follower self.old.log.place taken) → StepsTo S.tells (S.held source.old) self.new reading taken feed result }
        ensures quiet { IsGiving result → ⊥ }
        ensures within { (count : ℕ) → result ≡ BytesRead count → count ≤ length piece.old }
        // Nothing below the place so far is asked for, and the place doesn't go back.
        ensures below { NothingBelow self.old.log.place (S.lowest source.old) (S.lowest source.new) }
        ensures onward { IsFromOn self.old.log.place self.new.log.place }
        // It moves on by the bytes that are read, and no more.
        ensures bytes { IsTrue S.tells → IsLogSized (S.held source.old) self.old.log → bytes_up_to (S.held source.old) self.new.log.place ≤ bytes_up_to (S.held source.old) self.old.log.place + bytes_in result }
        ensures entries { self.new.entries ≡ self.old.entries }
        ensures sorter { self.new.sorter ≡ self.old.sorter }
        ensures failed { self.new.end ≡ SourceFailed → (self.old.end ≡ SourceFailed) ⊎ Rose (S.faults source.old) (S.faults source.new) }
        ensures later { S.faults source.old ≤ S.faults source.new }
        ensures held { S.held source.new ≡ S.held source.old }
        ensures sizes { S.sizes source.new ≡ S.sizes source.old }
    {
        let read = match self.log.fill(source, piece) {
            Ok(read) => read,
            Err(stopped) => {
                self.end = end_of_stop(stopped);
                return Step::End;
            }
        };
        if read == 0 {
            self.end = NodeEnd::Whole;
            return Step::End;
        }
        Step::Read(read)
    }

    /// What comes next of the node: a settled branch; its low-water mark, where all settled branches were given; that
    /// bytes were read, where the mark was told too; or nothing more, which is answered again from then on. Bytes are
    /// read into `piece`, at most as many as it has and at most 65,536.
    pub fn next<S: Source>(&mut self, source: &mut S, piece: &mut [u8]) -> Step
        requires { 0 < length piece.old }
        // Whatever it may have taken and given, this is what comes next.
        ensures steps { (reading : SortReading) (taken : List LogEntry) (feed : NodeFeed) → IsReading S.tells (S.held source.old) self.old reading taken feed → StepsTo S.tells (S.held source.old) self.new reading taken feed result }
        // What is given asks nothing of the source.
        ensures quiet { IsGiving result → source.new ≡ source.old }
        ensures within { (count : ℕ) → result ≡ BytesRead count → count ≤ length piece.old }
        // The source is said to have failed only where it did, in this call or an earlier one.
        ensures failed { self.new.end ≡ SourceFailed → (self.old.end ≡ SourceFailed) ⊎ Rose (S.faults source.old) (S.faults source.new) }
        ensures later { S.faults source.old ≤ S.faults source.new }
        ensures held { S.held source.new ≡ S.held source.old }
        ensures sizes { S.sizes source.new ≡ S.sizes source.old }
    {
        match self.at_hand() {
            Some(step) => step,
            None => self.fill(source, piece),
        }
    }
}
