//! From a node's bytes to its entries: a cutter, and a grouper behind it.

ghost use Rattle.std.specs.Prelude.{◌≡◌, ◌<◌, ◌≤◌, ◌+◌, ◌-◌, ◌^◌, ◌++◌, ℕ, List, [], length, take, drop, IfOk, OnOk, OnErr};
ghost use Rattle.cdc_cutter.specs.Cutting.{cutter_at, IsGoingOn};
ghost use Rattle.cdc_group.specs.Grouping.{Goes};
ghost use Rattle.cdc_model.specs.Group.{Progress};
ghost use Rattle.cdc_model.specs.Records.{LogEntry};
ghost use Rattle.cdc_reader.specs.Fed.{Follows, FindsNext, IsPassedEvent, found_of, refusal_of};
ghost use Rattle.cdc_reader.specs.declared.follower.Found.TheVariants.{Need as NeedsMore};

use cdc_base::{Memory, Place};
use cdc_cutter::{Cutter, Peek};
use cdc_event::{HEADER_LENGTH, grown_file_continues};
use cdc_group::{GroupError, Grouper, whole_events_are_taken};
use cdc_model::{
    Entry, GroupFault, NodeFault, misplaced_event_ends, one_event_more, reading_begins,
};
use std::alloc::Global;

/// What is found next in the bytes so far.
#[derive(Debug, Drop)]
pub enum Found {
    /// An event that ends no entry.
    Nothing,
    /// An entry.
    Entry(Entry),
    /// No further whole event, and no fault.
    Need,
    /// The file's fault, at its place.
    Fault { place: Place, fault: NodeFault },
}

// What an event finds: the entry that it ends, or nothing.
fn found_of(entry: Option<Entry>) -> Found
    ensures { result ≡ found_of entry }
{
    match entry {
        Some(entry) => Found::Entry(entry),
        None => Found::Nothing,
    }
}

// The fault for which an event is refused; none where there was no memory for it.
fn refusal_of(error: GroupError) -> Option<GroupFault>
    ensures { result ≡ refusal_of error }
{
    match error {
        GroupError::Fault(fault) => Some(fault),
        GroupError::Memory => None,
    }
}

// The body of the event at the front of these bytes, of so many bytes without its checksum.
fn body_in(bytes: &[u8], size: u32) -> &[u8]
    requires least { 19 ≤ size }
    requires most { size ≤ length bytes.now }
    ensures { result.now ≡ take (size - 19) (drop 19 bytes.now) }
{
    &bytes[HEADER_LENGTH..size as usize]
}

/// A cutter, and a grouper behind it.
#[derive(Debug, Drop)]
pub struct Follower {
    pub cutter: Cutter,
    pub grouper: Grouper,
}

impl Follower {
    /// At a place of a log, under the checksum setting there.
    pub fn resumed(alloc: Global, place: Place, checksum: u8) -> Result<Follower, Memory>
        requires setting { checksum ≤ 1 }
        requires counted { place.at < 2 ^ 63 }
        ensures follows { IfOk result (λ follower. Follows follower place.file place.at checksum [] []) }
        ensures cutter { IfOk result (λ follower. follower.cutter ≡ cutter_at place.file place.at checksum) }
    {
        reading_begins();
        Ok(Follower {
            cutter: Cutter::resumed(alloc, place, checksum)?,
            grouper: Grouper::new(alloc),
        })
    }

    /// Feeds the next bytes of the file. On `Memory` nothing has changed.
    pub fn feed(&mut self, piece: &[u8]) -> Result<(), Memory>
        requires { self.old.cutter.at + length self.old.cutter.rest + length piece.now < 2 ^ 63 }
        ensures fed { OnOk result ((file start checksum : ℕ) (fed : List ℕ) (own : List LogEntry) → Follows self.old file start checksum fed own → Follows self.new file start checksum (fed ++ piece.now) own) }
        ensures file { self.new.cutter.file ≡ self.old.cutter.file }
        ensures end { self.new.cutter.at + length self.new.cutter.rest ≤ self.old.cutter.at + length self.old.cutter.rest + length piece.now }
        ensures err { OnErr result (self.new ≡ self.old) }
    {
        self.cutter.feed(piece)
    }

    /// Finds what is next in the bytes that were fed. On `Memory` nothing has changed.
    pub fn next(&mut self) -> Result<Found, Memory>
        ensures found { IfOk result (λ found. (file start checksum : ℕ) (fed : List ℕ) (own : List LogEntry) → Follows self.old file start checksum fed own → FindsNext file start checksum fed own self.new found) }
        ensures shorter { IfOk result (λ found. IsPassedEvent found → length self.new.cutter.rest < length self.old.cutter.rest) }
        ensures no_longer { length self.new.cutter.rest ≤ length self.old.cutter.rest }
        ensures going { IfOk result (λ found. found ≡ NeedsMore → IsGoingOn self.new.cutter.state) }
        ensures file { self.new.cutter.file ≡ self.old.cutter.file }
        ensures end { self.new.cutter.at + length self.new.cutter.rest ≤ self.old.cutter.at + length self.old.cutter.rest }
        ensures err { OnErr result (self.new ≡ self.old) }
    {
        whole_events_are_taken();
        one_event_more();
        misplaced_event_ends();
        grown_file_continues();
        match self.cutter.peek() {
            Peek::Need => Ok(Found::Need),
            Peek::Fault { place, fault } => Ok(Found::Fault {
                place,
                fault: NodeFault::File(fault),
            }),
            Peek::Event {
                at,
                end,
                event,
                checksum,
            } => {
                let body = body_in(self.cutter.bytes(), event.header.length);
                match self.grouper.take_view(at, end, checksum, &event, body) {
                    Ok(entry) => {
                        self.cutter.pass(end, checksum);
                        Ok(found_of(entry))
                    }
                    Err(error) => match refusal_of(error) {
                        Some(fault) => Ok(Found::Fault {
                            place: at,
                            fault: NodeFault::Group(fault),
                        }),
                        None => Err(Memory),
                    },
                }
            }
        }
    }

    /// Goes to the start of the next file. What was left of this one is dropped.
    pub fn next_file(&mut self)
        requires counted { self.old.cutter.file < 2 ^ 32 - 1 }
        requires going { IsGoingOn self.old.cutter.state }
        ensures cutter { (self.new.cutter.file ≡ self.old.cutter.file + 1) × (self.new.cutter.at ≡ 0) × (self.new.cutter.rest ≡ []) }
        ensures going { IsGoingOn self.new.cutter.state }
        ensures follows { (progress : Progress) → self.old.grouper ≡ Goes progress → (checksum : ℕ) → Follows self.new (self.old.cutter.file + 1) 0 checksum [] [] }
    {
        reading_begins();
        self.cutter.next_file();
        self.grouper.file_end();
    }
}
