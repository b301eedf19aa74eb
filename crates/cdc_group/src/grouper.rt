//! The grouper.

ghost use Rattle.std.specs.Prelude.{◌≡◌, ◌≤◌, ℕ, List, [], IfOk, IfSome};
ghost use Rattle.cdc_event.specs.Event.{body_bytes};
ghost use Rattle.cdc_event.specs.View.{body_viewed, event_viewed};
ghost use Rattle.cdc_model.specs.declared.fault.GroupFault.{GroupFault as Wrong};
ghost use Rattle.cdc_model.specs.Kept.{IsKeptKind};
ghost use Rattle.cdc_model.specs.Row.{IsRow};
ghost use Rattle.cdc_model.specs.Records.{LogEntry};
ghost use Rattle.cdc_model.specs.Sign.{SignedEvent};
ghost use Rattle.cdc_model.specs.Group.{Out as HasNone};
ghost use Rattle.cdc_group.specs.Grouping.{Goes, Stopped, ended_file};
ghost use Rattle.cdc_group.specs.Source.{Tells};
ghost use Rattle.cdc_group.specs.Taking.{taken_event, placed_result, HasGrouped, Groups, TakesEvent};

use crate::error::GroupError;
use crate::group::{Group, GroupState};
use crate::known::Known;
use crate::sign::sign_of;
use crate::source::Source;
use cdc_base::{Memory, Place};
use cdc_event::{Event, EventView};
use cdc_model::{
    Entry, EntryKind, fitting_events_are_read, misfits_are_told, one_event_more, reading_begins,
};
use std::alloc::Global;
use std::marker::Model;

// What is answered: the entry that stands there, or none, or that there is too little memory.
fn placed(
    went: Result<Option<EntryKind>, Memory>,
    at: Place,
    end: Place,
    checksum: u8,
) -> Result<Option<Entry>, GroupError>
    requires kept { IfOk went (λ kind. IfSome kind IsKeptKind) }
    requires setting { checksum ≤ 1 }
    ensures { result ≡ placed_result at end checksum went }
{
    match went {
        Ok(Some(kind)) => Ok(Some(Entry {
            kind,
            at,
            end,
            checksum,
        })),
        Ok(None) => Ok(None),
        Err(Memory) => Err(GroupError::Memory),
    }
}

/// Groups the events of a node's log files into entries.
///
/// Contracts see it as where it stands: how far an unfinished item has come, or the fault at which it stopped.
#[derive(Debug, Drop)]
pub struct Grouper {
    alloc: Global,
    group: Group,
    known: Known,
}

impl Model for Grouper {
    ghost use Rattle.cdc_group.specs.Grouping.{Grouping};

    ghost Value = { Grouping };

    ghost use Rattle.cdc_group.specs.State.{grouping_of};

    ghost view = { λ grouper. grouping_of grouper.group };

    ghost use Rattle.cdc_group.specs.Known.{IsKnown};

    ghost invariant = { λ grouper. IsKnown grouper.known };
}

impl Grouper {
    /// A grouper at the start of a file. It takes no memory; the allocator is kept for rows.
    pub fn new(alloc: Global) -> Grouper
        ensures grouper { result ≡ Goes HasNone }
        ensures holds { (file : ℕ) → HasGrouped result file [] [] }
    {
        reading_begins();
        Grouper {
            alloc,
            group: Group::new(alloc),
            known: Known::new(alloc),
        }
    }

    // Takes an event whose row is at hand.
    fn take_seen(
        &mut self,
        at: Place,
        end: Place,
        checksum: u8,
        view: &EventView<'_>,
        source: &Source<'_>,
    ) -> Result<Option<Entry>, GroupError>
        requires file { end.file ≡ at.file }
        requires setting { checksum ≤ 1 }
        requires tells { Tells source.now (body_viewed view.now.body) }
        requires event { IsRow (view.now.header.kind, body_viewed view.now.body) }
        ensures { TakesEvent at.file (taken_event at end checksum (event_viewed view.now)) self.old self.new result }
    {
        let kind = view.header.kind;
        let sign = sign_of(kind, &view.body, &mut self.known);
        if let Some(fault) = self.group.misfit(&sign) {
            self.group.state = GroupState::Faulty(fault);
            return Err(GroupError::Fault(fault));
        }
        let seconds = view.header.seconds;
        let went = self.group.go_on(self.alloc, &sign, seconds, kind, source);
        placed(went, at, end, checksum)
    }

    /// Takes the next event of its file, as it is read in place, and the bytes of its body: the entry that it ends;
    /// or none exactly where it ends none; or its fault, exactly where it doesn't fit, which is answered again from
    /// then on. On `Memory` the grouper is unchanged. A row's bytes are copied once.
    ///
    /// `checksum` is the setting behind the event.
    pub fn take_view(
        &mut self,
        at: Place,
        end: Place,
        checksum: u8,
        view: &EventView<'_>,
        own: &[u8],
    ) -> Result<Option<Entry>, GroupError>
        requires file { end.file ≡ at.file }
        requires setting { checksum ≤ 1 }
        requires own { own.now ≡ body_bytes (body_viewed view.now.body) }
        // The event is one of its type, of at most 2^27 bytes.
        requires event { IsRow (view.now.header.kind, body_viewed view.now.body) }
        // Whatever it may have taken of the file and have given, this is what the event comes to.
        ensures answer { (taken : List SignedEvent) (given : List LogEntry) → HasGrouped self.old at.file taken given → Groups at.file taken given (taken_event at end checksum (event_viewed view.now)) self.old self.new result }
        // The same by the table of faults, and by where an event leads that has none.
        ensures table { TakesEvent at.file (taken_event at end checksum (event_viewed view.now)) self.old self.new result }
    {
        one_event_more();
        misfits_are_told();
        fitting_events_are_read();
        self.take_seen(at, end, checksum, view, &Source::Bytes(own))
    }

    /// Takes the next event of its file, as `take_view` does.
    pub fn take(
        &mut self,
        at: Place,
        end: Place,
        checksum: u8,
        event: &Event,
    ) -> Result<Option<Entry>, GroupError>
        requires file { end.file ≡ at.file }
        requires setting { checksum ≤ 1 }
        requires event { IsRow (event.now.header.kind, event.now.body) }
        ensures answer { (taken : List SignedEvent) (given : List LogEntry) → HasGrouped self.old at.file taken given → Groups at.file taken given (taken_event at end checksum event.now) self.old self.new result }
        ensures table { TakesEvent at.file (taken_event at end checksum event.now) self.old self.new result }
    {
        one_event_more();
        misfits_are_told();
        fitting_events_are_read();
        self.take_seen(
            at,
            end,
            checksum,
            &event.view(),
            &Source::Whole(&event.body),
        )
    }

    /// Drops an open group and a waiting timestamp at the file's end; a fault stays.
    pub fn file_end(&mut self)
        ensures grouper { self.new ≡ ended_file self.old }
        // The next file begins with no event taken.
        ensures holds { ((fault : Wrong) → self.old ≡ Stopped fault → ⊥) → (file : ℕ) → HasGrouped self.new file [] [] }
    {
        reading_begins();
        match self.group.state {
            GroupState::Faulty(_) => {}
            _ => self.group.state = GroupState::Out,
        }
    }
}
