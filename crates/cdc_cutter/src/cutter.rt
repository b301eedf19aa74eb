//! The cutter.

ghost use Rattle.std.specs.Prelude.{◌≡◌, ◌<◌, ◌≤◌, ◌+◌, ◌-◌, ◌^◌, ℕ, List, [], ◌++◌, length, take, drop, Err, IfOk, IsOk, OnOk, OnErr};
ghost use Rattle.cdc_event.specs.Reading.{HasKnownAlgorithm};
ghost use Rattle.cdc_event.specs.File.{PlacedEvent};
ghost use Rattle.cdc_event.specs.File.{setting_behind as specs_setting_behind};
ghost use Rattle.cdc_event.specs.declared.fault.FileFault.{FileFault};
ghost use Rattle.cdc_event.specs.declared.fault.FileFault.TheVariants.{Event as EventIsFaulty};
ghost use Rattle.cdc_cutter.specs.declared.cut.Cut.TheVariants.{Event as GivesEvent, Need, Fault as GivesFault};
ghost use Rattle.cdc_cutter.specs.declared.peek.Peek.TheVariants.{Fault as SeesFault};
ghost use Rattle.cdc_cutter.specs.declared.state.CutterState.TheVariants.{Behind, Faulty};
ghost use Rattle.cdc_cutter.specs.Cutting.{cutter_at, Holds, Answers, BeginsEvent, CutsEvent, Cuts, PassesMagic, Takes, next_file_of, cut_viewed, behind_cut, passed_to, CanPass, MayPass, IsInFile, IsGoingOn};

use crate::cut::Cut;
use crate::peek::Peek;
use crate::pending::Pending;
use crate::seen::{Look, look_at, view_piece};
use crate::state::{CutterState, pass_magic};
use crate::whole::{read_piece, setting_behind};
use cdc_base::{Memory, Place};
use cdc_event::{Event, EventFault, FileFault, Header, MAGIC, ReadError};
use std::alloc::Global;
use std::marker::Model;

// The place behind an event with this header that stands at a place.
fn end_of(at: Place, header: &Header) -> Place
    requires { at.at < 2 ^ 63 }
    ensures { result ≡ record { file = at.file; at = at.at + header.now.length } }
{
    Place {
        at: at.at + u64::from(header.length),
        ..at
    }
}

// The fault of the event that begins at a place.
fn faulty<'a>(place: Place, fault: EventFault) -> Peek<'a>
    ensures { result ≡ SeesFault place (EventIsFaulty fault) }
{
    Peek::Fault {
        place,
        fault: FileFault::Event(fault),
    }
}

/// Cuts the bytes of a node's log files into events.
///
/// Contracts see it as what it keeps: where it stands, and the bytes that aren't cut yet.
#[derive(Debug, Drop)]
pub struct Cutter {
    alloc: Global,
    place: Place,
    checksum: u8,
    state: CutterState,
    pending: Pending,
}

impl Model for Cutter {
    ghost use Rattle.cdc_cutter.specs.Cutting.{Cutting};

    ghost Value = { Cutting };

    ghost use Rattle.cdc_cutter.specs.Cutting.{cutter_seen, IsKeptCutter};

    ghost view = { cutter_seen };

    ghost invariant = { IsKeptCutter };
}

impl Cutter {
    /// A cutter at the start of file 1.
    pub fn new(alloc: Global) -> Result<Cutter, Memory>
        ensures cutter { IfOk result (λ cutter. cutter ≡ cutter_at 1 0 0) }
        ensures holds { IfOk result (λ cutter. Holds cutter 0 0 [] []) }
    {
        Cutter::resumed(alloc, Place { file: 1, at: 0 }, 0)
    }

    /// A cutter at a file's start, or at the end of an event, under the checksum setting there. At a file's start
    /// the setting has no effect.
    pub fn resumed(alloc: Global, place: Place, checksum: u8) -> Result<Cutter, Memory>
        requires setting { checksum ≤ 1 }
        requires counted { place.at < 2 ^ 63 }
        ensures cutter { IfOk result (λ cutter. cutter ≡ cutter_at place.file place.at checksum) }
        ensures holds { IfOk result (λ cutter. Holds cutter place.at checksum [] []) }
    {
        let state = if place.at == 0 {
            CutterState::Start
        } else {
            CutterState::Behind
        };
        Ok(Cutter {
            alloc,
            place,
            checksum,
            state,
            pending: Pending::new(alloc),
        })
    }

    // Appends a piece, and passes the magic where it is there then.
    fn take(&mut self, piece: &[u8]) -> Result<(), Memory>
        requires { self.old.at + length self.old.rest + length piece.now < 2 ^ 63 }
        ensures ok { OnOk result (Takes self.old.state piece.now self.old self.new) }
        ensures err { OnErr result (self.new ≡ self.old) }
    {
        self.pending.feed(self.alloc, piece)?;
        if let CutterState::Start = self.state {
            self.state = pass_magic(&mut self.pending);
            if let CutterState::First = self.state {
                self.place.at = MAGIC.len() as u64;
                self.checksum = 0;
            }
        }
        Ok(())
    }

    /// Feeds the next bytes of the file. On `Memory` the cutter is unchanged. After a fault nothing is taken.
    pub fn feed(&mut self, piece: &[u8]) -> Result<(), Memory>
        requires { self.old.at + length self.old.rest + length piece.now < 2 ^ 63 }
        // Whatever it may have been fed and have given, it has been fed the piece besides.
        ensures fed { OnOk result ((start checksum : ℕ) (fed : List ℕ) (given : List PlacedEvent) → Holds self.old start checksum fed given → Holds self.new start checksum (fed ++ piece.now) given) }
        ensures file { self.new.file ≡ self.old.file }
        // The last byte that was fed stands no further on than the piece is long.
        ensures end { self.new.at + length self.new.rest ≤ self.old.at + length self.old.rest + length piece.now }
        ensures faulty { (fault : FileFault) → self.old.state ≡ Faulty fault → IsOk result × (self.new ≡ self.old) }
        ensures err { OnErr result (self.new ≡ self.old) }
    {
        match self.state {
            CutterState::Faulty(_) => Ok(()),
            _ => self.take(piece),
        }
    }

    // Stops at a fault of the event that begins here.
    fn stop(&mut self, fault: EventFault) -> Cut
        ensures cut { result ≡ GivesFault (record { file = self.old.file; at = self.old.at }) (EventIsFaulty fault) }
        ensures new { self.new ≡ record self.old { state = Faulty (EventIsFaulty fault) } }
    {
        let fault = FileFault::Event(fault);
        self.state = CutterState::Faulty(fault);
        Cut::Fault {
            place: self.place,
            fault,
        }
    }

    // What stands next, where an event begins. It is put into its callers, as those of it are: a view has 96 bytes, and
    // what a caller doesn't read of one is then never written.
    #[inline(always)]
    fn peek_event(&self, first: bool) -> Peek<'_>
        requires { BeginsEvent first self.now.state }
        ensures cut { CutsEvent first self.now (behind_cut self.now (cut_viewed result)) (cut_viewed result) }
        ensures passable { MayPass self.now result }
    {
        let bytes = self.pending.bytes();
        match look_at(bytes, self.checksum) {
            Look::Unfinished => Peek::Need,
            Look::Wrong(fault) => faulty(self.place, fault),
            Look::Whole(header) => match view_piece(bytes, first, &header, self.checksum) {
                Ok(event) => Peek::Event {
                    at: self.place,
                    end: end_of(self.place, &header),
                    event,
                    checksum: setting_behind(self.checksum, &event.body),
                },
                Err(fault) => faulty(self.place, fault),
            },
        }
    }

    /// What `next` would answer, with its event in place: nothing is taken, shared or passed. `pass` goes on behind
    /// the event. It takes no memory.
    #[inline(always)]
    pub fn peek(&self) -> Peek<'_>
        // Whatever it may have been fed and have given, this is the answer that the fed bytes have.
        ensures answer { (start checksum : ℕ) (fed : List ℕ) (given : List PlacedEvent) → Holds self.now start checksum fed given → Answers start checksum fed given self.now (behind_cut self.now (cut_viewed result)) (cut_viewed result) }
        // The same in terms of the bytes that aren't cut yet.
        ensures cut { Cuts self.now.state self.now (behind_cut self.now (cut_viewed result)) (cut_viewed result) }
        ensures passable { MayPass self.now result }
        ensures file { IsInFile self.now.file (cut_viewed result) }
        ensures need { cut_viewed result ≡ Need → IsGoingOn self.now.state }
    {
        self.peeked()
    }

    // The same, in terms of the bytes that aren't cut.
    #[inline(always)]
    fn peeked(&self) -> Peek<'_>
        ensures cut { Cuts self.now.state self.now (behind_cut self.now (cut_viewed result)) (cut_viewed result) }
        ensures passable { MayPass self.now result }
    {
        match self.state {
            CutterState::Start => Peek::Need,
            CutterState::First => self.peek_event(true),
            CutterState::Behind => self.peek_event(false),
            CutterState::Faulty(fault) => Peek::Fault {
                place: self.place,
                fault,
            },
        }
    }

    /// Passes the event that `peek` tells, by its end and the setting behind it.
    pub fn pass(&mut self, end: Place, checksum: u8)
        requires { CanPass self.old end checksum }
        ensures { self.new ≡ passed_to self.old end.at checksum }
    {
        self.pending.advance((end.at - self.place.at) as usize);
        self.place = end;
        self.checksum = checksum;
        self.state = CutterState::Behind;
    }

    // Passes an event that was read from so many bytes.
    fn give(&mut self, event: Event, header: &Header) -> Cut
        requires known { HasKnownAlgorithm event.body }
        requires within { header.now.length ≤ length self.old.rest }
        ensures cut { result ≡ GivesEvent (record { file = self.old.file; at = self.old.at }) (record { file = self.old.file; at = self.old.at + header.now.length }) event (specs_setting_behind self.old.checksum event.body) }
        ensures new { self.new ≡ record { file = self.old.file; at = self.old.at + header.now.length; checksum = specs_setting_behind self.old.checksum event.body; state = Behind; rest = drop header.now.length self.old.rest } }
    {
        let at = self.place;
        let end = end_of(at, header);
        let checksum = setting_behind(self.checksum, &event.body.view());
        self.pending.advance(header.length as usize);
        self.place = end;
        self.checksum = checksum;
        self.state = CutterState::Behind;
        Cut::Event {
            at,
            end,
            event,
            checksum,
        }
    }

    // Cuts what stands where an event begins.
    fn cut_event(&mut self, first: bool) -> Result<Cut, Memory>
        requires { BeginsEvent first self.old.state }
        ensures cut { IfOk result (CutsEvent first self.old self.new) }
        ensures err { OnErr result (self.new ≡ self.old) }
    {
        match look_at(self.pending.bytes(), self.checksum) {
            Look::Unfinished => Ok(Cut::Need),
            Look::Wrong(fault) => Ok(self.stop(fault)),
            Look::Whole(header) => {
                match read_piece(&mut self.pending, first, &header, self.checksum) {
                    Ok(event) => Ok(self.give(event, &header)),
                    Err(ReadError::Fault(fault)) => Ok(self.stop(fault)),
                    Err(ReadError::Memory) => Err(Memory),
                }
            }
        }
    }

    // The next answer, in terms of the bytes that aren't cut.
    fn step(&mut self) -> Result<Cut, Memory>
        ensures cut { IfOk result (Cuts self.old.state self.old self.new) }
        ensures again { (fault : FileFault) → self.old.state ≡ Faulty fault → IsOk result }
        ensures err { OnErr result (self.new ≡ self.old) }
    {
        match self.state {
            CutterState::Start => Ok(Cut::Need),
            CutterState::First => self.cut_event(true),
            CutterState::Behind => self.cut_event(false),
            CutterState::Faulty(fault) => Ok(Cut::Fault {
                place: self.place,
                fault,
            }),
        }
    }

    /// The next event of the bytes so far; or that they hold no further whole event and no fault; or their fault,
    /// which is answered again from then on. On `Memory` the cutter is unchanged.
    ///
    /// An event's byte strings share the bytes that were fed; none is copied.
    pub fn next(&mut self) -> Result<Cut, Memory>
        // Whatever it may have been fed and have given, this is the answer that the fed bytes have.
        ensures answer { IfOk result (λ cut. (start checksum : ℕ) (fed : List ℕ) (given : List PlacedEvent) → Holds self.old start checksum fed given → Answers start checksum fed given self.old self.new cut) }
        // The same in terms of the bytes that aren't cut yet.
        ensures cut { IfOk result (Cuts self.old.state self.old self.new) }
        ensures again { (fault : FileFault) → self.old.state ≡ Faulty fault → IsOk result }
        ensures err { OnErr result (self.new ≡ self.old) }
        ensures file { IfOk result (λ cut. (self.new.file ≡ self.old.file) × IsInFile self.old.file cut) }
        ensures need { IfOk result (λ cut. cut ≡ Need → IsGoingOn self.new.state) }
    {
        self.step()
    }

    /// The bytes that aren't cut yet. Those of the event that `peek` tells are the first: its header has 19, and its body
    /// ends where the event's length says.
    pub fn bytes(&self) -> &[u8]
        ensures { result.now ≡ self.now.rest }
    {
        self.pending.bytes()
    }

    /// The file, and the place in it behind the last byte that was fed; after a fault, behind the last that was taken.
    pub fn fed_to(&self) -> Place
        ensures { result ≡ record { file = self.now.file; at = self.now.at + length self.now.rest } }
    {
        Place {
            at: self.place.at + self.pending.bytes().len() as u64,
            ..self.place
        }
    }

    /// Drops what is left of the file, and goes to byte 0 of the next one. After a fault nothing changes.
    pub fn next_file(&mut self)
        requires { self.old.file < 2 ^ 32 - 1 }
        ensures file { self.new ≡ next_file_of self.old.state self.old }
        ensures holds { ((fault : FileFault) → self.old.state ≡ Faulty fault → ⊥) → (checksum : ℕ) → Holds self.new 0 checksum [] [] }
    {
        if let CutterState::Faulty(_) = self.state {
            return;
        }
        self.pending = Pending::new(self.alloc);
        self.place = Place {
            file: self.place.file + 1,
            at: 0,
        };
        self.state = CutterState::Start;
    }
}
