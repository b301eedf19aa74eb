//! The sorter.

ghost use Rattle.std.specs.Prelude.{◌≡◌, ◌+◌, ◌<◌, ◌≤◌, ◌^◌, ◌++◌, [], ◌∷◌, List, length, map, reverse, if◌then◌else◌, Some, None, Ok, Err, IfOk, IfSome, IfNone};
ghost use Rattle.cdc_model.specs.NodeCuts.{AreFloors};
ghost use Rattle.std.specs.Ordering.{is_gt};
ghost use Rattle.cdc_base.specs.Key.{key_order, first_key as specs_first_key};
ghost use Rattle.cdc_model.specs.declared.fault.SortFault.{SortFault};
ghost use Rattle.cdc_model.specs.Records.{LogEntry, CommittedBranch};
ghost use Rattle.cdc_model.specs.Soundness.{entry_fault};
ghost use Rattle.cdc_model.specs.Branch as branch;
ghost use Rattle.cdc_model.specs.Restart.{first_point, held_open, start_at, IsAtMost, IsLatestPoint};
ghost use Rattle.cdc_model.specs.Commits.{IsStart};
ghost use Rattle.cdc_model.specs.Openings.{AscendByXid};
ghost use Rattle.cdc_sorter.specs.declared.sorter.SortError.TheVariants.{Fault as Refuses, Memory as NoMemory};
ghost use Rattle.cdc_open.specs.Standing.{branches_of};
ghost use Rattle.cdc_sorter.specs.Trail.{standing_held, cut_of};
ghost use Rattle.cdc_sorter.specs.Sorting.{SortReading, HoldsReading, history_behind, low_of, settled_behind, sorter_stopped, is_ready, GaveIsAFront};

use crate::cut::{earliest_above, earliest_open, held_before};
use crate::position::Position;
use crate::sweep::begun_in_order;
use crate::trail::Trail;
use cdc_base::{Key, Memory, Place, Xid, first_key};
use cdc_model::{Branch, Entry, NodeCut, RowList, SortFault};
use cdc_open::{OpenTable, Standing};
use cdc_waiting::Waiting;
use std::alloc::Global;
use std::marker::Model;

mod steps;

/// Why an entry isn't taken.
#[derive(Clone, Copy, Debug, PartialEq, Eq)]
pub enum SortError {
    /// It isn't sound, or an earlier one wasn't.
    Fault(SortFault),
    /// There is no memory for it.
    Memory,
}

// The answer of a fault.
fn refusal(fault: &SortFault) -> SortError
    ensures { result ≡ Refuses fault.now }
{
    SortError::Fault(*fault)
}

// Whether a key is settled under a low-water mark.
fn is_settled(mark: u64, key: &Key) -> bool
    ensures { result ≡ branch.is_settled mark key.now }
{
    match key {
        Key::Shared { timestamp, .. } => *timestamp <= mark,
        Key::Plain { timestamp, .. } => *timestamp < mark,
    }
}

// The branches that stand open at a point, behind a place under a checksum setting.
fn held_open(
    alloc: Global,
    held: &[(Xid, u64)],
    place: Place,
    checksum: u8,
) -> Result<OpenTable, Memory>
    requires ascend { AscendByXid (map held_open held.now) }
    requires floors { AreFloors held.now }
    requires setting { checksum ≤ 1 }
    ensures { IfOk result (λ opened. opened ≡ map (standing_held place checksum) held.now) }
{
    let mut opened = OpenTable::new(alloc);
    for pair in held {
        let standing = Standing {
            floor: pair.1,
            entry: 0,
            rows: RowList::empty(),
            place,
            checksum,
        };
        opened.open(&pair.0, standing)?;
    }
    Ok(opened)
}

/// Sorts the entries of a node's log, read from a point on, into its settled branches.
///
/// Contracts see it as what it keeps. What it promises is said over all that it may have taken and given, by
/// `HoldsReading`.
#[derive(Debug, Drop)]
pub struct Sorter {
    alloc: Global,
    last: Key,
    node: u32,
    first: u64,
    here: Position,
    waiting: Waiting,
    trail: Trail,
    stopped: Option<SortFault>,
}

impl Model for Sorter {
    ghost use Rattle.cdc_sorter.specs.Sorting.{Sorting};

    ghost Value = { Sorting };

    ghost use Rattle.cdc_sorter.specs.Seen.{sorter_seen, IsKeptSorter};

    ghost view = { sorter_seen };

    ghost invariant = { IsKeptSorter };
}

impl Sorter {
    /// A sorter at the start of a node's log, which gives all branches.
    pub fn new(alloc: Global, node: u32) -> Sorter
        requires first { 1 ≤ node }
        requires last { node ≤ 256 }
        ensures holds { HoldsReading result (record { last = specs_first_key; from = first_point; node = node }) [] [] }
        ensures sound { result.stopped ≡ None }
        ensures known { result.trail.known ≡ specs_first_key }
    {
        Sorter {
            alloc,
            last: first_key(),
            node,
            first: 1,
            here: Position {
                entry: 1,
                mark: 0,
                opened: OpenTable::new(alloc),
            },
            waiting: Waiting::new(alloc),
            trail: Trail::new(alloc, Place { file: 1, at: 0 }, 0, &first_key()),
            stopped: None,
        }
    }

    /// A sorter at a point of a node's log, which gives the branches that began from there on with keys above `last`. The
    /// branches that stand open there come in the order of their xids, each once.
    pub fn resumed(alloc: Global, node: u32, cut: &NodeCut, last: &Key) -> Result<Sorter, Memory>
        requires first { 1 ≤ node }
        requires last { node ≤ 256 }
        requires ascend { AscendByXid (map held_open cut.now.held) }
        ensures holds { IfOk result (λ sorter. HoldsReading sorter (record { last = last.now; from = cut.now; node = node }) [] []) }
        ensures sound { IfOk result (λ sorter. sorter.stopped ≡ None) }
        ensures known { IfOk result (λ sorter. sorter.trail.known ≡ last.now) }
    {
        Ok(Sorter {
            alloc,
            last: *last,
            node,
            first: cut.entry,
            here: Position {
                entry: cut.entry,
                mark: cut.mark,
                opened: held_open(alloc, cut.held.as_slice(), cut.place, cut.checksum)?,
            },
            waiting: Waiting::new(alloc),
            trail: Trail::new(alloc, cut.place, cut.checksum, last),
            stopped: None,
        })
    }

    // Drops the ended branches that no cut can want, where there may be many, and memory to tell them.
    fn sweep(&mut self)
        ensures holds { (reading : SortReading) (history : List LogEntry) (gave : List CommittedBranch)
            → HoldsReading self.old reading history gave → HoldsReading self.new reading history gave }
        ensures known { self.new.trail.known ≡ self.old.trail.known }
        ensures kept { self.new.stopped ≡ self.old.stopped }
    {
        if !self.trail.is_due() {
            return;
        }
        let Ok(numbers) = begun_in_order(self.alloc, &self.here.opened, self.trail.recent()) else {
            return;
        };
        self.trail.sweep(numbers.as_slice());
    }

    /// Takes the next entry. A fault is the entry's own behind those taken before it, and it is answered from then on
    /// whatever comes. On `Memory` nothing has changed, and the entry is let go. Numbers of entries stay below 2^64.
    pub fn take(&mut self, entry: Entry) -> Result<(), SortError>
        ensures again { (fault : SortFault) → self.old.stopped ≡ Some fault → (result ≡ Err (Refuses fault)) × (self.new ≡ self.old) }
        ensures memory { result ≡ Err NoMemory → self.new ≡ self.old }
        ensures fault { (fault : SortFault) → result ≡ Err (Refuses fault) → self.new ≡ sorter_stopped fault self.old }
        ensures refused { (fault : SortFault) (reading : SortReading) (history : List LogEntry) (gave : List CommittedBranch)
            → HoldsReading self.old reading history gave → self.old.stopped ≡ None → result ≡ Err (Refuses fault)
            → entry_fault entry.kind (history_behind reading history) ≡ Some fault }
        ensures faulty { (fault : SortFault) (reading : SortReading) (history : List LogEntry) (gave : List CommittedBranch)
            → HoldsReading self.old reading history gave → self.old.stopped ≡ None
            → entry_fault entry.kind (history_behind reading history) ≡ Some fault → result ≡ Err (Refuses fault) }
        ensures taken { (reading : SortReading) (history : List LogEntry) (gave : List CommittedBranch)
            → HoldsReading self.old reading history gave → result ≡ Ok tt → reading.from.entry + length history + 1 < 2 ^ 64
            → (self.new.stopped ≡ None) × (entry_fault entry.kind (history_behind reading history) ≡ None)
            × HoldsReading self.new reading (entry ∷ history) gave }
        ensures known { (reading : SortReading) (history : List LogEntry) (gave : List CommittedBranch)
            → HoldsReading self.old reading history gave → reading.from.entry + length history + 1 < 2 ^ 64
            → self.new.trail.known ≡ self.old.trail.known }
    {
        if let Some(fault) = &self.stopped {
            return Err(refusal(fault));
        }
        let Entry {
            kind,
            at: _,
            end,
            checksum,
        } = entry;
        if let Some(fault) = self.here.fault(&kind) {
            let refused = refusal(&fault);
            self.stopped = Some(fault);
            return Err(refused);
        }
        match self.go_on(kind, end, checksum) {
            Ok(()) => {
                self.sweep();
                Ok(())
            }
            Err(_) => Err(SortError::Memory),
        }
    }

    /// The node's low-water mark: no branch at or below it is still to come.
    pub fn bound(&self) -> u64
        ensures { (reading : SortReading) (history : List LogEntry) (gave : List CommittedBranch)
            → HoldsReading self.now reading history gave → result ≡ low_of reading history }
    {
        self.here.low()
    }

    // Whether the first branch that waits is settled.
    fn is_ready(&self) -> bool
        ensures { result ≡ is_ready self.now }
    {
        match self.waiting.first() {
            Some(branch) => is_settled(self.here.low(), &branch.key),
            None => false,
        }
    }

    /// Gives the next settled branch; none exactly where all were given.
    pub fn pop(&mut self) -> Option<Branch>
        ensures none { (reading : SortReading) (history : List LogEntry) (gave : List CommittedBranch)
            → HoldsReading self.old reading history gave → IfNone result ((gave ≡ settled_behind reading history) × (self.new ≡ self.old)) }
        ensures some { (reading : SortReading) (history : List LogEntry) (gave : List CommittedBranch)
            → HoldsReading self.old reading history gave → IfSome result (λ branch. HoldsReading self.new reading history (gave ++ branch ∷ [])) }
        ensures kept { self.new.stopped ≡ self.old.stopped }
        ensures known { self.new.trail.known ≡ self.old.trail.known }
    {
        if !self.is_ready() {
            return None;
        }
        self.waiting.pop()
    }

    // The cut for a last key, of what the sorter keeps.
    fn cut_here(&self, last: &Key) -> Result<NodeCut, Memory>
        ensures { AscendByXid (branches_of self.now.here.opened) → IfOk result (λ cut. cut ≡ cut_of last.now self.now.first self.now.here self.now.trail) }
    {
        let opened = &self.here.opened;
        let stand = earliest_open(self.present(), self.first, opened);
        let stand = earliest_above(stand, last, self.trail.recent());
        let held = held_before(self.alloc, stand.entry, opened, self.trail.ended())?;
        Ok(NodeCut {
            entry: stand.entry,
            place: stand.place,
            mark: stand.mark,
            checksum: stand.checksum,
            held,
        })
    }

    /// The latest point from which the log may be read again, where all branches with keys of at most `last` are given and
    /// merged: every branch that is open or has a greater key began from there on. `last` isn't below the key up to which
    /// the sorter was told to forget, nor below the one that it began with. It takes time by what is open or kept.
    pub fn cut(&self, last: &Key) -> Result<NodeCut, Memory>
        ensures { (reading : SortReading) (history : List LogEntry) (gave : List CommittedBranch)
            → HoldsReading self.now reading history gave → IsStart (start_at reading.from) → IsAtMost self.now.trail.known last.now
            → IfOk result (λ cut. IsLatestPoint last.now reading.from reading.node (reverse history) cut) }
    {
        self.cut_here(last)
    }

    /// Drops what only cuts for lesser keys than `last` could want: from now on no cut is asked for a lesser one.
    pub fn forget(&mut self, last: &Key)
        ensures holds { (reading : SortReading) (history : List LogEntry) (gave : List CommittedBranch)
            → HoldsReading self.old reading history gave → HoldsReading self.new reading history gave }
        ensures known { self.new.trail.known ≡ (if is_gt (key_order last.now self.old.trail.known) then last.now else self.old.trail.known) }
        ensures kept { self.new.stopped ≡ self.old.stopped }
    {
        self.trail.forget(last);
    }
}

/// A law: what a sorter has given are the first of the settled branches of what it has taken.
pub fn gave_is_a_front()
    ensures { GaveIsAFront }
{}
