//! The stage of a node.

ghost use Rattle.std.specs.Prelude.{◌≡◌, ◌⊎◌, ◌≤◌, ◌<◌, ◌+◌, ◌^◌, if◌then◌else◌, ℕ, Bool, false, true, List, length, map, Some, None, IfOk, IfSome, IfNone};
ghost use Rattle.std.specs.Ordering.{is_gt};
ghost use Rattle.cdc_base.specs.Key.{key_order, first_key as specs_first_key};
ghost use Rattle.cdc_outside.specs.Count.{Rose};
ghost use Rattle.cdc_model.specs.Commits.{IsStart};
ghost use Rattle.cdc_model.specs.Openings.{AscendByXid};
ghost use Rattle.cdc_model.specs.Restart.{first_point, held_open, start_at, IsAtMost, IsLatestPoint};
ghost use Rattle.cdc_cutter.specs.Cutting.{IsGoingOn};
ghost use Rattle.cdc_item.specs.Item.{closes_node_window};
ghost use Rattle.cdc_reader.specs.declared.step.NodeEnd.TheVariants.{Open as GoesOn};
ghost use Rattle.cdc_turns.specs.Turns.{is_move};

use crate::reading::read_bytes;
use cdc_base::{Key, Memory, Place};
use cdc_item::NodeItem;
use cdc_model::{HeldList, NodeCut};
use cdc_outside::{LaneIn, Source};
use cdc_reader::{NodeEnd, Reader, Step};
use cdc_turns::Turn;
use std::alloc::Global;

/// The most bytes that one read asks for.
const PIECE: usize = 65_536;

/// A node's stage: its reader, the point from which the log is read, the item that waits for the lane, how many bytes it may
/// read in a window and how many of them are left in this one, whether the window's End was sent, and a place for what is read.
#[derive(Debug, Drop)]
pub struct NodeStage {
    reader: Reader,
    from: NodeCut,
    pending: Option<NodeItem>,
    window: u64,
    room: u64,
    ended: bool,
    piece: Vec<u8>,
    ghost whole_piece: { length piece.items ≡ 65_536 },
}

// The start of a log, as a point of it.
fn start_of_log(alloc: Global) -> NodeCut
    ensures { result ≡ first_point }
{
    NodeCut {
        entry: 1,
        place: Place { file: 1, at: 0 },
        mark: 0,
        checksum: 0,
        held: HeldList::new(alloc),
    }
}

// Whether an item closes its window.
fn is_end(item: &NodeItem) -> bool
    ensures { result ≡ closes_node_window item.now }
{
    match item {
        NodeItem::Branch(_) | NodeItem::Bound(_) => false,
        NodeItem::End => true,
    }
}

impl NodeStage {
    ghost use Rattle.cdc_item.specs.declared.node_item.NodeItem.{NodeItem};
    ghost use Rattle.cdc_item.specs.declared.node_item.NodeItem.TheVariants.{End as TheEnd};
    ghost use Rattle.cdc_node_stage.specs.Sending.{node_state, reading_of, with_item, HasSent, IsNodeStanding};
    ghost use Rattle.cdc_node_stage.specs.Preparing.{BeginsAs, HasSentAll, StandsAll, AllWasSent, item_of, Prepares, IsPushed, TurnsStage, opened_again};
    ghost use Rattle.cdc_node_stage.specs.Job.{source_words, HasAsked};

    /// The stage of a node whose log is read from its start, in windows of so many bytes; all branches are sent.
    pub fn new(alloc: Global, node: u32, window: u64) -> Result<NodeStage, Memory>
        requires first { 1 ≤ node }
        requires last { node ≤ 256 }
        ensures { IfOk result (λ stage. BeginsAs (node_state stage) (record { last = specs_first_key; from = first_point; node = node }) window) }
    {
        let reader = Reader::new(alloc, node)?;
        let piece = vec![in alloc; 0; PIECE]?;
        Ok(NodeStage {
            reader,
            from: start_of_log(alloc),
            pending: None,
            window,
            room: window,
            ended: false,
            piece,
        })
    }

    /// The stage of a node whose log is read from a point on; the branches that began from there on are sent, with keys above
    /// `last`. The branches that stand open there come in the order of their xids, each once.
    pub fn resumed(
        alloc: Global,
        node: u32,
        window: u64,
        cut: NodeCut,
        last: &Key,
    ) -> Result<NodeStage, Memory>
        requires first { 1 ≤ node }
        requires last { node ≤ 256 }
        requires file { 1 ≤ cut.place.file }
        requires byte { cut.place.at < 2 ^ 63 }
        requires ascend { AscendByXid (map held_open cut.held) }
        ensures { IfOk result (λ stage. BeginsAs (node_state stage) (record { last = last.now; from = cut; node = node }) window) }
    {
        let reader = Reader::resumed(alloc, node, &cut, last)?;
        let piece = vec![in alloc; 0; PIECE]?;
        Ok(NodeStage {
            reader,
            from: cut,
            pending: None,
            window,
            room: window,
            ended: false,
            piece,
        })
    }

    /// How far the log was read: its file, and the place behind the last byte.
    pub fn place(&self) -> Place
        ensures { result ≡ self.now.reader.log.place }
    {
        self.reader.place()
    }

    /// How the reading ended.
    pub fn end(&self) -> NodeEnd
        ensures { result ≡ self.now.reader.end }
    {
        self.reader.end()
    }

    /// Whether it has sent the window's End.
    pub fn has_ended(&self) -> bool
        ensures { result ≡ self.now.ended }
    {
        self.ended
    }

    /// The latest point from which the log may be read again, where all branches with keys of at most `last` are given and
    /// merged. `last` isn't below the key up to which the stage was told to forget, nor below the one that it began with.
    pub fn cut(&self, last: &Key) -> Result<NodeCut, Memory>
        ensures { (tells : Bool) (files : List (List ℕ)) (window : ℕ) (items : List NodeItem) (sent : HasSent tells files (node_state self.now) window items)
            → IsStart (start_at self.now.from) → IsAtMost self.now.reader.sorter.trail.known last.now
            → IfOk result (λ cut. IsLatestPoint last.now self.now.from self.now.reader.sorter.node sent.taken cut) }
    {
        self.reader.cut(last)
    }

    /// Drops what is kept for points to read this log again from, but for those that a key above `last` could want. What is
    /// read and sent stays as it is.
    pub fn forget(&mut self, last: &Key)
        ensures sent { (tells : Bool) (files : List (List ℕ)) (window : ℕ) (items : List NodeItem) → HasSent tells files (node_state self.old) window items → HasSent tells files (node_state self.new) window items }
        ensures standing { (tells : Bool) (files : List (List ℕ)) → IsNodeStanding tells files (node_state self.old) → IsNodeStanding tells files (node_state self.new) }
        ensures goes_by { (tells : Bool) (files : List (List ℕ)) → IsNodeStanding tells files (node_state self.old) → reading_of (node_state self.new) ≡ reading_of (node_state self.old) }
        ensures same { (self.new.from ≡ self.old.from) × (self.new.ended ≡ self.old.ended) × (self.new.window ≡ self.old.window) × (self.new.room ≡ self.old.room) × (self.new.reader.end ≡ self.old.reader.end) }
        ensures known { self.new.reader.sorter.trail.known ≡ (if is_gt (key_order last.now self.old.reader.sorter.trail.known) then last.now else self.old.reader.sorter.trail.known) }
    {
        self.reader.forget(last);
    }

    // What is sent of what comes next at hand; where the reading ended just now, its End waits for the next turn.
    fn item_next(&mut self, was_going: bool, step: Step) -> Option<NodeItem>
        requires { self.old.pending ≡ None }
        ensures held { with_item (node_state self.new) result ≡ with_item (node_state self.old) (Some (item_of step)) }
        ensures free { IfSome result (λ _. self.new.pending ≡ None) }
        ensures none { IfNone result ((was_going ≡ true) × (item_of step ≡ TheEnd)) }
        ensures some { IfSome result (λ item. item ≡ TheEnd → was_going ≡ false) }
    {
        match step {
            Step::Branch(branch) => Some(NodeItem::Branch(branch)),
            Step::Bound(bound) => Some(NodeItem::Bound(bound)),
            Step::Read(_) | Step::End => {
                if was_going {
                    self.pending = Some(NodeItem::End);
                    None
                } else {
                    Some(NodeItem::End)
                }
            }
        }
    }

    // Reads further bytes, where all that is settled was sent and there is room for them; else the window's End is to be sent.
    fn read_on<S: Source>(&mut self, source: &mut S) -> Option<NodeItem>
        requires free { self.old.pending ≡ None }
        requires going { self.old.ended ≡ false }
        requires goes_on { self.old.reader.end ≡ GoesOn }
        requires cuts { IsGoingOn self.old.reader.log.follower.cutter.state }
        requires stands { StandsAll S.tells (S.held source.old) (node_state self.old) }
        ensures prepares { Prepares S.tells (S.held source.old) (HasSentAll S.tells (S.held source.old) (node_state self.old)) (node_state self.old) (with_item (node_state self.new) result) result }
        ensures free { IfSome result (λ _. self.new.pending ≡ None) }
        ensures asks { HasAsked (source_words S.tells S.held S.sizes S.lowest S.faults) (node_state self.old) source.old (with_item (node_state self.new) result) source.new }
        ensures still { IfSome result (λ _. source.new ≡ source.old) }
    {
        let most = self.room.min(PIECE as u64) as usize;
        if most == 0 {
            return Some(NodeItem::End);
        }
        match read_bytes(&mut self.reader, source, &mut self.piece, most) {
            Some(count) => {
                self.room -= count as u64;
                None
            }
            None => {
                self.pending = Some(NodeItem::End);
                None
            }
        }
    }

    // What comes next of the log, where nothing waits; none where bytes were read or the reading ended.
    fn next_item<S: Source>(&mut self, source: &mut S) -> Option<NodeItem>
        requires free { self.old.pending ≡ None }
        requires going { self.old.ended ≡ false }
        requires stands { IsNodeStanding S.tells (S.held source.old) (node_state self.old) }
        ensures prepares { Prepares S.tells (S.held source.old) (HasSent S.tells (S.held source.old) (node_state self.old)) (node_state self.old) (with_item (node_state self.new) result) result }
        ensures free { IfSome result (λ _. self.new.pending ≡ None) }
        ensures asks { HasAsked (source_words S.tells S.held S.sizes S.lowest S.faults) (node_state self.old) source.old (with_item (node_state self.new) result) source.new }
        ensures still { IfSome result (λ _. source.new ≡ source.old) }
        ensures last { (source.new ≡ source.old) ⊎ AllWasSent S.tells (S.held source.old) (node_state self.old) }
    {
        let was_going = self.reader.is_going();
        match self.reader.at_hand() {
            Some(step) => self.item_next(was_going, step),
            None => self.read_on(source),
        }
    }

    // What is to be sent: what waits for the lane, or what comes next of the log; none where bytes were read or the reading ended.
    fn prepare<S: Source>(&mut self, source: &mut S) -> Option<NodeItem>
        requires going { self.old.ended ≡ false }
        requires stands { IsNodeStanding S.tells (S.held source.old) (node_state self.old) }
        ensures prepares { Prepares S.tells (S.held source.old) (HasSent S.tells (S.held source.old) (node_state self.old)) (node_state self.old) (with_item (node_state self.new) result) result }
        ensures free { IfSome result (λ _. self.new.pending ≡ None) }
        ensures asks { HasAsked (source_words S.tells S.held S.sizes S.lowest S.faults) (node_state self.old) source.old (with_item (node_state self.new) result) source.new }
        ensures still { IfSome result (λ _. source.new ≡ source.old) }
        ensures last { (source.new ≡ source.old) ⊎ AllWasSent S.tells (S.held source.old) (node_state self.old) }
    {
        match self.pending.take() {
            Some(item) => Some(item),
            None => self.next_item(source),
        }
    }

    // Sends an item, or lets it wait where the lane is full.
    fn send<L: LaneIn<NodeItem>>(&mut self, lane: &mut L, item: NodeItem) -> Turn
        requires { self.old.pending ≡ None }
        ensures pushed { (items : List NodeItem) × L.moved lane.old items lane.new × IsPushed (with_item (node_state self.old) (Some item)) item items (node_state self.new) result }
        ensures full { result ≡ Turn.Blocked → L.full lane.new }
        ensures blocks { result ≡ Turn.Blocked → Rose (L.blocks lane.old) (L.blocks lane.new) }
    {
        let ends = is_end(&item);
        match lane.push(item) {
            Ok(()) => {
                self.ended = ends;
                Turn::Moved
            }
            Err(back) => {
                self.pending = Some(back);
                Turn::Blocked
            }
        }
    }

    /// One turn: sends what waits for the lane, or what comes next of the log; or reads further bytes, where all that is
    /// settled was sent. Where the window's room is used up, or the reading is over, it sends the window's End.
    ///
    /// `Moved` where an item was sent, bytes were read or the reading ended; `Blocked` where the lane was full; `Done` where the
    /// window's End was sent before.
    pub fn turn<S: Source, L: LaneIn<NodeItem>>(&mut self, source: &mut S, lane: &mut L) -> Turn
        requires { IsNodeStanding S.tells (S.held source.old) (node_state self.old) }
        // What went onto the lane: whatever was sent before, it goes on so.
        ensures sent { (items : List NodeItem) × L.moved lane.old items lane.new × TurnsStage S.tells (S.held source.old) (node_state self.old) items (node_state self.new) result }
        ensures asks { HasAsked (source_words S.tells S.held S.sizes S.lowest S.faults) (node_state self.old) source.old (node_state self.new) source.new }
        ensures full { result ≡ Turn.Blocked → L.full lane.new }
        ensures blocks { result ≡ Turn.Blocked → Rose (L.blocks lane.old) (L.blocks lane.new) }
        ensures still { is_move result ≡ false → source.new ≡ source.old }
        // The source is asked only where all that was settled before was sent.
        ensures last { (source.new ≡ source.old) ⊎ AllWasSent S.tells (S.held source.old) (node_state self.old) }
    {
        if self.ended {
            return Turn::Done;
        }
        match self.prepare(source) {
            Some(item) => self.send(lane, item),
            None => Turn::Moved,
        }
    }

    /// Opens the next window of a stage that has sent the End: it may read so many bytes again.
    pub fn again(&mut self)
        requires { self.old.ended ≡ true }
        ensures state { node_state self.new ≡ opened_again (node_state self.old) }
        ensures next { (tells : Bool) (files : List (List ℕ)) (window : ℕ) (items : List NodeItem) → HasSent tells files (node_state self.old) window items → HasSent tells files (node_state self.new) (window + 1) items }
        ensures standing { (tells : Bool) (files : List (List ℕ)) → IsNodeStanding tells files (node_state self.old) → IsNodeStanding tells files (node_state self.new) }
    {
        self.ended = false;
        self.room = self.window;
    }
}
