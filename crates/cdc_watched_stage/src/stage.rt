//! A stage with what waits for its commit.

ghost use Rattle.std.specs.Prelude.{◌≡◌, ℕ, ◌≤◌, ◌<◌, false, true, List, [], ◌∷◌, IsTrue, length};
ghost use Rattle.cdc_outside.specs.Count.{Rose};
ghost use Rattle.cdc_turns.specs.Turns.{is_move};

use crate::waits::{give_up, hand_on, keep};
use crate::watch::Watch;
use cdc_base::Memory;
use cdc_dump_stage::DumpStage;
use cdc_item::DumpItem;
use cdc_model::Unit;
use cdc_outside::{Disk, LaneOut};
use cdc_turns::Turn;
use std::alloc::Global;
use std::collections::VecDeque;

/// An output's stage, the units that it appended and that aren't published yet, and whether it hands on still.
#[derive(Drop)]
pub struct WatchedStage {
    stage: DumpStage,
    waits: VecDeque<Unit>,
    hands: bool,
}

impl WatchedStage {
    ghost use Rattle.cdc_item.specs.declared.dump_item.DumpItem.{DumpItem};
    ghost use Rattle.cdc_dump_stage.specs.declared.dump_end.DumpEnd.TheVariants.{Whole};
    ghost use Rattle.cdc_dump_stage.specs.Disks.{disk_words};
    ghost use Rattle.cdc_dump_stage.specs.Taking.{end_again};
    ghost use Rattle.cdc_dump_stage.specs.Standing.{Carries, FailsBy, HasTaken, IsStanding, IsTurn};
    ghost use Rattle.cdc_watched_stage.specs.Handing.{IsWatching, HandsOn};

    /// A stage that has published all that it appended.
    pub fn new(alloc: Global, stage: DumpStage) -> WatchedStage
        requires { stage.dumper.appended.count ≡ stage.dumper.published.count }
        ensures stage { result.stage ≡ stage }
        ensures waits { result.waits.items ≡ [] }
        ensures hands { result.hands ≡ true }
        ensures watching { IsWatching result }
    {
        WatchedStage {
            stage,
            waits: VecDeque::new(alloc),
            hands: true,
        }
    }

    /// The stage.
    pub fn stage(&self) -> &DumpStage
        ensures { result.now ≡ self.now.stage }
    {
        &self.stage
    }

    /// The stage. What waits is dropped.
    pub fn into_stage(self) -> DumpStage
        ensures { result ≡ self.stage }
    {
        self.stage
    }

    /// Whether it hands units on: false from when there was no room for one that was to wait.
    pub fn hands_on(&self) -> bool
        ensures { result ≡ self.now.hands }
    {
        self.hands
    }

    // Whether the item that was taken appended a unit that is to wait, where so many were appended before.
    fn lets_wait(&self, before: u64) -> bool
        ensures waits { result ≡ true → (self.now.hands ≡ true) × (before < self.now.stage.dumper.appended.count) }
        ensures none { result ≡ false → self.now.hands ≡ true → self.now.stage.dumper.appended.count ≤ before }
    {
        self.hands && before < self.stage.appended().count
    }

    // Takes an item, and hands on what is published then.
    fn take<D: Disk, W: Watch>(&mut self, disk: &mut D, item: DumpItem, watch: &mut W)
        requires going { self.old.stage.ended ≡ false }
        requires standing { IsStanding (disk_words D.tells D.seen D.synced D.pending D.may_leave D.moment D.left_since D.faults) self.old.stage disk.old }
        requires watching { IsWatching self.old }
        ensures took { HasTaken self.old.stage (item ∷ []) self.new.stage }
        ensures carries { IsTrue D.tells → Carries (disk_words D.tells D.seen D.synced D.pending D.may_leave D.moment D.left_since D.faults) self.old.stage disk.old (item ∷ []) self.new.stage disk.new }
        ensures standing { IsStanding (disk_words D.tells D.seen D.synced D.pending D.may_leave D.moment D.left_since D.faults) self.new.stage disk.new }
        ensures fails { FailsBy (disk_words D.tells D.seen D.synced D.pending D.may_leave D.moment D.left_since D.faults) self.old.stage disk.old self.new.stage disk.new }
        ensures later { D.faults disk.old ≤ D.faults disk.new }
        ensures watching { IsWatching self.new }
        ensures hands { HandsOn W.kept W.ended self.old (item ∷ []) self.new watch.old watch.new }
    {
        let before = self.stage.appended().count;
        self.stage.take(disk, &item);
        let count = self.stage.published().count;
        if !self.lets_wait(before) {
            hand_on(&mut self.waits, count, watch);
            return;
        }
        match keep(&mut self.waits, item) {
            Ok(()) => hand_on(&mut self.waits, count, watch),
            Err(Memory) => {
                hand_on(&mut self.waits, count, watch);
                give_up(&mut self.waits, watch);
                self.hands = false;
            }
        }
    }

    /// One turn, as `DumpStage::turn`; then the units that are published go on to the watch, in order.
    ///
    /// `Moved` where an item was taken, `Blocked` where the lane was empty, `Done` where the window's End was taken before.
    /// Where there is no room for a unit that is to wait, the watch is ended behind those that are published, and none is
    /// handed on from then on. Whoever drives the stage ends the watch behind the pass's last End.
    pub fn turn_watched<D: Disk, O: LaneOut<DumpItem>, W: Watch>(
        &mut self,
        disk: &mut D,
        lane: &mut O,
        watch: &mut W,
    ) -> Turn
        requires standing { IsStanding (disk_words D.tells D.seen D.synced D.pending D.may_leave D.moment D.left_since D.faults) self.old.stage disk.old }
        requires watching { IsWatching self.old }
        // What came off the lane, where it led, and whatever transactions the units are of: nothing of them is lost. And
        // what of it was appended goes on to the watch in order, each unit once it is published.
        ensures took { (items : List DumpItem) × O.moved lane.old items lane.new × IsTurn self.old.stage items self.new.stage result
            × (IsTrue D.tells → Carries (disk_words D.tells D.seen D.synced D.pending D.may_leave D.moment D.left_since D.faults) self.old.stage disk.old items self.new.stage disk.new)
            × HandsOn W.kept W.ended self.old items self.new watch.old watch.new }
        ensures standing { IsStanding (disk_words D.tells D.seen D.synced D.pending D.may_leave D.moment D.left_since D.faults) self.new.stage disk.new }
        ensures watching { IsWatching self.new }
        ensures blocked { result ≡ Turn.Blocked → O.empty lane.new }
        ensures blocks { result ≡ Turn.Blocked → Rose (O.blocks lane.old) (O.blocks lane.new) }
        ensures still { is_move result ≡ false → disk.new ≡ disk.old }
        ensures rests { is_move result ≡ false → (self.new ≡ self.old) × (watch.new ≡ watch.old) }
        ensures fails { FailsBy (disk_words D.tells D.seen D.synced D.pending D.may_leave D.moment D.left_since D.faults) self.old.stage disk.old self.new.stage disk.new }
        ensures later { D.faults disk.old ≤ D.faults disk.new }
        // Where the stage is whole nothing waits.
        ensures none { self.new.stage.end ≡ Whole → self.new.waits.items ≡ [] }
    {
        if self.stage.has_ended() {
            return Turn::Done;
        }
        match lane.pop() {
            None => Turn::Blocked,
            Some(item) => {
                self.take(disk, item, watch);
                Turn::Moved
            }
        }
    }

    /// Opens the next window of a stage that has taken the End: one that was whole takes units again.
    pub fn again(&mut self)
        requires ended { self.old.stage.ended ≡ true }
        requires watching { IsWatching self.old }
        ensures dumper { (self.new.stage.dumper ≡ self.old.stage.dumper) × (self.new.stage.waiting ≡ self.old.stage.waiting) }
        ensures end { self.new.stage.end ≡ end_again self.old.stage.end }
        ensures ended { self.new.stage.ended ≡ false }
        ensures waits { self.new.waits.items ≡ self.old.waits.items }
        ensures hands { self.new.hands ≡ self.old.hands }
        ensures watching { IsWatching self.new }
    {
        self.stage.again();
    }
}
