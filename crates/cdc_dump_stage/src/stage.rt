//! The stage of an output.

ghost use Rattle.std.specs.Prelude.{◌≡◌, ℕ, ◌≤◌, false, true, List, [], ◌∷◌, IsTrue};
ghost use Rattle.cdc_outside.specs.Count.{Rose};
ghost use Rattle.cdc_turns.specs.Turns.{is_move};
ghost use Rattle.cdc_dump_stage.specs.declared.dump_end.DumpEnd.TheVariants.{Open};

use crate::dump_end::DumpEnd;
use crate::group::{commit, write_unit};
use crate::refusal::{refusal, starting_end};
use cdc_base::Key;
use cdc_cell::DiskFault;
use cdc_dumper::Dumper;
use cdc_item::DumpItem;
use cdc_model::Unit;
use cdc_outside::{Disk, LaneOut};
use cdc_records::Front;
use cdc_turns::Turn;

/// An output's stage: its dumper, how it ended, whether the window's End has come, and how many bytes wait to be published.
#[derive(Debug, Drop)]
pub struct DumpStage {
    dumper: Dumper,
    end: DumpEnd,
    ended: bool,
    waiting: u64,
    ghost has_end: { ended ≡ true → end ≡ Open → ⊥ },
}

impl DumpStage {
    ghost use Rattle.cdc_item.specs.declared.dump_item.DumpItem.{DumpItem};
    ghost use Rattle.cdc_item.specs.declared.dump_item.DumpItem.TheVariants.{Unit as OneUnit, End as TheEnd};
    ghost use Rattle.cdc_dump_stage.specs.Disks.{disk_words};
    ghost use Rattle.cdc_dump_stage.specs.Taking.{Leads, Appends, PublishesOn, StartsAs, takes_units, end_again};
    ghost use Rattle.cdc_dump_stage.specs.Standing.{Carries, FailsBy, HasTaken, IsStanding, IsTurn};

    /// The stage of an output, where the pass goes on from a checkpoint with this count and last key, or from none.
    pub fn new(dumper: Dumper, start: Option<(u64, Key)>) -> DumpStage
        ensures dumper { result.dumper ≡ dumper }
        ensures starts { StartsAs dumper.published start result.end }
        ensures fresh { (result.ended ≡ false) × (result.waiting ≡ 0) }
    {
        let end = starting_end(&dumper.published(), &start);
        DumpStage {
            dumper,
            end,
            ended: false,
            waiting: 0,
        }
    }

    /// How it ended. It isn't open where it has taken the window's End.
    pub fn end(&self) -> &DumpEnd
        ensures end { result.now ≡ self.now.end }
        ensures told { self.now.ended ≡ true → result.now ≡ Open → ⊥ }
    {
        &self.end
    }

    /// Whether it has taken the window's End.
    pub fn has_ended(&self) -> bool
        ensures { result ≡ self.now.ended }
    {
        self.ended
    }

    /// How far its output is published.
    pub fn published(&self) -> Front
        ensures { result ≡ self.now.dumper.published }
    {
        self.dumper.published()
    }

    /// How far its output is appended: behind this Front the next unit stands.
    pub fn appended(&self) -> Front
        ensures { result ≡ self.now.dumper.appended }
    {
        self.dumper.appended()
    }

    // Takes a unit, where the stage is open.
    fn take_open<D: Disk>(&mut self, disk: &mut D, unit: &Unit)
        requires open_still { takes_units self.old.end ≡ true }
        requires standing { IsStanding (disk_words D.tells D.seen D.synced D.pending D.may_leave D.moment D.left_since D.faults) self.old disk.old }
        ensures leads { Leads self.old.end self.old.dumper.appended (OneUnit unit.now) self.new.end self.new.dumper.appended }
        ensures appends { Appends self.old.dumper.appended (OneUnit unit.now) self.new.dumper.appended }
        ensures publishes { PublishesOn self.old.dumper self.new.dumper }
        ensures carries { IsTrue D.tells → Carries (disk_words D.tells D.seen D.synced D.pending D.may_leave D.moment D.left_since D.faults) self.old disk.old (OneUnit unit.now ∷ []) self.new disk.new }
        ensures standing { IsStanding (disk_words D.tells D.seen D.synced D.pending D.may_leave D.moment D.left_since D.faults) self.new disk.new }
        ensures ended { self.new.ended ≡ self.old.ended }
        ensures fails { FailsBy (disk_words D.tells D.seen D.synced D.pending D.may_leave D.moment D.left_since D.faults) self.old disk.old self.new disk.new }
        ensures later { D.faults disk.old ≤ D.faults disk.new }
    {
        self.dumper.keeps_shape();
        let front = self.dumper.appended();
        if let Some(end) = refusal(&front, unit) {
            self.end = end;
            return;
        }
        if unit.number <= front.count {
            return;
        }
        match write_unit(&mut self.dumper, disk, unit, &mut self.waiting) {
            Ok(()) => {}
            Err(DiskFault) => self.end = DumpEnd::Disk,
        }
    }

    // Takes a unit.
    fn take_unit<D: Disk>(&mut self, disk: &mut D, unit: &Unit)
        requires going { self.old.ended ≡ false }
        requires standing { IsStanding (disk_words D.tells D.seen D.synced D.pending D.may_leave D.moment D.left_since D.faults) self.old disk.old }
        ensures leads { Leads self.old.end self.old.dumper.appended (OneUnit unit.now) self.new.end self.new.dumper.appended }
        ensures appends { Appends self.old.dumper.appended (OneUnit unit.now) self.new.dumper.appended }
        ensures publishes { PublishesOn self.old.dumper self.new.dumper }
        ensures carries { IsTrue D.tells → Carries (disk_words D.tells D.seen D.synced D.pending D.may_leave D.moment D.left_since D.faults) self.old disk.old (OneUnit unit.now ∷ []) self.new disk.new }
        ensures standing { IsStanding (disk_words D.tells D.seen D.synced D.pending D.may_leave D.moment D.left_since D.faults) self.new disk.new }
        ensures ended { self.new.ended ≡ self.old.ended }
        ensures fails { FailsBy (disk_words D.tells D.seen D.synced D.pending D.may_leave D.moment D.left_since D.faults) self.old disk.old self.new disk.new }
        ensures later { D.faults disk.old ≤ D.faults disk.new }
    {
        self.dumper.keeps_shape();
        if self.end.is_open() {
            self.take_open(disk, unit);
        }
    }

    // Takes the window's End, and publishes all that was appended.
    fn take_end<D: Disk>(&mut self, disk: &mut D)
        requires going { self.old.ended ≡ false }
        requires standing { IsStanding (disk_words D.tells D.seen D.synced D.pending D.may_leave D.moment D.left_since D.faults) self.old disk.old }
        ensures leads { Leads self.old.end self.old.dumper.appended TheEnd self.new.end self.new.dumper.appended }
        ensures appends { Appends self.old.dumper.appended TheEnd self.new.dumper.appended }
        ensures publishes { PublishesOn self.old.dumper self.new.dumper }
        ensures carries { IsTrue D.tells → Carries (disk_words D.tells D.seen D.synced D.pending D.may_leave D.moment D.left_since D.faults) self.old disk.old (TheEnd ∷ []) self.new disk.new }
        ensures standing { IsStanding (disk_words D.tells D.seen D.synced D.pending D.may_leave D.moment D.left_since D.faults) self.new disk.new }
        ensures ended { self.new.ended ≡ true }
        ensures fails { FailsBy (disk_words D.tells D.seen D.synced D.pending D.may_leave D.moment D.left_since D.faults) self.old disk.old self.new disk.new }
        ensures later { D.faults disk.old ≤ D.faults disk.new }
    {
        self.dumper.keeps_shape();
        self.ended = true;
        if !self.end.is_open() {
            return;
        }
        self.waiting = 0;
        match commit(&mut self.dumper, disk) {
            Ok(()) => self.end = DumpEnd::Whole,
            Err(DiskFault) => self.end = DumpEnd::Disk,
        }
    }

    /// Takes an item that came off the lane, and does with it what is to be done.
    ///
    /// An open stage passes over a unit that the output has, appends the next one, and ends at any other (`Key`,
    /// `Differs`); at the End it publishes all that was appended. One that isn't open does nothing but take the End.
    pub fn take<D: Disk>(&mut self, disk: &mut D, item: &DumpItem)
        requires going { self.old.ended ≡ false }
        requires standing { IsStanding (disk_words D.tells D.seen D.synced D.pending D.may_leave D.moment D.left_since D.faults) self.old disk.old }
        ensures took { HasTaken self.old (item.now ∷ []) self.new }
        ensures carries { IsTrue D.tells → Carries (disk_words D.tells D.seen D.synced D.pending D.may_leave D.moment D.left_since D.faults) self.old disk.old (item.now ∷ []) self.new disk.new }
        ensures appends { Appends self.old.dumper.appended item.now self.new.dumper.appended }
        ensures publishes { PublishesOn self.old.dumper self.new.dumper }
        ensures standing { IsStanding (disk_words D.tells D.seen D.synced D.pending D.may_leave D.moment D.left_since D.faults) self.new disk.new }
        ensures fails { FailsBy (disk_words D.tells D.seen D.synced D.pending D.may_leave D.moment D.left_since D.faults) self.old disk.old self.new disk.new }
        ensures later { D.faults disk.old ≤ D.faults disk.new }
    {
        match item {
            DumpItem::Unit(unit) => self.take_unit(disk, unit),
            DumpItem::End => self.take_end(disk),
        }
    }

    /// One turn: takes an item off the lane, and does with it what is to be done.
    ///
    /// `Moved` where an item was taken, `Blocked` where the lane was empty, `Done` where the window's End was taken before.
    pub fn turn<D: Disk, O: LaneOut<DumpItem>>(&mut self, disk: &mut D, lane: &mut O) -> Turn
        requires { IsStanding (disk_words D.tells D.seen D.synced D.pending D.may_leave D.moment D.left_since D.faults) self.old disk.old }
        // What came off the lane, where it led, and whatever transactions the units are of: nothing of them is lost.
        ensures took { (items : List DumpItem) × O.moved lane.old items lane.new × IsTurn self.old items self.new result
            × (IsTrue D.tells → Carries (disk_words D.tells D.seen D.synced D.pending D.may_leave D.moment D.left_since D.faults) self.old disk.old items self.new disk.new) }
        ensures standing { IsStanding (disk_words D.tells D.seen D.synced D.pending D.may_leave D.moment D.left_since D.faults) self.new disk.new }
        ensures blocked { result ≡ Turn.Blocked → O.empty lane.new }
        ensures blocks { result ≡ Turn.Blocked → Rose (O.blocks lane.old) (O.blocks lane.new) }
        ensures still { is_move result ≡ false → disk.new ≡ disk.old }
        ensures fails { FailsBy (disk_words D.tells D.seen D.synced D.pending D.may_leave D.moment D.left_since D.faults) self.old disk.old self.new disk.new }
        ensures later { D.faults disk.old ≤ D.faults disk.new }
    {
        if self.ended {
            return Turn::Done;
        }
        match lane.pop() {
            None => Turn::Blocked,
            Some(item) => {
                self.take(disk, &item);
                Turn::Moved
            }
        }
    }

    /// Opens the next window of a stage that has taken the End: one that was whole takes units again.
    pub fn again(&mut self)
        requires { self.old.ended ≡ true }
        ensures dumper { (self.new.dumper ≡ self.old.dumper) × (self.new.waiting ≡ self.old.waiting) }
        ensures end { self.new.end ≡ end_again self.old.end }
        ensures ended { self.new.ended ≡ false }
    {
        self.ended = false;
        self.end = self.end.reopened();
    }
}
