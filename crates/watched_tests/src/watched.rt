//! A stage that hands on, with its disk and its watch.

ghost use Rattle.std.specs.Prelude.{◌≡◌, false};

use cdc_dump_stage::DumpStage;
use cdc_dumper::Dumper;
use cdc_item::DumpItem;
use cdc_lane::PlainLane;
use cdc_outside::Disk;
use cdc_turns::Turn;
use cdc_watched_stage::{MemWatch, WatchedStage};
use std::alloc::Global;
use std::marker::Model;
use std::test::Fail;

/// A stage together with its disk and its watch, which are as the stage left them.
#[derive(Drop)]
pub struct Watched<D: Disk> {
    stage: WatchedStage,
    disk: D,
    watch: MemWatch,
}

impl<D: Disk> Model for Watched<D> {
    ghost use Rattle.cdc_dump_stage.specs.Disks.{disk_words};
    ghost use Rattle.cdc_dump_stage.specs.Standing.{IsStanding};
    ghost use Rattle.cdc_watched_stage.specs.declared.stage.WatchedStage.{WatchedStage};
    ghost use Rattle.cdc_watched_stage.specs.Handing.{IsWatching};

    ghost Value = { WatchedStage };

    ghost view = { λ w. w.stage };

    ghost invariant = { λ w. IsStanding (disk_words D.tells D.seen D.synced D.pending D.may_leave D.moment D.left_since D.faults) w.stage.stage w.disk × IsWatching w.stage };
}

impl<D: Disk> Watched<D> {
    /// The stage of the output that a disk has, with a watch that keeps at most so many units.
    pub fn over(alloc: Global, disk: D, most: usize) -> Result<Watched<D>, Fail>
        requires untold { D.tells ≡ false }
    {
        let mut disk = disk;
        let Ok(dumper) = Dumper::open(&mut disk) else {
            return Err("not opened")?;
        };
        Ok(Watched {
            stage: WatchedStage::new(alloc, DumpStage::new(dumper, None)),
            disk,
            watch: MemWatch::new(alloc, most),
        })
    }

    /// One turn.
    pub fn turn(&mut self, lane: &mut PlainLane<DumpItem>) -> Turn {
        self.stage
            .turn_watched(&mut self.disk, lane, &mut self.watch)
    }

    /// Opens the next window. False where the open one hasn't ended.
    pub fn again(&mut self) -> bool {
        if !self.stage.stage().has_ended() {
            return false;
        }
        self.stage.again();
        true
    }

    /// The stage.
    pub fn stage(&self) -> &DumpStage {
        self.stage.stage()
    }

    /// The watch.
    pub fn watch(&self) -> &MemWatch {
        &self.watch
    }

    /// The disk, as the stage left it.
    pub fn into_disk(self) -> D {
        let Watched { disk, .. } = self;
        disk
    }
}
