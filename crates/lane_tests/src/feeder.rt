//! A node's job: it sends the numbers of a window, one after another.

ghost use Rattle.std.specs.Prelude.{◌≡◌};
ghost use Rattle.lane_tests.specs.Jobs.{GivesOne};

use crate::item::Item;
use cdc_lane::PlainLane;
use cdc_outside::LaneIn;
use cdc_turns::{NodeTurns, Turn};

/// Puts an item onto a lane: whether it went in.
pub fn give(lane: &mut PlainLane<Item>, item: Item) -> bool
    ensures { GivesOne lane.old lane.new item result }
{
    match lane.push(item) {
        Ok(()) => true,
        Err(_) => false,
    }
}

/// Sends the numbers from `next` on that are below `upto`, and then the End; the next window has `step` more.
#[derive(Debug, Drop)]
pub struct Feeder {
    pub next: u32,
    pub upto: u32,
    pub step: u32,
    pub ended: bool,
}

impl NodeTurns<Item> for Feeder {
    ghost use Rattle.lane_tests.specs.Jobs.{feeder_account};

    ghost account = { feeder_account };

    fn turn(&mut self, lane: &mut PlainLane<Item>) -> Turn {
        if self.ended {
            return Turn::Done;
        }
        if self.next < self.upto {
            if !give(lane, Item::Number(self.next)) {
                return Turn::Blocked;
            }
            self.next += 1;
            return Turn::Moved;
        }
        if !give(lane, Item::End) {
            return Turn::Blocked;
        }
        self.ended = true;
        Turn::Moved
    }

    fn again(&mut self) {
        self.upto = self.upto.saturating_add(self.step);
        self.ended = false;
    }

    ghost closes = { λ job window items sent. sent };

    ghost starts = { λ job. tt };

    ghost adds = { λ a b c x y. tt };
}
