//! The merge job between one node and one out: it hands on what comes.

ghost use Rattle.std.specs.Prelude.{◌≡◌, length};
ghost use Rattle.lane_tests.specs.Jobs.{TakesOne};

use crate::feeder::give;
use crate::item::Item;
use cdc_lane::PlainLane;
use cdc_outside::LaneOut;
use cdc_turns::{MergeTurns, Turn};

/// What it does next: it takes an item, gives a number that it took, gives the End, or nothing more.
#[derive(Clone, Copy, Debug, PartialEq, Eq)]
pub enum State {
    Taking,
    Holding(u32),
    Ending,
    Over,
}

// Takes the next item off a lane.
fn take(lane: &mut PlainLane<Item>) -> (Turn, State)
    ensures { TakesOne lane.old lane.new result.0 result.1 }
{
    match lane.pop() {
        Some(Item::Number(number)) => (Turn::Moved, State::Holding(number)),
        Some(Item::End) => (Turn::Moved, State::Ending),
        None => (Turn::Blocked, State::Taking),
    }
}

/// Hands items on, one after another.
#[derive(Debug, Drop)]
pub struct Relay {
    pub state: State,
}

impl MergeTurns<Item, Item> for Relay {
    ghost use Rattle.lane_tests.specs.Jobs.{relay_account};

    ghost account = { relay_account };

    fn turn(&mut self, ins: &mut [PlainLane<Item>], outs: &mut [PlainLane<Item>]) -> Turn {
        match self.state {
            State::Over => Turn::Done,
            State::Taking => {
                let (turn, state) = take(&mut ins[0]);
                self.state = state;
                turn
            }
            State::Holding(number) => {
                if !give(&mut outs[0], Item::Number(number)) {
                    return Turn::Blocked;
                }
                self.state = State::Taking;
                Turn::Moved
            }
            State::Ending => {
                if !give(&mut outs[0], Item::End) {
                    return Turn::Blocked;
                }
                self.state = State::Over;
                Turn::Moved
            }
        }
    }

    fn again(&mut self) {
        self.state = State::Taking;
    }

    ghost use Rattle.lane_tests.specs.Laws.{relay_took_all, relay_gave_all};

    ghost closes_ins = { λ job window takes gives did. did.0 };

    ghost closes_outs = { λ job window takes gives did. did.1 };

    ghost took_all = { relay_took_all };

    ghost gave_all = { relay_gave_all };

    ghost starts = { λ job. tt };

    ghost adds = { λ a b c x y. tt };
}
