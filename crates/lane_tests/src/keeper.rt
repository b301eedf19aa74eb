//! An out's job: it counts what comes.

ghost use Rattle.std.specs.Prelude.{◌≡◌, false};

use crate::item::Item;
use cdc_lane::PlainLane;
use cdc_outside::LaneOut;
use cdc_turns::{DumpTurns, Turn};

/// Counts the numbers that come, and how often one isn't the next one.
#[derive(Debug, Drop)]
pub struct Keeper {
    pub next: u32,
    pub wrong: u32,
    pub ends: u32,
    pub ended: bool,
}

impl Keeper {
    ghost use Rattle.lane_tests.specs.Item.{is_closing};

    // Notes what came.
    fn note(&mut self, item: Item)
        requires { self.old.ended ≡ false }
        ensures { self.new.ended ≡ is_closing item }
    {
        match item {
            Item::Number(number) => {
                if number != self.next {
                    self.wrong = self.wrong.saturating_add(1);
                }
                self.next = number.saturating_add(1);
            }
            Item::End => {
                self.ends = self.ends.saturating_add(1);
                self.ended = true;
            }
        }
    }
}

impl DumpTurns<Item> for Keeper {
    ghost use Rattle.lane_tests.specs.Jobs.{keeper_account};

    ghost account = { keeper_account };

    fn turn(&mut self, lane: &mut PlainLane<Item>) -> Turn {
        if self.ended {
            return Turn::Done;
        }
        match lane.pop() {
            Some(item) => {
                self.note(item);
                Turn::Moved
            }
            None => Turn::Blocked,
        }
    }

    fn has_ended(&self) -> bool {
        self.ended
    }

    fn again(&mut self) {
        self.ended = false;
    }

    ghost closes = { λ job window items got. got };

    ghost starts = { λ job. tt };

    ghost adds = { λ a b c xs ys x y. tt };
}
