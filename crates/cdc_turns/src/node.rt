//! What a node's job promises.

ghost use Rattle.std.specs.Prelude.{◌≡◌, ℕ, true, List};
ghost use Rattle.cdc_turns.specs.Account.{Sender};
ghost use Rattle.cdc_turns.specs.Ends.{EndsAs, NextWindow};
ghost use Rattle.cdc_turns.specs.Turns.{Sends, NodeSays};

use crate::item::LaneItem;
use crate::turn::Turn;
use cdc_lane::PlainLane;

/// A node's stage together with its source.
pub trait NodeTurns<T: LaneItem>: Drop {
    /// What it tells of itself.
    ghost account: { Sender Self T };

    /// One turn: at most one item goes onto the lane.
    fn turn(&mut self, lane: &mut PlainLane<T>) -> Turn
        ensures sends { Sends account self.old self.new lane.old lane.new result }
        ensures says { NodeSays account self.old self.new lane.old lane.new result };

    /// Opens the next window of a job that has ended.
    fn again(&mut self)
        requires { account.ended self.old ≡ true }
        ensures next { NextWindow account.sent self.old self.new }
        ensures turned { account.turned self.old self.new };

    ghost closes: { (job : Self) (window : ℕ) (items : List T) → account.sent job window items → EndsAs T.is_end window (account.ended job) items };

    ghost starts: { (job : Self) → account.turned job job };

    ghost adds: { (a b c : Self) → account.turned a b → account.turned b c → account.turned a c };
}
