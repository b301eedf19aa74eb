//! What an out's job promises.

ghost use Rattle.std.specs.Prelude.{◌≡◌, ℕ, true, List, [], ◌++◌};
ghost use Rattle.cdc_turns.specs.Account.{Taker};
ghost use Rattle.cdc_turns.specs.Ends.{EndsAs, NextWindow};
ghost use Rattle.cdc_turns.specs.Turns.{TakesItems, DumpSays};

use crate::item::LaneItem;
use crate::turn::Turn;
use cdc_lane::PlainLane;

/// An out's stage together with its disk.
pub trait DumpTurns<U: LaneItem>: Drop {
    /// What it tells of itself.
    ghost account: { Taker Self U };

    /// One turn: at most one item comes off the lane.
    fn turn(&mut self, lane: &mut PlainLane<U>) -> Turn
        ensures takes { TakesItems account self.old self.new lane.old lane.new result }
        ensures says { DumpSays account self.old self.new lane.old lane.new result };

    /// Whether it has taken the End of the open window.
    fn has_ended(&self) -> bool
        ensures { result ≡ account.ended self.now };

    /// Opens the next window of a job that has ended.
    fn again(&mut self)
        requires { account.ended self.old ≡ true }
        ensures next { NextWindow account.got self.old self.new }
        ensures turned { account.turned self.old [] self.new };

    ghost closes: { (job : Self) (window : ℕ) (items : List U) → account.got job window items → EndsAs U.is_end window (account.ended job) items };

    ghost starts: { (job : Self) → account.turned job [] job };

    ghost adds: { (a b c : Self) (xs ys : List U) → account.turned a xs b → account.turned b ys c → account.turned a (xs ++ ys) c };
}
