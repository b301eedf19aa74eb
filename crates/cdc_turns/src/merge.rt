//! What the merge job promises.

ghost use Rattle.std.specs.Prelude.{◌≡◌, ℕ, true, length, List};
ghost use Rattle.std.specs.List.{AllZip, All};
ghost use Rattle.cdc_turns.specs.Account.{Passer};
ghost use Rattle.cdc_turns.specs.Ends.{EndsAs, NextMerge};
ghost use Rattle.cdc_turns.specs.Turns.{Passes, MergeSays};

use crate::item::LaneItem;
use crate::turn::Turn;
use cdc_lane::PlainLane;

/// The stage between the nodes' lanes and the outs' lanes.
pub trait MergeTurns<T: LaneItem, U: LaneItem>: Drop {
    /// What it tells of itself.
    ghost account: { Passer Self T U };

    /// One turn: one pop from a node's lane, or one push onto an out's lane, or neither.
    fn turn(&mut self, ins: &mut [PlainLane<T>], outs: &mut [PlainLane<U>]) -> Turn
        requires ins { length (account.took self.old) ≡ length ins.old }
        requires outs { length (account.gave self.old) ≡ length outs.old }
        ensures passes { Passes account self.old self.new ins.old ins.new outs.old outs.new result }
        ensures says { MergeSays account self.old self.new ins.old ins.new outs.old outs.new result };

    /// Opens the next window of a job that has ended.
    fn again(&mut self)
        requires { account.ended self.old ≡ true }
        ensures next { NextMerge account self.old self.new }
        ensures turned { account.turned self.old self.new };

    ghost closes_ins: { (job : Self) (window : ℕ) (takes : List (List T)) (gives : List (List U)) → account.did job window takes gives → AllZip (EndsAs T.is_end window) (account.took job) takes };

    ghost closes_outs: { (job : Self) (window : ℕ) (takes : List (List T)) (gives : List (List U)) → account.did job window takes gives → AllZip (EndsAs U.is_end window) (account.gave job) gives };

    ghost took_all: { (job : Self) → account.ended job ≡ true → All (λ taken. taken ≡ true) (account.took job) };

    ghost gave_all: { (job : Self) → account.ended job ≡ true → All (λ given. given ≡ true) (account.gave job) };

    ghost starts: { (job : Self) → account.turned job job };

    ghost adds: { (a b c : Self) → account.turned a b → account.turned b c → account.turned a c };
}
