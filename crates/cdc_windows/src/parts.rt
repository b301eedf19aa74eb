//! What a pass asks of its jobs beside their turns.

ghost use Rattle.std.specs.Prelude.{◌≡◌, ℕ, List, IfOk, IfSome, IsSome};
ghost use Rattle.cdc_base.specs.declared.key.Key.{Key};
ghost use Rattle.cdc_item.specs.declared.node_item.NodeItem.{NodeItem};
ghost use Rattle.cdc_model.specs.Restart.{RestartPoint, IsAtMost};
ghost use Rattle.cdc_windows.specs.declared.reached.Reached.{Reached};
ghost use Rattle.cdc_windows.specs.Rereading.{Rereading};

use crate::reached::Reached;
use cdc_base::{Key, Memory};
use cdc_item::NodeItem;
use cdc_model::NodeCut;
use cdc_turns::NodeTurns;

/// A node's job.
pub trait NodePart: NodeTurns<NodeItem> {
    /// What it tells of being read again.
    ghost rereading: { Rereading Self };

    /// Whether its reading is over, so that no further window gives anything of it.
    fn is_over(&self) -> bool
        ensures { result ≡ rereading.over self.now };

    /// The point from which it is read again behind a last key; none only where it has forgotten up to a greater one. It takes
    /// memory for the branches that stand open there.
    fn cut(&self, last: &Key) -> Result<Option<NodeCut>, Memory>
        ensures point { IfOk result (λ cut. IfSome cut (rereading.may_restart self.now last.now)) }
        ensures there { IsAtMost (rereading.known self.now) last.now → IfOk result (λ cut. IsSome cut) };

    /// Drops what it keeps for points from which it is read again behind keys of at most this one. It takes no memory.
    fn forget(&mut self, last: &Key)
        ensures sent { (window : ℕ) (items : List NodeItem) → Self.account.sent self.old window items → Self.account.sent self.new window items }
        ensures ended { Self.account.ended self.new ≡ Self.account.ended self.old }
        ensures known { IsAtMost (rereading.known self.old) last.now → IsAtMost (rereading.known self.new) last.now }
        ensures read_on { rereading.read_on self.old self.new };

    ghost turns_read_on: { (a b : Self) → Self.account.turned a b → rereading.read_on a b };

    ghost turns_keep_known: { (a b : Self) → Self.account.turned a b → rereading.known b ≡ rereading.known a };

    ghost reads_more: { (a b c : Self) → rereading.read_on a b → rereading.read_on b c → rereading.read_on a c };
}

/// The merge job.
pub trait MergePart {
    /// How far it came.
    ghost came: { Self → Reached };

    /// How far it came.
    fn reached(&self) -> Reached
        ensures { result ≡ came self.now };
}
