//! Where connections come in.

ghost use Rattle.std.specs.Prelude.{◌≡◌, ℕ, ◌<◌, ◌≤◌, ◌∷◌, [], ◌++◌, Bool, IsTrue, List, length, IfOk, IfSome, IfNone, OnErr};
ghost use Rattle.cdc_outside.specs.Count.{RisesOnErr};
ghost use Rattle.cdc_outside.specs.Door.{Shuts, IsFresh};
ghost use Rattle.cdc_outside.specs.Link.{Served};

use crate::failed::Failed;
use crate::link::Link;

/// A door: it gives one connection after another, until it is shut.
///
/// A call takes no memory, and leaves each meaning as it was but for what its clauses say. `next` answers `Failed`
/// only where the count of faults rose in this call.
pub trait Door: Drop {
    type L: Link + Send;

    /// Whether doors of this type tell their links. A real port doesn't.
    ghost tells: { Bool };

    /// Whether it has answered that no link comes any more. Told by every door.
    ghost shut: { Self → Bool };

    /// The inputs of the links that were given out, where it tells.
    ghost handed: { Self → List (List ℕ) };

    /// The links that were handed back, where it tells.
    ghost served: { Self → List Served };

    /// How often it has failed, a count that stands still at `u64`'s end.
    ghost faults: { Self → ℕ };

    /// The next link, from which nothing was read and to which nothing was written; none where the door is shut.
    /// A shut door stays shut.
    fn next(&mut self) -> Result<Option<Self::L>, Failed>
        ensures shut { Shuts (shut self.old) (shut self.new) result }
        ensures some { IsTrue tells → IfOk result (λ given. IfSome given (λ link.
            IsFresh (Self.L.input link) (Self.L.left link) (Self.L.written link) (Self.L.faults link)
            × (handed self.new ≡ handed self.old ++ Self.L.input link ∷ []))) }
        ensures none { IsTrue tells → IfOk result (λ given. IfNone given (handed self.new ≡ handed self.old)) }
        ensures err { IsTrue tells → OnErr result (handed self.new ≡ handed self.old) }
        ensures served { served self.new ≡ served self.old }
        ensures faults { RisesOnErr (faults self.old) (faults self.new) result };

    /// Takes a link back that has ended, with the number of its end.
    fn back(&mut self, link: Self::L, end: u8)
        requires { IsTrue tells → length (served self.old) < length (handed self.old) }
        ensures served { IsTrue tells → served self.new ≡ served self.old ++ record {
          input = Self.L.input link;
          written = Self.L.written link;
          faults = Self.L.faults link;
          ending = end;
        } ∷ [] }
        ensures handed { handed self.new ≡ handed self.old }
        ensures shut { shut self.new ≡ shut self.old }
        ensures faults { faults self.new ≡ faults self.old };

    ghost served_within: { (door : Self) → IsTrue tells → length (served door) ≤ length (handed door) };

    ghost links_tell: { IsTrue tells → IsTrue Self.L.tells };
}
