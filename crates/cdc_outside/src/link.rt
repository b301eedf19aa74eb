//! A connection to one client.

ghost use Rattle.std.specs.Prelude.{◌≡◌, ℕ, ◌≤◌, ◌++◌, Bool, IsTrue, List, length, IfOk, OnOk, OnErr};
ghost use Rattle.cdc_outside.specs.Count.{RisesOnErr};
ghost use Rattle.cdc_outside.specs.Link.{Receives};
ghost use Rattle.cdc_outside.specs.Sink.{WritesTo};

use crate::failed::Failed;

/// A connection: bytes that come in, and bytes that go out.
///
/// A call takes no memory, and leaves each meaning as it was but for what its clauses say. It answers `Failed`
/// only where the count of faults rose in this call.
pub trait Link: Drop {
    /// Whether links of this type tell their bytes. A real socket doesn't.
    ghost tells: { Bool };

    /// All bytes that come in, from the first on, where it tells. No call changes them.
    ghost input: { Self → List ℕ };

    /// The bytes that are still to come in, where it tells.
    ghost left: { Self → List ℕ };

    /// All bytes that went out, where it tells.
    ghost written: { Self → List ℕ };

    /// How often it has failed, a count that stands still at `u64`'s end.
    ghost faults: { Self → ℕ };

    /// Puts the next bytes at the front of `into`, and answers how many. It answers 0 exactly where no byte is to
    /// come or `into` is empty. On `Failed` none was taken in. What `into` has behind the bytes, and all of `into`
    /// after `Failed`, is unknown.
    fn read(&mut self, into: &mut [u8]) -> Result<usize, Failed>
        ensures within { IfOk result (λ read. read ≤ length into.old) }
        ensures ok { IsTrue tells → IfOk result (λ read. Receives (left self.old) into.new read (left self.new)) }
        ensures err { IsTrue tells → OnErr result (left self.new ≡ left self.old) }
        ensures input { input self.new ≡ input self.old }
        ensures written { written self.new ≡ written self.old }
        ensures faults { RisesOnErr (faults self.old) (faults self.new) result };

    /// Sends all bytes. On `Failed` it has sent a front of them, maybe none or all.
    fn write(&mut self, bytes: &[u8]) -> Result<(), Failed>
        ensures ok { IsTrue tells → OnOk result (written self.new ≡ written self.old ++ bytes.now) }
        ensures err { IsTrue tells → OnErr result (WritesTo (written self.old) bytes.now (written self.new)) }
        ensures input { input self.new ≡ input self.old }
        ensures left { left self.new ≡ left self.old }
        ensures faults { RisesOnErr (faults self.old) (faults self.new) result };

    ghost left_ends_input: { (link : Self) → IsTrue tells → (gone : List ℕ) × (input link ≡ gone ++ left link) };
}
