//! Where printed bytes go.

ghost use Rattle.std.specs.Prelude.{◌≡◌, ℕ, ◌++◌, Bool, IsTrue, List, OnOk, OnErr};
ghost use Rattle.cdc_outside.specs.Count.{RisesOnErr};
ghost use Rattle.cdc_outside.specs.Sink.{WritesTo};

use crate::failed::Failed;

/// A place to write to, at its end alone.
///
/// A call takes no memory, and answers `Failed` only where the count of faults rose in this call.
pub trait Sink: Drop {
    /// Whether sinks of this type tell what was written. A real file doesn't.
    ghost tells: { Bool };

    /// All that was written, where it tells.
    ghost written: { Self → List ℕ };

    /// How often it has failed, a count that stands still at `u64`'s end.
    ghost faults: { Self → ℕ };

    /// Writes all bytes. On `Failed` it has written a front of them, maybe none or all.
    fn write(&mut self, bytes: &[u8]) -> Result<(), Failed>
        ensures ok { IsTrue tells → OnOk result (written self.new ≡ written self.old ++ bytes.now) }
        ensures err { IsTrue tells → OnErr result (WritesTo (written self.old) bytes.now (written self.new)) }
        ensures faults { RisesOnErr (faults self.old) (faults self.new) result };
}
