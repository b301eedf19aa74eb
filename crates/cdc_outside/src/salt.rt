//! Where random bytes come from.

ghost use Rattle.std.specs.Prelude.{ℕ, ◌∷◌, [], ◌++◌, Bool, IsTrue, List, Option};
ghost use Rattle.std.specs.Result.{result_ok};
ghost use Rattle.cdc_outside.specs.Count.{RisesOnErr};

use crate::failed::Failed;

/// The random bytes of one draw.
pub const SALT_LENGTH: usize = 20;

/// A source of random bytes, one draw a login.
///
/// A call takes no memory, and answers `Failed` only where the count of faults rose in this call.
pub trait Salt: Drop {
    /// Whether salts of this type tell their draws. The system's random device doesn't.
    ghost tells: { Bool };

    /// Whether these may be its answers so far, none for a draw that failed, where it tells.
    ghost drawn: { Self → List (Option (List ℕ)) → Type 0 };

    /// How often it has failed, a count that stands still at `u64`'s end.
    ghost faults: { Self → ℕ };

    /// The next random bytes.
    fn draw(&mut self) -> Result<[u8; SALT_LENGTH], Failed>
        ensures drawn { IsTrue tells → (answers : List (Option (List ℕ))) → drawn self.old answers
            → drawn self.new (answers ++ result_ok result ∷ []) }
        ensures faults { RisesOnErr (faults self.old) (faults self.new) result };
}
