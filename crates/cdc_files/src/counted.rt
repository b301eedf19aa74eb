//! Failures of the system are counted.

ghost use Rattle.std.specs.Prelude.{◌≡◌, Ok, MatchOption, IsErr};
ghost use Rattle.cdc_outside.specs.Count.{RisesOnErr};

use cdc_outside::Failed;

/// The answer; where there is none, `Failed`, which is counted.
pub fn counted<T>(answer: Option<T>, faults: &mut u64) -> Result<T, Failed>
    ensures answer { MatchOption answer (IsErr result) (λ value. result ≡ Ok value) }
    ensures faults { RisesOnErr faults.old faults.new result }
{
    match answer {
        Some(value) => Ok(value),
        None => {
            *faults = faults.saturating_add(1);
            Err(Failed)
        }
    }
}
