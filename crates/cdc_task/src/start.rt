//! Whether a pass goes on from a checkpoint.

ghost use Rattle.std.specs.Prelude.{◌≡◌, ◌≤◌, ◌↔◌, Some, All};
ghost use Rattle.std.specs.Option.{option_copied};
ghost use Rattle.cdc_task.specs.Task.{GoesOnFrom};

use cdc_records::Checkpoint;

/// Where a pass begins.
#[derive(Clone, Copy, Debug, PartialEq, Eq)]
pub enum Start {
    /// At the first byte of each log.
    First,
    /// At the points of the checkpoint.
    Cut,
}

/// Where a pass begins over outputs that have published so many transactions each: at the checkpoint exactly where one is
/// kept and no output has fewer transactions than it.
pub fn resume(kept: Option<&Checkpoint>, counts: &[u64]) -> Start
    ensures { (result ≡ Start.Cut) ↔ GoesOnFrom (option_copied kept.entry) counts.now }
{
    match kept {
        Some(checkpoint) => start_behind(checkpoint.count, counts),
        None => Start::First,
    }
}

/// Where a pass begins by a checkpoint's count.
fn start_behind(count: u64, counts: &[u64]) -> Start
    ensures { (result ≡ Start.Cut) ↔ All (λ reached. count ≤ reached) counts.now }
{
    if counts.iter().all(|reached| count <= *reached) {
        Start::Cut
    } else {
        Start::First
    }
}
