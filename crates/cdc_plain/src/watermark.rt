//! Low-water marks: what the logs can no longer bring.

ghost use Rattle.std.specs.Prelude.{◌≡◌, IfOk};
ghost use Rattle.std.specs.List.{AllByRecursion};
ghost use Rattle.cdc_model.specs.Soundness.{IsCounted};
ghost use Rattle.cdc_model.specs.Soundness as soundness;
ghost use Rattle.cdc_model.specs.Watermark as watermark;
ghost use Rattle.cdc_model.specs.Transaction as transaction;

use crate::soundness::reached;
use cdc_base::Memory;
use cdc_model::{NodeLog, StartingPoint};
use std::alloc::Global;

/// A node's low-water mark: the least of its high-water mark and of its open branches' floors.
pub fn node_low_water_mark(start: &StartingPoint) -> u64
    ensures { result ≡ watermark.node_low_water_mark start.now }
{
    let mut mark = start.mark;
    for branch in start.opened.as_slice() {
        mark = mark.min(branch.floor);
    }
    mark
}

/// The low-water mark behind the sound entries of a log.
fn log_mark(alloc: Global, log: &NodeLog) -> Result<u64, Memory>
    requires { IsCounted log.now }
    ensures { IfOk result (λ mark. mark ≡ watermark.node_low_water_mark (soundness.reached log.now)) }
{
    let start = reached(alloc, log)?;
    Ok(node_low_water_mark(&start))
}

/// The low-water mark of all logs: the least of theirs, 0 of no log.
pub fn low_water_mark(alloc: Global, logs: &[NodeLog]) -> Result<u64, Memory>
    requires { AllByRecursion IsCounted logs.now }
    ensures { IfOk result (λ mark. mark ≡ transaction.logs_low_water_mark logs.now) }
{
    let Some((first, rest)) = logs.split_first() else {
        return Ok(0);
    };
    let mut mark = log_mark(alloc, first)?;
    for log in rest {
        mark = mark.min(log_mark(alloc, log)?);
    }
    Ok(mark)
}
