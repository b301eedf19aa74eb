//! What `run` asks of its devices, as a test.

ghost use Rattle.std.specs.Prelude.{◌≡◌, IsTrue, true, IfOk};
ghost use Rattle.cdc_top.specs.Ran.{IsFitToRun};

use cdc_base::Memory;
use cdc_config::{Refusal, plan_of};
use std::alloc::Global;

/// Whether so many sources and disks are those that `run` asks for by a configuration: of a text that is accepted as a plan, one
/// a node and one an out; of another text, any.
pub fn fits_to_run(alloc: Global, config: &[u8], nodes: usize, outs: usize) -> Result<bool, Memory>
    ensures { IfOk result (λ fits. IsTrue fits → IsFitToRun true config.now nodes outs) }
{
    match plan_of(alloc, config) {
        Ok(plan) => {
            Ok(plan.paths.node_files.len() == nodes && plan.paths.out_folders.len() == outs)
        }
        Err(Refusal::Memory) => Err(Memory),
        Err(_) => Ok(true),
    }
}
