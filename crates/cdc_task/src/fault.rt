//! Why a call on the task's disk gives up.

ghost use Rattle.std.specs.Prelude.{◌≡◌};
ghost use Rattle.cdc_task.specs.declared.fault.TaskFault.TheVariants.{DiskFault, Memory};
ghost use Rattle.cdc_task.specs.declared.fault.StoreFault.TheVariants as of_store;

use cdc_base::Memory as NoMemory;
use cdc_outside::DiskFile;

/// Why a checkpoint can't be loaded.
#[derive(Clone, Copy, Debug, PartialEq, Eq)]
pub enum TaskFault {
    /// The disk failed in this call.
    DiskFault,
    /// The slot is bad, or the record that it keeps is no checkpoint's.
    BadCell(DiskFile),
    /// The kept checkpoint has another number of nodes.
    NodeCount { kept: u32, given: u32 },
    /// The kept checkpoint was made under another rotation size.
    Rotation { kept: u64, given: u64 },
    /// The allocator had no memory.
    Memory,
}

/// Why a checkpoint can't be stored.
#[derive(Clone, Copy, Debug, PartialEq, Eq)]
pub enum StoreFault {
    /// The disk failed in this call.
    DiskFault,
    /// The allocator had no memory. Nothing was written.
    Memory,
}
