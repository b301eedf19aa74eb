//! Why a call of a cell gives up.

ghost use Rattle.cdc_cell.specs.declared.fault.CellFault.TheVariants.{DiskFault};
ghost use Rattle.std.specs.Prelude.{◌≡◌};

use cdc_outside::{DiskFile, Failed};

/// The disk failed in this call. Its count of faults says so too.
#[derive(Clone, Copy, Debug, PartialEq, Eq)]
pub struct DiskFault;

/// Why a cell can't be opened.
#[derive(Clone, Copy, Debug, PartialEq, Eq)]
pub enum CellFault {
    /// The disk failed in this call.
    DiskFault,
    /// An open slot's length goes past its file's end, or two open slots have one number.
    BadCell(DiskFile),
}

impl From<Failed> for DiskFault {
    fn from(_failed: Failed) -> DiskFault {
        DiskFault
    }
}

impl From<DiskFault> for CellFault {
    ghost from_gives = { λ _ error. error ≡ DiskFault };

    fn from(_fault: DiskFault) -> CellFault {
        CellFault::DiskFault
    }
}
