//! Why an output can't be opened.

ghost use Rattle.std.specs.Prelude.{◌≡◌};
ghost use Rattle.cdc_dumper.specs.declared.fault.OpenFault.TheVariants.{DiskFault as IsDiskFault};

use cdc_cell::DiskFault;
use cdc_outside::{DiskFile, Failed};

/// Why an output can't be opened.
#[derive(Clone, Copy, Debug, PartialEq, Eq)]
pub enum OpenFault {
    /// The disk failed in this call. Its count of faults says so too.
    DiskFault,
    /// The cell refuses this slot, or the record in it isn't a Front's.
    BadCell(DiskFile),
    /// The Front's file has fewer bytes than the Front says.
    BadFront { kept: u64, found: u64 },
}

impl From<DiskFault> for OpenFault {
    ghost from_gives = { λ _ error. error ≡ IsDiskFault };

    fn from(_fault: DiskFault) -> OpenFault {
        OpenFault::DiskFault
    }
}

impl From<Failed> for OpenFault {
    ghost from_gives = { λ _ error. error ≡ IsDiskFault };

    fn from(_failed: Failed) -> OpenFault {
        OpenFault::DiskFault
    }
}
