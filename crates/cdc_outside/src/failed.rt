//! The one answer of a device that fails.

/// The device failed in this call. Its count of faults says so too.
#[derive(Clone, Copy, Debug, PartialEq, Eq)]
pub struct Failed;
