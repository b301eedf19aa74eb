//! What a grouper answers in place of an entry.

use cdc_model::GroupFault;

/// Why an event isn't taken.
#[derive(Clone, Copy, Debug, PartialEq, Eq)]
pub enum GroupError {
    /// The event doesn't fit, or one before it didn't.
    Fault(GroupFault),
    /// There is too little memory; nothing was taken.
    Memory,
}
