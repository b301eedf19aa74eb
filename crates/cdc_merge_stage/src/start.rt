//! Where merging begins.

use cdc_base::Key;
use cdc_model::Layout;

/// Where merging begins: behind so many transactions, the last of which has this key, and where an output of them stands.
#[derive(Clone, Copy, Debug, PartialEq, Eq)]
pub struct MergeStart {
    /// Transactions before the first.
    pub count: u64,
    /// The last one's key; the key before all others where there is none.
    pub last: Key,
    /// Where an output of them stands.
    pub before: Layout,
}
