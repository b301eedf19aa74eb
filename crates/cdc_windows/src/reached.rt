//! How far a pass came.

use cdc_base::Key;
use cdc_model::Layout;

/// How far the merging came: how many transactions were given to every output, the last one's key, and where an output of
/// them stands.
#[derive(Clone, Copy, Debug, PartialEq, Eq)]
pub struct Reached {
    pub count: u64,
    pub last: Key,
    pub layout: Layout,
}
