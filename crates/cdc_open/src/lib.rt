//! The open branches of a node: found by their xids, and the least of their floors.
//!
//! `OpenTable` is seen as the list of the open branches in the order of their xids. To find, open or end one takes time by
//! the logarithm of how many are open, and so does the least floor.
#![tactic(auto)]

mod floors;
mod open_table;
mod standing;
mod xid_key;

pub use floors::Floors;
pub use open_table::OpenTable;
pub use standing::Standing;
pub use xid_key::XidKey;
