//! Names, keys and bytes: the small types that every other crate speaks in.
//!
//! `Place` is a place in a log, `Xid` names an XA branch, `Key` orders transactions, and `Text`,
//! `Blob`, `Buffer` and `Items` keep bytes and lists. Each is seen by contracts as the plain value
//! it stands for. No other crate of the project stands below this one.
#![tactic(auto)]

mod blob;
mod buffer;
mod gtrid;
mod items;
mod key;
mod memory;
mod place;
mod ranked;
mod rename;
mod steps;
mod text;
mod user;
mod xid;

pub use blob::Blob;
pub use buffer::Buffer;
pub use gtrid::{GTRID_MAX, Gtrid, gtrid_of};
pub use items::Items;
pub use key::{Key, NODES_MAX, first_key, key_cmp, key_order_is_total};
pub use memory::Memory;
pub use place::Place;
pub use ranked::Ranked;
pub use rename::{Rename, RenameList};
pub use steps::Steps;
pub use text::{Text, TextList};
pub use user::{User, UserList};
pub use xid::{Xid, same_xid, xid_cmp};
