//! The order key of a transaction, and its order: the global order of all transactions.

ghost use Rattle.std.specs.Prelude.{◌≡◌};
ghost use Rattle.std.specs.Cmp.{IsTotalOrder};
ghost use Rattle.cdc_base.specs.Key.{key_order, SameKey};
ghost use Rattle.cdc_base.specs.Key as specs_key;

use crate::gtrid::Gtrid;
use std::cmp::Ordering;

/// The most nodes: a node is numbered from 1 to 256.
pub const NODES_MAX: usize = 256;

/// The order key of a transaction.
#[derive(Clone, Copy, Debug, PartialEq, Eq)]
pub enum Key {
    /// A transaction committed under a global commit timestamp, known by its global transaction id.
    Shared {
        timestamp: u64,
        gtrid: Gtrid,
    },
    /// A local transaction of one node (counted from 1): the node's high-water mark before it, and the
    /// number (counted from 1) of its entry in the node's log.
    Plain {
        timestamp: u64,
        node: u32,
        entry: u64,
    },
}

/// Orders keys by timestamp, then class (`Shared` before `Plain`), then by the id in byte order, or by
/// node and entry number.
pub fn key_cmp(a: &Key, b: &Key) -> Ordering
    ensures { result ≡ key_order a.now b.now }
{
    match (a, b) {
        (
            Key::Shared { timestamp, gtrid },
            Key::Shared {
                timestamp: other_timestamp,
                gtrid: other_gtrid,
            },
        ) => {
            let by_id = gtrid.bytes().cmp(other_gtrid.bytes());
            timestamp.cmp(other_timestamp).then(by_id)
        }
        (
            Key::Shared { timestamp, .. },
            Key::Plain {
                timestamp: other_timestamp,
                ..
            },
        ) => timestamp.cmp(other_timestamp).then(Ordering::Less),
        (
            Key::Plain { timestamp, .. },
            Key::Shared {
                timestamp: other_timestamp,
                ..
            },
        ) => timestamp.cmp(other_timestamp).then(Ordering::Greater),
        (
            Key::Plain {
                timestamp,
                node,
                entry,
            },
            Key::Plain {
                timestamp: other_timestamp,
                node: other_node,
                entry: other_entry,
            },
        ) => timestamp
            .cmp(other_timestamp)
            .then(node.cmp(other_node))
            .then(entry.cmp(other_entry)),
    }
}

/// The key before all others.
pub fn first_key() -> Key
    ensures { result ≡ specs_key.first_key }
{
    Key::Shared {
        timestamp: 0,
        gtrid: Gtrid::empty(),
    }
}

/// A law: the order of keys is total, and two keys tie exactly where all their parts are equal.
pub fn key_order_is_total()
    ensures total { IsTotalOrder key_order }
    ensures exact { SameKey }
{}
