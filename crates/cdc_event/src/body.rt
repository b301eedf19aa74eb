//! An event's body.

use cdc_base::{Blob, Xid};

/// The body of an event, by its type. Byte strings share the bytes that they were read from.
#[derive(Debug, Drop)]
pub enum Body {
    /// Type 15, FORMAT_DESCRIPTION, of version 4 and with headers of 19 bytes.
    Format {
        /// The server's version, 50 bytes with zeros at the end.
        text: Blob,
        created: u32,
        /// The length of each type's post-header, a byte a type.
        lengths: Blob,
        /// The checksum algorithm: 0 none, 1 CRC32.
        checksum: u8,
        tail: u32,
    },
    /// Type 2, QUERY: a statement's text.
    Query {
        thread: u32,
        /// How long the statement took.
        seconds: u32,
        error: u16,
        /// The status variables, at most 65,535 bytes.
        status: Blob,
        /// At most 255 bytes.
        db: Blob,
        text: Blob,
    },
    /// Type 4, ROTATE: the log goes on at `position` of the file `name`.
    Rotate {
        position: u64,
        name: Blob,
    },
    /// Type 16, XID: a transaction's end.
    Xid {
        number: u64,
    },
    /// Type 29, ROWS_QUERY: a text about the rows behind it. `size` is a byte that readers ignore.
    RowsQuery {
        size: u8,
        text: Blob,
    },
    /// Type 19, TABLE_MAP: the table of the row events behind it. The table's number is below 2^48, and
    /// both names have at most 255 bytes.
    TableMap {
        table: u64,
        flags: u16,
        db: Blob,
        name: Blob,
        rest: Blob,
    },
    /// Types 23 to 25 and 30 to 32, row events: unread.
    Rows {
        bytes: Blob,
    },
    /// Type 38, XA_PREPARE; `one_phase` isn't 0 where the branch is committed at once.
    XaPrepare {
        one_phase: u8,
        xid: Xid,
    },
    /// Type 200, TIMESTAMP, of this service: class 1 is a commit timestamp, class 2 a heartbeat.
    Timestamp {
        class: u8,
        value: u64,
    },
    /// Every other type but 39 and 40: unread.
    Skipped {
        bytes: Blob,
    },
}
