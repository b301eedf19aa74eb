//! Where the fields of an event's body stand in it: the offsets of the table "Bodies" of docs/FORMATS.md.

// QUERY: the statement's thread stands at 0; these are the offsets of the fields behind it.
pub(crate) const QUERY_SECONDS: usize = 4;

pub(crate) const QUERY_DB_LENGTH: usize = 8;

pub(crate) const QUERY_ERROR: usize = 9;

pub(crate) const QUERY_STATUS_LENGTH: usize = 11;
// The status variables, and behind them the database's name, a zero byte and the text.
pub(crate) const QUERY_STATUS: usize = 13;

// ROTATE: behind the position.
pub(crate) const ROTATE_NAME: usize = 8;

// FORMAT_DESCRIPTION: the version stands at 0.
pub(crate) const FORMAT_TEXT: usize = 2;

pub(crate) const FORMAT_CREATED: usize = 52;

pub(crate) const FORMAT_HEADER_LENGTH: usize = 56;

pub(crate) const FORMAT_LENGTHS: usize = 57;
// From the body's end: the checksum algorithm and the four bytes behind it.
pub(crate) const FORMAT_CHECKSUM_FROM_END: usize = 5;

pub(crate) const FORMAT_TAIL_FROM_END: usize = 4;
// The fewest bytes: with no byte in the list of lengths.
pub(crate) const FORMAT_LEAST: usize = 62;

// XID: the number alone.
pub(crate) const XID_LENGTH: usize = 8;

// ROWS_QUERY: behind a byte that readers ignore.
pub(crate) const ROWS_QUERY_TEXT: usize = 1;

// TABLE_MAP: the table's number stands at 0.
pub(crate) const TABLE_MAP_FLAGS: usize = 6;

pub(crate) const TABLE_MAP_DB_LENGTH: usize = 8;
// The database's name, and behind it a zero byte, the length of the table's name, the name, a zero byte and the rest.
pub(crate) const TABLE_MAP_DB: usize = 9;

// XA_PREPARE: one_phase stands at 0.
pub(crate) const PREPARE_FORMAT: usize = 1;

pub(crate) const PREPARE_GTRID_LENGTH: usize = 5;

pub(crate) const PREPARE_BQUAL_LENGTH: usize = 9;
// Both ids, one behind the other.
pub(crate) const PREPARE_GTRID: usize = 13;

// TIMESTAMP: the class stands at 0.
pub(crate) const TIMESTAMP_VALUE: usize = 1;

pub(crate) const TIMESTAMP_LENGTH: usize = 9;
