//! The types of events that have a layout of their own.

ghost use Rattle.std.specs.Prelude.{◌≡◌};
ghost use Rattle.cdc_event.specs.Event.{is_rows_kind};

pub const QUERY: u8 = 2;

pub const ROTATE: u8 = 4;

pub const FORMAT: u8 = 15;

pub const XID: u8 = 16;

pub const TABLE_MAP: u8 = 19;

pub const ROWS_QUERY: u8 = 29;

pub const XA_PREPARE: u8 = 38;
/// Rows updated in part, which are refused.
pub const PARTIAL: u8 = 39;
/// A compressed transaction, which is refused.
pub const COMPRESSED: u8 = 40;
/// This service's own.
pub const TIMESTAMP: u8 = 200;

/// Whether this is the type of a row event: 23 to 25 and 30 to 32.
pub fn is_rows(kind: u8) -> bool
    ensures { result ≡ is_rows_kind kind }
{
    (kind >= 23 && kind <= 25) || (kind >= 30 && kind <= 32)
}
