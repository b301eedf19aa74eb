//! An event's header.

ghost use Rattle.std.specs.Prelude.{◌≡◌, ◌+◌, ◌^◌, ◌<◌, ◌≤◌, ◌↔◌, IsOk, IfErr, length};
ghost use Rattle.cdc_event.specs.Event.{header_bytes, FitsHeader};
ghost use Rattle.cdc_event.specs.Length.{tail_length, least_length, HasGoodLength, HasLengthFault};
ghost use Rattle.cdc_event.specs.Length.{shortened as specs_shortened};
ghost use Rattle.cdc_event.specs.declared.fault.EventFault.TheVariants.{ShortLength, TooLong};

use crate::fault::EventFault;
use crate::kind::FORMAT;
use crate::number::{number_2, number_4};

/// The four bytes that begin a log file.
pub const MAGIC: [u8; 4] = [254, 98, 105, 110];

/// The bytes of a header.
pub const HEADER_LENGTH: usize = 19;

/// The header of an event, as the MySQL binary log (version 4) has it.
#[derive(Clone, Copy, Debug, PartialEq, Eq)]
pub struct Header {
    /// When the event was written, in seconds since 1970.
    pub seconds: u32,
    /// The event's type.
    pub kind: u8,
    /// The id of the server that wrote it.
    pub server: u32,
    /// The bytes of the whole event, header included.
    pub length: u32,
    /// The place after the event in its file.
    pub next: u32,
    pub flags: u16,
}

/// The most bytes that an event of a node's log has.
pub const LENGTH_MAX: u32 = 1 << 27;

// The version of the binary log's format.
pub(crate) const FORMAT_VERSION: u16 = 4;

// The bytes of a checksum.
const CHECKSUM_LENGTH: u32 = 4;

/// The header that 19 bytes spell. Any 19 bytes spell one, and no other has these bytes.
pub fn read_header(bytes: &[u8; 19]) -> Header
    ensures spelled { header_bytes result ≡ bytes.now }
    ensures fits { FitsHeader result }
{
    header_of(bytes)
}

fn header_of(bytes: &[u8]) -> Header
    requires { length bytes.now ≡ HEADER_LENGTH }
    ensures spelled { header_bytes result ≡ bytes.now }
    ensures fits { FitsHeader result }
{
    Header {
        seconds: number_4(&bytes[0..4]),
        kind: bytes[4],
        server: number_4(&bytes[5..9]),
        length: number_4(&bytes[9..13]),
        next: number_4(&bytes[13..17]),
        flags: number_2(&bytes[17..19]),
    }
}

// How many bytes of an event's end are its checksum: under setting 1 each event ends with four, but for
// a format event.
pub(crate) fn checksum_length(checksum: u8, kind: u8) -> u32
    ensures { result ≡ tail_length checksum kind }
{
    if checksum == 1 && kind != FORMAT {
        CHECKSUM_LENGTH
    } else {
        0
    }
}

// The header with so much less in its length.
pub(crate) fn shortened(header: Header, less: u32) -> Header
    requires { less ≤ header.length }
    ensures value { result ≡ specs_shortened less header }
    ensures fits { FitsHeader header }
{
    Header {
        length: header.length - less,
        ..header
    }
}

/// Whether an event may have its length: at least its header and its checksum, and at most 2^27 bytes.
///
/// `checksum` is the setting at the event's place: the algorithm of the last format event before it in
/// its file, and 0 where there is none.
pub fn check_length(header: &Header, checksum: u8) -> Result<(), EventFault>
    requires { checksum ≤ 1 }
    ensures ok { IsOk result ↔ HasGoodLength checksum header.now }
    ensures fault { IfErr result (HasLengthFault checksum header.now) }
    ensures short { (result ≡ Err (ShortLength header.now.length)) ↔ (header.now.length < least_length checksum header.now.kind) }
    ensures long { (result ≡ Err (TooLong header.now.length)) ↔ (2 ^ 27 < header.now.length) }
{
    let length = header.length;
    if length < HEADER_LENGTH as u32 + checksum_length(checksum, header.kind) {
        Err(EventFault::ShortLength(length))
    } else if length > LENGTH_MAX {
        Err(EventFault::TooLong(length))
    } else {
        Ok(())
    }
}
