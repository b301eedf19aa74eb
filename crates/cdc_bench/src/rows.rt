//! A log of row events.

ghost use Rattle.std.specs.Prelude.{◌≤◌};

use cdc_base::Blob;
use cdc_event::HEADER_LENGTH;
use cdc_samples::blobs::filled;
use cdc_samples::rows::ROWS;
use cdc_samples::{Log, NotMade};
use std::alloc::Global;

/// The bytes of a log of more than one event.
const LOG_ROOM: u32 = 1 << 26;

/// A log of as many equal row events of `size` bytes, header included, as 64 MiB hold, and of one at least.
pub fn row_log(alloc: Global, size: u32) -> Result<Blob, NotMade>
    requires { 19 ≤ size }
{
    let body = filled(alloc, 0, size as usize - HEADER_LENGTH)?;
    let mut log = Log::with_room(alloc, LOG_ROOM.max(size) as usize)?;
    for _ in 0..(LOG_ROOM / size).max(1) {
        log.push_event(ROWS, body.bytes(), &[])?;
    }
    Ok(log.freeze()?)
}
