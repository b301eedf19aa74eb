//! What a reader answers, as a text.

ghost use Rattle.std.specs.Prelude.{◌≡◌, ◌≤◌, ◌+◌, length};
ghost use Rattle.cdc_event.specs.Length.{HasGoodLength};

use cdc_base::Blob;
use cdc_event::{Event, Header, ReadError, check_length, read_owned_body, read_view};
use cdc_samples::blobs::blob_of;
use cdc_samples::events::header;
use std::alloc::{AllocError, Global};

// An event's body, or what is wrong.
fn shown(alloc: Global, read: Result<Event, ReadError>) -> Result<String, AllocError> {
    match read {
        Ok(event) => format!(in alloc; "{:?}", event.body),
        Err(error) => format!(in alloc; "{error:?}"),
    }
}

// Whether what was read is seen in place too: the same event, or the same fault.
fn is_seen(
    alloc: Global,
    header: &Header,
    bytes: &[u8],
    checksum: u8,
    read: &Result<Event, ReadError>,
) -> Result<bool, AllocError>
    requires setting { checksum ≤ 1 }
    requires length { HasGoodLength checksum header.now }
    requires whole { header.now.length ≡ 19 + length bytes.now }
{
    let seen = match read_view(header, bytes, checksum) {
        Ok(view) => format!(in alloc; "{view:?}")?,
        Err(fault) => format!(in alloc; "{:?}", ReadError::Fault(fault))?,
    };
    let wanted = match read {
        Ok(event) => format!(in alloc; "{:?}", event.view())?,
        Err(error) => format!(in alloc; "{error:?}")?,
    };
    Ok(seen == wanted)
}

// What a header and a body are read as, by a body that is given away and in place: one text where both are the same.
fn read_both(
    alloc: Global,
    header: &Header,
    bytes: &[u8],
    body: Blob,
    checksum: u8,
) -> Result<String, AllocError>
    requires setting { checksum ≤ 1 }
    requires length { HasGoodLength checksum header.now }
    requires whole { header.now.length ≡ 19 + length bytes.now }
    requires same { body ≡ bytes.now }
{
    let read = read_owned_body(header, body, checksum);
    if is_seen(alloc, header, bytes, checksum, &read)? {
        shown(alloc, read)
    } else {
        format!(in alloc; "another event in place")
    }
}

/// What a header and a body are read as, under a checksum setting, as `Debug` writes it.
pub fn answer(alloc: Global, kind: u8, bytes: &[u8], checksum: u8) -> Result<String, AllocError>
    requires { checksum ≤ 1 }
{
    let header = header(
        kind,
        u32::try_from(bytes.len())
            .unwrap_or(u32::MAX)
            .saturating_add(19),
    );
    if let Err(fault) = check_length(&header, checksum) {
        return shown(alloc, Err(ReadError::Fault(fault)));
    }
    match blob_of(alloc, bytes) {
        Ok(body) if bytes.len() + 19 == header.length as usize => {
            read_both(alloc, &header, bytes, body, checksum)
        }
        _ => shown(alloc, Err(ReadError::Memory)),
    }
}
