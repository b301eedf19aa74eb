//! Byte strings.

ghost use Rattle.std.specs.Prelude.{◌≡◌, length, IfOk};

use cdc_base::{Blob, Buffer, Memory};
use std::alloc::Global;

/// These bytes, to be shared.
pub fn blob_of(alloc: Global, bytes: &[u8]) -> Result<Blob, Memory>
    ensures { IfOk result (λ blob. blob ≡ bytes.now) }
{
    let mut buffer = Buffer::new(alloc);
    buffer.push(bytes)?;
    buffer.freeze()
}

/// So many equal bytes.
pub fn filled(alloc: Global, value: u8, count: usize) -> Result<Blob, Memory>
    ensures { IfOk result (λ blob. length blob ≡ count) }
{
    let bytes = vec![in alloc; value; count]?;
    blob_of(alloc, bytes.as_slice())
}

/// The bytes `from` to `to` (not included); none where there aren't so many.
pub fn part(bytes: &[u8], from: usize, to: usize) -> &[u8] {
    if from <= to && to <= bytes.len() {
        &bytes[from..to]
    } else {
        &[]
    }
}
