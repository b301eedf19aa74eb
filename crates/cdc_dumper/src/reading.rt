//! A Front out of a record's bytes.

ghost use Rattle.std.specs.Prelude.{◌≡◌, ◌≤◌, true, false, Some, None, IfSome, IfNone, length};
ghost use Rattle.cdc_base.specs.declared.key.Key.{Key as AnyKey};
ghost use Rattle.cdc_event.specs.Number.{number_of};
ghost use Rattle.cdc_outside.specs.declared.disk_file.DiskFile.{DiskFile as AnyFile};
ghost use Rattle.cdc_records.specs.declared.front.Front.{Front as AnyFront};
ghost use Rattle.cdc_records.specs.KeyBytes.{key_bytes, IsRecordKey};
ghost use Rattle.cdc_records.specs.Front.{front_bytes, front_number, IsOfVersion, IsSoundFront, IsFrontRecord};
ghost use Rattle.cdc_dumper.specs.Opening.{record_of};

use crate::record::{front_record, key_fits};
use cdc_base::{Key, gtrid_of};
use cdc_records::Front;

/// The number that eight bytes spell.
#[tactic(auto, using(cdc_event::proofs::Numbers::number_of_8))]
fn number_8(bytes: &[u8]) -> u64
    requires { length bytes.now ≡ 8 }
    ensures { result ≡ number_of bytes.now }
{
    u64::from_le_bytes([
        bytes[0], bytes[1], bytes[2], bytes[3], bytes[4], bytes[5], bytes[6], bytes[7],
    ])
}

/// The number that four bytes spell.
#[tactic(auto, using(cdc_event::proofs::Numbers::number_of_4))]
fn number_4(bytes: &[u8]) -> u32
    requires { length bytes.now ≡ 4 }
    ensures { result ≡ number_of bytes.now }
{
    u32::from_le_bytes([bytes[0], bytes[1], bytes[2], bytes[3]])
}

/// The key that these bytes are, if they are one's.
fn key_in(bytes: &[u8]) -> Option<Key>
    ensures { (key : AnyKey) → IsRecordKey key → bytes.now ≡ key_bytes key → result ≡ Some key }
{
    if bytes.len() < 10 {
        return None;
    }
    let timestamp = number_8(&bytes[0..8]);
    if bytes[8] == 0 {
        let gtrid = gtrid_of(&bytes[10..])?;
        return Some(Key::Shared { timestamp, gtrid });
    }
    if bytes.len() != 21 {
        return None;
    }
    Some(Key::Plain {
        timestamp,
        node: number_4(&bytes[9..13]),
        entry: number_8(&bytes[13..21]),
    })
}

/// The Front that these bytes are, if they are one's.
fn front_in(payload: &[u8]) -> Option<Front>
    ensures { (f : AnyFront) → IsSoundFront f → payload.now ≡ front_bytes f → result ≡ Some f }
{
    if payload.len() < 26 {
        return None;
    }
    let count = number_8(&payload[1..9]);
    let file = number_8(&payload[9..17]);
    let length = number_8(&payload[17..25]);
    let closed = payload[25] == 1;
    if payload[0] == 1 {
        return Some(Front {
            count,
            file,
            length,
            closed,
            first: 1,
            passed: 0,
            last: None,
        });
    }
    if payload.len() < 42 {
        return None;
    }
    let last = key_in(&payload[42..])?;
    Some(Front {
        count,
        file,
        length,
        closed,
        first: number_8(&payload[26..34]),
        passed: number_8(&payload[34..42]),
        last: Some(last),
    })
}

/// Whether a last key, or that there is none, goes with the rest of a Front.
fn is_of_version(front: &Front) -> bool
    ensures yes { result ≡ true → IsOfVersion front.now.last front.now }
    ensures no { result ≡ false → IsOfVersion front.now.last front.now → ⊥ }
{
    match &front.last {
        None => front.first == 1 && front.passed == 0,
        Some(key) => {
            key_fits(key);
            true
        }
    }
}

/// Whether the numbers of a Front are in range.
fn is_sound(front: &Front) -> bool
    ensures yes { result ≡ true → IsSoundFront front.now }
    ensures no { result ≡ false → IsSoundFront front.now → ⊥ }
{
    let length = front.length;
    1 <= front.count
        && front.count <= 1 << 62
        && 1 <= front.file
        && front.file <= front.count
        && 1 <= front.first
        && front.first <= front.file
        && front.passed < front.count
        && 123 <= length
        && is_of_version(front)
}

/// The Front of a record, if it is one's: what is read is what would be written.
pub fn read_front(number: u64, payload: &[u8]) -> Option<Front>
    ensures some { IfSome result (λ f. (slot : AnyFile) → IsFrontRecord (record_of slot number payload.now) f) }
    ensures none { IfNone result ((slot : AnyFile) (f : AnyFront) → IsFrontRecord (record_of slot number payload.now) f → ⊥) }
{
    let front = front_in(payload)?;
    if !is_sound(&front) || front.count + front.first - 1 != number {
        return None;
    }
    let written = front_record(&front);
    if written.as_slice() != payload {
        return None;
    }
    Some(front)
}
