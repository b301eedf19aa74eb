//! The fields of a record, read one behind another.
//!
//! Each reading takes a front off the bytes and gives what is behind it. It reads as if the bytes began with such a field:
//! where they do, it gives that field. Where they don't, it gives some value and drops what there is.

ghost use Rattle.std.specs.Prelude.{◌≡◌, ℕ, ◌<◌, ◌≤◌, ◌-◌, ◌^◌, ◌++◌, ◌∷◌, List, length};
ghost use Rattle.cdc_base.specs.declared.key.Key.{Key};
ghost use Rattle.cdc_event.specs.Number.{low_first, number_of};
ghost use Rattle.cdc_records.specs.KeyBytes.{flag_byte, key_bytes, IsRecordKey};
ghost use Rattle.cdc_records.specs.Checkpoint.{counted_id};
ghost use Rattle.cdc_task.specs.Reading.{ReadsFront};

use cdc_base::{Gtrid, Key, gtrid_of};

/// The class of a key that is shared.
const SHARED: u8 = 0;

/// Nothing is left.
fn end(bytes: &[u8]) -> &[u8]
    ensures { length result.now ≡ 0 }
{
    &bytes[bytes.len()..]
}

/// The number that eight bytes spell.
#[tactic(auto, using(cdc_event::proofs::Numbers::number_of_8))]
fn spelled_8(bytes: &[u8]) -> u64
    requires { length bytes.now ≡ 8 }
    ensures { result ≡ number_of bytes.now }
{
    u64::from_le_bytes([
        bytes[0], bytes[1], bytes[2], bytes[3], bytes[4], bytes[5], bytes[6], bytes[7],
    ])
}

/// A number of eight bytes.
pub fn number_8(bytes: &[u8]) -> (u64, &[u8])
    ensures reads { ReadsFront (low_first 8) (λ (n : ℕ). n < 2 ^ 64) bytes.now result.0 result.1.now }
    ensures shorter { length result.1.now ≤ length bytes.now - 1 }
{
    if bytes.len() < 8 {
        return (0, end(bytes));
    }
    let (field, rest) = bytes.split_at(8);
    (spelled_8(field), rest)
}

/// A number of four bytes.
pub fn number_4(bytes: &[u8]) -> (u32, &[u8])
    ensures reads { ReadsFront (low_first 4) (λ (n : ℕ). n < 2 ^ 32) bytes.now result.0 result.1.now }
    ensures shorter { length result.1.now ≤ length bytes.now }
{
    if bytes.len() < 4 {
        return (0, end(bytes));
    }
    let (field, rest) = bytes.split_at(4);
    (cdc_event::number_4(field), rest)
}

/// A number of two bytes.
pub fn number_2(bytes: &[u8]) -> (u16, &[u8])
    ensures reads { ReadsFront (low_first 2) (λ (n : ℕ). n < 2 ^ 16) bytes.now result.0 result.1.now }
{
    if bytes.len() < 2 {
        return (0, end(bytes));
    }
    let (field, rest) = bytes.split_at(2);
    (cdc_event::number_2(field), rest)
}

/// A byte.
pub fn byte(bytes: &[u8]) -> (u8, &[u8])
    ensures reads { (n : ℕ) (rest : List ℕ) → bytes.now ≡ n ∷ rest → (result.0 ≡ n) × (result.1.now ≡ rest) }
    ensures shorter { length result.1.now ≤ length bytes.now }
{
    match bytes {
        [first, rest @ ..] => (*first, rest),
        [] => (0, bytes),
    }
}

/// An id behind its length.
pub fn id(bytes: &[u8]) -> (Gtrid, &[u8])
    ensures reads { ReadsFront counted_id (λ (own : List ℕ). length own ≤ 64) bytes.now result.0 result.1.now }
    ensures shorter { length result.1.now ≤ length bytes.now }
{
    let (size, bytes) = byte(bytes);
    if bytes.len() < size as usize {
        return (Gtrid::empty(), end(bytes));
    }
    let (own, rest) = bytes.split_at(size as usize);
    match gtrid_of(own) {
        Some(id) => (id, rest),
        None => (Gtrid::empty(), rest),
    }
}

/// A key.
pub fn key(bytes: &[u8]) -> (Key, &[u8])
    ensures reads { ReadsFront key_bytes IsRecordKey bytes.now result.0 result.1.now }
{
    let (timestamp, bytes) = number_8(bytes);
    let (class, bytes) = byte(bytes);
    if class == SHARED {
        let (gtrid, rest) = id(bytes);
        return (Key::Shared { timestamp, gtrid }, rest);
    }
    let (node, bytes) = number_4(bytes);
    let (entry, rest) = number_8(bytes);
    (
        Key::Plain {
            timestamp,
            node,
            entry,
        },
        rest,
    )
}
