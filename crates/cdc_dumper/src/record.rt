//! A Front's record as bytes, in a fixed piece of memory.

ghost use Rattle.std.specs.Prelude.{◌≡◌, ◌+◌, ◌≤◌, ◌∷◌, ◌++◌, length};
ghost use Rattle.cdc_event.specs.Number.{low_first};
ghost use Rattle.cdc_records.specs.KeyBytes.{flag_byte, key_bytes, IsRecordKey};
ghost use Rattle.cdc_records.specs.Front.{front_bytes, front_numbers};

use arrayvec::ArrayVec;
use cdc_base::Key;
use cdc_records::Front;

/// The most bytes of a record: the second version with an id of 64 bytes.
pub const RECORD_MAX: usize = 116;

/// A record's bytes.
pub type RecordBytes = ArrayVec<u8, RECORD_MAX>;

/// The eight bytes of a number.
#[tactic(auto, using(cdc_event::proofs::Numbers::low_first_8, cdc_event::proofs::Numbers::length_low_first))]
fn bytes_8(number: u64) -> [u8; 8]
    ensures { result ≡ low_first 8 number }
{
    number.to_le_bytes()
}

/// The four bytes of a number.
#[tactic(auto, using(cdc_event::proofs::Numbers::low_first_4, cdc_event::proofs::Numbers::length_low_first))]
fn bytes_4(number: u32) -> [u8; 4]
    ensures { result ≡ low_first 4 number }
{
    number.to_le_bytes()
}

/// Puts a piece behind a record's bytes.
fn put(into: &mut RecordBytes, piece: &[u8])
    requires { length into.old.items + length piece.now ≤ RECORD_MAX }
    ensures items { into.new.items ≡ into.old.items ++ piece.now }
    ensures len { length into.new.items ≡ length into.old.items + length piece.now }
{
    let _ = into.try_extend_from_slice(piece);
}

/// A key's parts fit into their bytes.
pub fn key_fits(key: &Key)
    ensures { IsRecordKey key.now }
{
    match key {
        Key::Shared { timestamp, gtrid } => {
            let _timestamp = *timestamp;
            let _bytes = gtrid.bytes();
        }
        Key::Plain {
            timestamp,
            node,
            entry,
        } => {
            let _parts = (*timestamp, *node, *entry);
        }
    }
}

/// Puts a key behind a record's bytes.
fn put_key(into: &mut RecordBytes, key: &Key)
    requires { length into.old.items ≤ 42 }
    ensures { into.new.items ≡ into.old.items ++ key_bytes key.now }
{
    match key {
        Key::Shared { timestamp, gtrid } => {
            let id = gtrid.bytes();
            put(into, &bytes_8(*timestamp));
            put(into, &[0, id.len() as u8]);
            put(into, id);
        }
        Key::Plain {
            timestamp,
            node,
            entry,
        } => {
            put(into, &bytes_8(*timestamp));
            put(into, &[1]);
            put(into, &bytes_4(*node));
            put(into, &bytes_8(*entry));
        }
    }
}

/// Puts the version and what both versions begin with.
fn put_numbers(into: &mut RecordBytes, version: u8, front: &Front)
    requires { length into.old.items ≤ 0 }
    ensures items { into.new.items ≡ into.old.items ++ version ∷ front_numbers front.now }
    ensures len { length into.new.items ≡ length into.old.items + 26 }
{
    put(into, &[version]);
    put(into, &bytes_8(front.count));
    put(into, &bytes_8(front.file));
    put(into, &bytes_8(front.length));
    put(into, &[u8::from(front.closed)]);
}

/// The bytes of a Front's record.
pub fn front_record(front: &Front) -> RecordBytes
    ensures { result.items ≡ front_bytes front.now }
{
    let mut into = ArrayVec::new();
    match &front.last {
        None => put_numbers(&mut into, 1, front),
        Some(key) => {
            put_numbers(&mut into, 2, front);
            put(&mut into, &bytes_8(front.first));
            put(&mut into, &bytes_8(front.passed));
            put_key(&mut into, key);
        }
    }
    into
}
