//! A line for the error stream, put together in place, so that it takes no memory.

ghost use Rattle.std.specs.Prelude.{◌≡◌, ◌+◌, ◌*◌, ◌≤◌, ◌++◌, length, decimal};
ghost use Rattle.hex.specs.Hex.{encode_lower};
ghost use Rattle.cdc_top.specs.FaultText.{shown_place, shown_xid};
ghost use Rattle.cdc_top.specs.KeptText.{shown_layout, shown_key};

use arrayvec::ArrayVec;
use cdc_base::{Gtrid, Key, Place, Xid};
use cdc_model::Layout;

/// The most bytes of a line. The longest, of a branch with two ids of 64 bytes, has 336.
pub const LINE_MAX: usize = 400;

/// The bytes of a line.
pub type Line = ArrayVec<u8, LINE_MAX>;

/// Puts a piece behind a line's bytes.
pub fn put(line: &mut Line, piece: &[u8])
    requires { length line.old.items + length piece.now ≤ LINE_MAX }
    ensures items { line.new.items ≡ line.old.items ++ piece.now }
    ensures len { length line.new.items ≡ length line.old.items + length piece.now }
{
    let _ = line.try_extend_from_slice(piece);
}

/// Puts a number in decimal.
pub fn put_number(line: &mut Line, number: u64)
    requires { length line.old.items + 20 ≤ LINE_MAX }
    ensures items { line.new.items ≡ line.old.items ++ decimal number }
    ensures len { length line.new.items ≤ length line.old.items + 20 }
{
    put(line, itoa::Buffer::new().format(number).as_bytes());
}

/// Puts the digits of an id.
fn put_id(line: &mut Line, id: &Gtrid)
    requires { length line.old.items + 128 ≤ LINE_MAX }
    ensures items { line.new.items ≡ line.old.items ++ encode_lower id.now }
    ensures len { length line.new.items ≤ length line.old.items + 128 }
{
    let bytes = id.bytes();
    let mut digits = [0; 128];
    let digits = &mut digits[..2 * bytes.len()];
    let encoded = hex::encode_to_slice(bytes, digits).is_ok();
    prove!(encoded);
    put(line, digits);
}

/// Puts the name of a branch.
pub fn put_xid(line: &mut Line, xid: &Xid)
    requires { length line.old.items + 278 ≤ LINE_MAX }
    ensures items { line.new.items ≡ line.old.items ++ shown_xid xid.now }
    ensures len { length line.new.items ≤ length line.old.items + 278 }
{
    put_id(line, &xid.gtrid);
    put(line, b",");
    put_id(line, &xid.bqual);
    put(line, b",");
    put_number(line, u64::from(xid.format));
}

/// Puts a place.
pub fn put_place(line: &mut Line, place: Place)
    requires { length line.old.items + 41 ≤ LINE_MAX }
    ensures items { line.new.items ≡ line.old.items ++ shown_place place }
    ensures len { length line.new.items ≤ length line.old.items + 41 }
{
    put_number(line, u64::from(place.file));
    put(line, b":");
    put_number(line, place.at);
}

/// Puts where an out stands.
pub fn put_layout(line: &mut Line, at: &Layout)
    requires { length line.old.items + 41 ≤ LINE_MAX }
    ensures items { line.new.items ≡ line.old.items ++ shown_layout at.now }
    ensures len { length line.new.items ≤ length line.old.items + 41 }
{
    put_number(line, at.file);
    put(line, b":");
    put_number(line, at.length);
}

/// Puts a key.
pub fn put_key(line: &mut Line, key: &Key)
    requires { length line.old.items + 151 ≤ LINE_MAX }
    ensures items { line.new.items ≡ line.old.items ++ shown_key key.now }
    ensures len { length line.new.items ≤ length line.old.items + 151 }
{
    match key {
        Key::Shared { timestamp, gtrid } => {
            put_number(line, *timestamp);
            put(line, b",0,");
            put_id(line, gtrid);
        }
        Key::Plain {
            timestamp,
            node,
            entry,
        } => {
            put_number(line, *timestamp);
            put(line, b",1,");
            put_number(line, u64::from(*node));
            put(line, b",");
            put_number(line, *entry);
        }
    }
}
