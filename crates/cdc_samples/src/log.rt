//! The bytes of a log.
//!
//! An event has seconds 5, server 9, no flags and the true next place; a branch has the format 1 and no qualifier.

ghost use Rattle.std.specs.Prelude.{◌≡◌, ◌+◌, ◌*◌, ◌≤◌, ◌<◌, ◌^◌, [], ◌++◌, length, IfOk, OnOk};
ghost use Rattle.cdc_samples.specs.declared.not_made.NotMade.TheVariants.{TooLong as IsTooLong};

use crate::not_made::NotMade;
use cdc_base::{Blob, Buffer, Memory};
use cdc_event::{HEADER_LENGTH, kind};
use std::alloc::Global;
use std::marker::Model;

/// The most bytes of a log.
pub const LOG_MAX: usize = 1 << 30;

/// The first 123 bytes of a file: the magic, and a format event of version 4 that names no checksum.
const HEAD: [u8; 123] = *b"\xfebin\
    \x00\x00\x00\x00\x0f\x01\x00\x00\x00\x77\x00\x00\x00\x7b\x00\x00\x00\x00\x00\
    \x04\x005.7.0-cdc\
    \x00\x00\x00\x00\x00\x00\x00\x00\x00\x00\x00\x00\x00\x00\x00\x00\x00\x00\x00\x00\x00\
    \x00\x00\x00\x00\x00\x00\x00\x00\x00\x00\x00\x00\x00\x00\x00\x00\x00\x00\x00\x00\
    \x00\x00\x00\x00\x13\
    \x38\x0d\x00\x08\x00\x12\x00\x04\x04\x04\x04\x12\x00\x00\x5f\x00\x04\x1a\x08\
    \x00\x00\x00\x08\x08\x08\x02\x00\x00\x00\x0a\x0a\x0a\x2a\x2a\x00\x12\x34\x00\
    \x00\x00\x00\x00\x00";

/// The body of the table map of d1.t1, and a row event's body before its value.
const TABLE: [u8; 20] = *b"\x01\0\0\0\0\0\x01\0\x02d1\0\x02t1\0\x01\x03\0\x01";

const ROW: [u8; 13] = *b"\x01\0\0\0\0\0\x01\0\x02\0\x01\xff\0";

/// The bytes of a log, seen as the list of them, of which there are at most `LOG_MAX`.
///
/// After an error a log may have a part of what was asked for.
#[derive(Debug, Drop)]
pub struct Log {
    alloc: Global,
    bytes: Buffer,
}

impl Model for Log {
    ghost use Rattle.std.specs.Prelude.{List, ℕ, ◌≤◌, ◌^◌, length};

    ghost Value = { List ℕ };

    ghost view = { λ log. log.bytes };

    ghost invariant = { λ log. length log.bytes ≤ 2 ^ 30 };
}

impl Log {
    /// No byte.
    pub fn new(alloc: Global) -> Log
        ensures { result ≡ [] }
    {
        Log {
            alloc,
            bytes: Buffer::new(alloc),
        }
    }

    /// No byte, and room for so many.
    pub fn with_room(alloc: Global, room: usize) -> Result<Log, Memory>
        ensures { IfOk result (λ log. log ≡ []) }
    {
        Ok(Log {
            alloc,
            bytes: Buffer::with_room(alloc, room)?,
        })
    }

    /// The bytes.
    pub fn bytes(&self) -> &[u8]
        ensures value { result.now ≡ self.now }
        ensures short { length result.now ≤ 2 ^ 30 }
    {
        self.bytes.bytes()
    }

    /// The bytes, to be shared.
    pub fn freeze(self) -> Result<Blob, Memory>
        ensures { IfOk result (λ blob. (blob ≡ self) × (length blob ≤ 2 ^ 30)) }
    {
        self.bytes.freeze()
    }

    /// These bytes, as they are.
    pub fn push(&mut self, bytes: &[u8]) -> Result<(), NotMade>
        ensures ok { OnOk result (self.new ≡ self.old ++ bytes.now) }
        ensures too_long { result ≡ Err IsTooLong → 2 ^ 30 < length self.old + length bytes.now }
    {
        if bytes.len() > LOG_MAX - self.bytes.len() {
            return Err(NotMade::TooLong);
        }
        match self.bytes.push(bytes) {
            Ok(()) => Ok(()),
            Err(Memory) => Err(NotMade::Memory),
        }
    }

    /// A header that tells this length.
    pub fn push_header(&mut self, kind: u8, told: u32) -> Result<(), NotMade>
        ensures { OnOk result (length self.new ≡ length self.old + 19) }
    {
        let next = (self.bytes.len() as u32).wrapping_add(told);
        let [a, b, c, d] = told.to_le_bytes();
        let [e, f, g, h] = next.to_le_bytes();
        self.push(&[5, 0, 0, 0, kind, 9, 0, 0, 0, a, b, c, d, e, f, g, h, 0, 0])
    }

    /// An event of this body, with a tail behind it, as a checksum is one.
    pub fn push_event(&mut self, kind: u8, body: &[u8], tail: &[u8]) -> Result<(), NotMade>
        ensures { OnOk result (length self.new ≡ length self.old + 19 + length body.now + length tail.now) }
    {
        if body.len() > LOG_MAX || tail.len() > LOG_MAX {
            return Err(NotMade::TooLong);
        }
        let told = HEADER_LENGTH + body.len() + tail.len();
        self.push_header(kind, told as u32)?;
        self.push(body)?;
        self.push(tail)
    }

    /// The magic.
    pub fn magic(&mut self) -> Result<(), NotMade>
        ensures { OnOk result (length self.new ≡ length self.old + 4) }
    {
        self.push(&HEAD[..4])
    }

    /// The magic, and a format event that names no checksum.
    pub fn head(&mut self) -> Result<(), NotMade>
        ensures { OnOk result (length self.new ≡ length self.old + 123) }
    {
        self.push(&HEAD)
    }

    /// A format event that names this checksum algorithm.
    pub fn format(&mut self, checksum: u8) -> Result<(), NotMade>
        ensures { OnOk result (length self.new ≡ length self.old + 119) }
    {
        let mut body = [0; 100];
        body[..95].copy_from_slice(&HEAD[23..118]);
        body[95] = checksum;
        self.push_event(kind::FORMAT, &body, &[])
    }

    /// A query without a database.
    pub fn query(&mut self, text: &[u8], tail: &[u8]) -> Result<(), NotMade>
        ensures { OnOk result (length self.new ≡ length self.old + 33 + length text.now + length tail.now) }
    {
        let mut body = Buffer::new(self.alloc);
        body.push(&[0; 14])?;
        body.push(text)?;
        self.push_event(kind::QUERY, body.bytes(), tail)
    }

    /// A text about rows, with a size byte before it.
    pub fn marked(&mut self, text: &[u8]) -> Result<(), NotMade>
        ensures { OnOk result (length self.new ≡ length self.old + 20 + length text.now) }
    {
        let mut body = Buffer::new(self.alloc);
        body.push(&[7])?;
        body.push(text)?;
        self.push_event(kind::ROWS_QUERY, body.bytes(), &[])
    }

    /// An XA statement in its canonical text.
    pub fn statement(&mut self, verb: &[u8], id: &[u8], tail: &[u8]) -> Result<(), NotMade>
        ensures { OnOk result (length self.new ≡ length self.old + 43 + length verb.now + 2 * length id.now + length tail.now) }
    {
        let mut text = Buffer::new(self.alloc);
        text.push(verb)?;
        text.push(b" X'")?;
        push_digits(&mut text, id)?;
        text.push(b"',X'',1")?;
        self.query(text.bytes(), tail)
    }

    /// An XA_PREPARE event, with this byte for `one_phase`.
    pub fn prepared(&mut self, one_phase: u8, id: &[u8], tail: &[u8]) -> Result<(), NotMade>
        ensures { OnOk result (length self.new ≡ length self.old + 32 + length id.now + length tail.now) }
    {
        let [a, b, c, d] = u32::try_from(id.len()).unwrap_or(u32::MAX).to_le_bytes();
        let mut body = Buffer::new(self.alloc);
        body.push(&[one_phase, 1, 0, 0, 0, a, b, c, d, 0, 0, 0, 0])?;
        body.push(id)?;
        self.push_event(kind::XA_PREPARE, body.bytes(), tail)
    }

    /// A TIMESTAMP event: of class 1 a commit timestamp, of class 2 a heartbeat.
    pub fn timestamp(&mut self, class: u8, timestamp: u64, tail: &[u8]) -> Result<(), NotMade>
        ensures { OnOk result (length self.new ≡ length self.old + 28 + length tail.now) }
    {
        let [a, b, c, d, e, f, g, h] = timestamp.to_le_bytes();
        self.push_event(kind::TIMESTAMP, &[class, a, b, c, d, e, f, g, h], tail)
    }

    /// A table map of d1.t1, and a row event of this value.
    pub fn rows(&mut self, value: u32) -> Result<(), NotMade>
        ensures { OnOk result (length self.new ≡ length self.old + 75) }
    {
        self.push_event(kind::TABLE_MAP, &TABLE, &[])?;
        let mut body = Buffer::new(self.alloc);
        body.push(&ROW)?;
        body.push(&value.to_le_bytes())?;
        self.push_event(30, body.bytes(), &[])
    }

    /// `XA END` and XA_PREPARE.
    fn ended(&mut self, one_phase: u8, id: &[u8]) -> Result<(), NotMade>
        ensures { OnOk result (length self.new ≡ length self.old + 81 + 3 * length id.now) }
    {
        self.statement(b"XA END", id, &[])?;
        self.prepared(one_phase, id, &[])
    }

    /// A branch without rows is prepared: 142 bytes where the id has 2.
    pub fn prepare(&mut self, id: &[u8]) -> Result<(), NotMade>
        ensures { OnOk result (length self.new ≡ length self.old + 132 + 5 * length id.now) }
    {
        self.statement(b"XA START", id, &[])?;
        self.ended(0, id)
    }

    /// A branch with a row of this value is prepared: 217 bytes where the id has 2.
    pub fn prepare_row(&mut self, id: &[u8], value: u32) -> Result<(), NotMade>
        ensures { OnOk result (length self.new ≡ length self.old + 207 + 5 * length id.now) }
    {
        self.statement(b"XA START", id, &[])?;
        self.rows(value)?;
        self.ended(0, id)
    }

    /// A branch with a row of this value is prepared and committed at once: 245 bytes where the id has 2.
    pub fn one_phase(&mut self, id: &[u8], timestamp: u64, value: u32) -> Result<(), NotMade>
        ensures { OnOk result (length self.new ≡ length self.old + 235 + 5 * length id.now) }
    {
        self.timestamp(1, timestamp, &[])?;
        self.statement(b"XA START", id, &[])?;
        self.rows(value)?;
        self.ended(1, id)
    }

    /// A branch is committed: 84 bytes where the id has 2.
    pub fn commit(&mut self, id: &[u8], timestamp: u64) -> Result<(), NotMade>
        ensures { OnOk result (length self.new ≡ length self.old + 80 + 2 * length id.now) }
    {
        self.timestamp(1, timestamp, &[])?;
        self.statement(b"XA COMMIT", id, &[])
    }

    /// A branch is rolled back: 58 bytes where the id has 2.
    pub fn rollback(&mut self, id: &[u8]) -> Result<(), NotMade>
        ensures { OnOk result (length self.new ≡ length self.old + 54 + 2 * length id.now) }
    {
        self.statement(b"XA ROLLBACK", id, &[])
    }

    /// A heartbeat.
    pub fn beat(&mut self, timestamp: u64) -> Result<(), NotMade>
        ensures { OnOk result (length self.new ≡ length self.old + 28) }
    {
        self.timestamp(2, timestamp, &[])
    }

    /// The XID event of number 1, alone.
    pub fn xid(&mut self) -> Result<(), NotMade>
        ensures { OnOk result (length self.new ≡ length self.old + 27) }
    {
        self.push_event(kind::XID, &[1, 0, 0, 0, 0, 0, 0, 0], &[])
    }

    /// A local transaction without rows: `BEGIN`, and XID 1.
    pub fn plain(&mut self) -> Result<(), NotMade>
        ensures { OnOk result (length self.new ≡ length self.old + 65) }
    {
        self.query(b"BEGIN", &[])?;
        self.xid()
    }

    /// A local transaction with a row of this value.
    pub fn plain_row(&mut self, value: u32) -> Result<(), NotMade>
        ensures { OnOk result (length self.new ≡ length self.old + 140) }
    {
        self.query(b"BEGIN", &[])?;
        self.rows(value)?;
        self.xid()
    }
}

/// A digit of base 16.
fn digit(value: u8) -> u8 {
    *b"0123456789abcdef".get(value as usize).unwrap_or(&b'?')
}

/// Appends bytes in lower-case digits of base 16.
pub fn push_digits(text: &mut Buffer, bytes: &[u8]) -> Result<(), Memory>
    ensures { OnOk result (length text.new ≡ length text.old + 2 * length bytes.now) }
{
    for byte in bytes {
        text.push(&[digit(*byte / 16), digit(*byte % 16)])?;
    }
    Ok(())
}
