//! Why bytes are no event.

ghost use Rattle.std.specs.Prelude.{◌≡◌};
ghost use Rattle.cdc_event.specs.declared.fault.ReadError.TheVariants.{Memory as NoMemory};

use cdc_base::Memory;

/// What is wrong with the bytes of an event. (5 is unused among the variants' numbers.)
#[derive(Clone, Copy, Debug, PartialEq, Eq)]
pub enum EventFault {
    /// The length field is less than an event needs.
    ShortLength(u32),
    /// The length field is above 2^27.
    TooLong(u32),
    /// The body doesn't fit the layout of this type.
    BadBody(u8),
    /// Type 40, a compressed transaction.
    Compressed,
    /// A format event of another form than version 4 with headers of 19 bytes and algorithm 0 or 1.
    BadFormat,
    /// Type 39, rows updated in part.
    Partial,
}

/// What is wrong with a log file.
#[derive(Clone, Copy, Debug, PartialEq, Eq)]
pub enum FileFault {
    /// The file's first four bytes aren't the magic of a log.
    BadMagic,
    /// An event is faulty.
    Event(EventFault),
}

/// Why an event couldn't be read.
#[derive(Clone, Copy, Debug, PartialEq, Eq)]
pub enum ReadError {
    Fault(EventFault),
    /// There was no memory; nothing has changed.
    Memory,
}

impl From<Memory> for ReadError {
    ghost from_gives = { λ _ error. error ≡ NoMemory };

    fn from(_memory: Memory) -> ReadError {
        ReadError::Memory
    }
}
