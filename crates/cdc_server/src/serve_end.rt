//! What all doors come to.

ghost use Rattle.std.specs.Prelude.{◌≡◌};
ghost use Rattle.cdc_server.specs.Server.{serve_end};

use crate::door_end::DoorEnd;
use cdc_dumper::OpenFault;

/// The end of one of several doors: the door's number, from 1, and what its serving came to.
#[derive(Clone, Copy, Debug, PartialEq, Eq)]
pub struct FirstEnd {
    pub door: u32,
    pub ending: DoorEnd,
}

/// What a server's doors come to: the first cause, in this order, that came, with the least door that it came at, from 1.
/// The output of a door has the door's number.
#[derive(Clone, Copy, Debug, PartialEq, Eq)]
pub enum ServeEnd {
    /// The disk of an output failed. Its count of faults says so too.
    Disk { out: u32 },
    /// An output is refused.
    Kept { out: u32, fault: OpenFault },
    /// What is published of a file isn't the magic and whole events to its end.
    Torn { out: u32 },
    /// There was no memory.
    Memory,
    /// A door failed. Its count of faults says so too.
    Door { door: u32 },
    /// A door's salt failed. Its count of faults says so too.
    Salt { door: u32 },
    /// Each door is shut.
    Done,
}

/// What the first end of doors says of their server.
pub(crate) fn serve_end_of(first: FirstEnd) -> ServeEnd
    ensures { result ≡ serve_end first.door first.ending }
{
    match first.ending {
        DoorEnd::Disk => ServeEnd::Disk { out: first.door },
        DoorEnd::Kept(fault) => ServeEnd::Kept {
            out: first.door,
            fault,
        },
        DoorEnd::Torn => ServeEnd::Torn { out: first.door },
        DoorEnd::Memory => ServeEnd::Memory,
        DoorEnd::Door => ServeEnd::Door { door: first.door },
        DoorEnd::Salt => ServeEnd::Salt { door: first.door },
        DoorEnd::Done => ServeEnd::Done,
    }
}
