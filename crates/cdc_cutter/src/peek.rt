//! What stands next in a cutter's bytes.

use cdc_base::Place;
use cdc_event::{EventView, FileFault};

/// What a cutter would answer, with the event in place.
#[derive(Clone, Copy, Debug)]
pub enum Peek<'a> {
    /// The next event, from `at` to `end` (not included), and the checksum setting behind it.
    Event {
        at: Place,
        end: Place,
        event: EventView<'a>,
        checksum: u8,
    },
    /// The bytes so far hold no further whole event and no fault: feed more, or at the file's end go to the next.
    Need,
    /// The file's fault, which stands at this place.
    Fault {
        place: Place,
        fault: FileFault,
    },
}
