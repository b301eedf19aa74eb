//! What a cutter answers.

use cdc_base::Place;
use cdc_event::{Event, FileFault};

/// What a cutter answers.
#[derive(Debug, Drop)]
pub enum Cut {
    /// The next event, from `at` to `end` (not included), and the checksum setting behind it.
    Event {
        at: Place,
        end: Place,
        event: Event,
        checksum: u8,
    },
    /// The bytes so far hold no further whole event and no fault: feed more, or at the file's end go to the next.
    Need,
    /// The file's fault, which stands at this place.
    Fault {
        place: Place,
        fault: FileFault,
    },
}
