//! The law of the events that may be taken.

ghost use Rattle.cdc_group.specs.Taking.{WholeEventsAreTaken};

/// A law: each whole event of a file may be taken. It is one of its type, of at most 2^27 bytes.
pub fn whole_events_are_taken()
    ensures { WholeEventsAreTaken }
{}
