//! Laws of the event encoding and of a file's events. Each function does nothing; its clause is the law.

ghost use Rattle.cdc_event.specs.File.{EachIsRead, FilesHaveOneReading, GrownFileContinues, RestIsRead};
ghost use Rattle.cdc_event.specs.Laws.{WrittenIsRead, OneEvent, OneByteList, NoFront, OneFault, FormatByFields};

/// What was written is read again, where nothing ends with a checksum, but for a format event whose
/// algorithm isn't known.
pub fn what_is_written_is_read()
    ensures { WrittenIsRead }
{}

/// A byte list is at most one event, and an event has at most one byte list.
pub fn events_and_bytes_correspond()
    ensures one_event { OneEvent }
    ensures one_byte_list { OneByteList }
{}

/// No event's bytes are a proper front of another's.
pub fn no_event_begins_another()
    ensures { NoFront }
{}

/// An event's body has at most one fault; a format event's is told by its fields.
pub fn faults_are_told_apart()
    ensures one_fault { OneFault }
    ensures format { FormatByFields }
{}

/// All bytes are events one behind another and then less than an event, or a fault, from a file's start or an event's
/// end on.
pub fn each_file_is_read()
    ensures { EachIsRead }
{}

/// The bytes of a file, or of a file from an event's end on, have one list of events and one fault at most.
pub fn file_is_read_in_one_way()
    ensures { FilesHaveOneReading }
{}

/// A file that has grown keeps the events that it had, and its fault where it had one.
pub fn grown_file_continues()
    ensures { GrownFileContinues }
{}

/// From an event's end on, under the setting there, the events behind it are read, and the same fault.
pub fn rest_is_read()
    ensures { RestIsRead }
{}
