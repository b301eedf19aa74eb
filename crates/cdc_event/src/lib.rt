//! The events of a node's log, as the MySQL binary log (version 4) spells them.
//!
//! An event is a header of 19 bytes and a body; `specs/Event.antt` says which bytes spell which event.
//! `read_view` reads an event in place, `read_owned_body` one that shares its bytes, `write_event` writes one.
//! Called by the cutter and the writer of logs.
#![tactic(auto)]

mod body;
mod event;
mod fault;
mod header;
pub mod kind;
mod laws;
mod number;
mod offsets;
mod reading;
mod sharing;
mod size;
mod view;
mod view_reading;
mod writing;

pub use body::Body;
pub use event::Event;
pub use fault::{EventFault, FileFault, ReadError};
pub use header::{HEADER_LENGTH, Header, LENGTH_MAX, MAGIC, check_length, read_header};
pub use laws::{
    each_file_is_read, events_and_bytes_correspond, faults_are_told_apart, file_is_read_in_one_way,
    grown_file_continues, no_event_begins_another, rest_is_read, what_is_written_is_read,
};
pub use number::{bytes_4, number_2, number_4};
pub use reading::read_owned_body;
pub use view::{BodyView, EventView};
pub use view_reading::{read_view, view_body};
pub use writing::{header_array, write_body, write_event};
