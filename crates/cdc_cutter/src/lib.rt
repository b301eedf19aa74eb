//! The events of a node's log files, from their bytes in pieces of any size.
//!
//! A `Cutter` is fed a file's bytes (`feed`), gives the events that are whole, with their places and settings
//! (`next`, or in place by `peek` and `pass`), and goes on to the next file (`next_file`). Whatever the pieces, the
//! events are those of the file: `specs/Cutting.antt` says so over all bytes that a cutter may have been fed.
//!
//! The caller's loop, which feeds where no whole event is left, and goes on where the file has no more bytes:
//!
//! ```text
//! loop {
//!     match cutter.peek() {
//!         Peek::Event { at, end, event, checksum } => {
//!             use_event(at, end, &event)?;
//!             cutter.pass(end, checksum);
//!         }
//!         Peek::Need => match read_piece()? {
//!             Some(piece) => cutter.feed(piece)?,
//!             None if is_last_file() => return Ok(()),
//!             None => cutter.next_file(),
//!         },
//!         Peek::Fault { place, fault } => return Err((place, fault)),
//!     }
//! }
//! ```
#![tactic(auto)]

mod cut;
mod cutter;
mod peek;
mod pending;
mod seen;
mod state;
mod whole;

pub use cdc_event::FileFault;
pub use cut::Cut;
pub use cutter::Cutter;
pub use peek::Peek;
pub use state::CutterState;
