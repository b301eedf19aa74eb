//! Adapters over real files and standard streams: the trusted edge.
//!
//! `FileSource` reads opened files, `HeldSource` keeps what one file had, `FileDisk` is a disk over a folder,
//! `StdSink` writes to a stream and `StdStream` is either of the two standard streams. `TcpDoor` is a port at which
//! clients connect, `TcpLink` one connection, `SystemSalt` the system's random bytes. They count each failure of the system, and tell no content,
//! since no contract knows what a file holds, but for `HeldSource`, which tells what it keeps. Called by the
//! programs' `main` alone. Definitions: `Share`, `Stream`, `Held`,
//! `FileNames`, `Gathering`.
#![tactic(auto)]

mod counted;
mod file_disk;
mod file_path;
mod file_source;
mod gathered;
mod held_source;
mod open_folder;
mod opened;
mod std_sink;
mod system_salt;
mod tcp_door;
mod tcp_link;

pub use file_disk::FileDisk;
pub use file_source::FileSource;
pub use held_source::HeldSource;
pub use std_sink::{StdSink, StdStream};
pub use system_salt::SystemSalt;
pub use tcp_door::TcpDoor;
pub use tcp_link::TcpLink;
