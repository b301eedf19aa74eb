//! Devices in memory, which tell their content and fail where they are told to.
//!
//! `MemSource` and `PureSource` hold files, `MemSink` keeps what is written; `MemLink`, `PureLink`, `MemDoor`,
//! `PureDoor` and `MemSalt` are a client's connections, where they come in, and what is drawn for a login; `MemDisk` is a folder
//! that a crash may tear. Calls are counted from 1, from the
//! making of the device; a device fails at the listed calls and nowhere else, but that a sink and a link also fail past
//! their room, and a salt past the end of its draws. Used by the drills of the top call and by tests. Definitions: `Calls`, `Source`,
//! `Sink`, `Wire`, `Link`, `Door`, `Salt`.
#![tactic(auto)]

mod calls;
mod crash;
mod disk_files;
mod disk_record;
mod door;
mod files;
mod link;
mod mem_disk;
mod mem_file;
mod pure_door;
mod returned;
mod salt;
mod sink;
mod source;
mod wire;

pub use door::MemDoor;
pub use link::{MemLink, PureLink};
pub use mem_disk::MemDisk;
pub use pure_door::PureDoor;
pub use returned::Returned;
pub use salt::MemSalt;
pub use sink::MemSink;
pub use source::{MemSource, PureSource};
