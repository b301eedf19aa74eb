//! Doors and their links: each door's links are served one after another, doors beside each other.
//!
//! `serve_door` takes link after link of a door, and serves each by a login where users are named, and by a session
//! over the door's output. `serve_all` does so for all doors of a server, each by a thread of its own. Definitions:
//! `Links`, `Numbers`, `Ends`, `Doors`, `Server`.
#![tactic(auto)]

mod door_end;
mod doors;
mod link_end;
mod linking;
mod serve_end;
mod server;

pub use door_end::DoorEnd;
pub use doors::serve_door;
pub use link_end::{LinkEnd, number_of};
pub use serve_end::{FirstEnd, ServeEnd};
pub use server::serve_all;
