//! One client's session over one output's published files.
//!
//! `session` reads requests one after another, and answers each: a dump streams published events, and no byte behind
//! the Front. What it writes and how it ends is a definition over the published files and the client's bytes. Called
//! for each link of a door, after the login where there is one. Definitions: `Shelf`, `Dump`, `Reply`, `Following`.
#![tactic(auto)]

mod copying;
mod dump_stop;
mod dumping;
mod events;
mod files;
mod gathering;
mod naming;
mod serving;
mod session_end;
mod window;

pub use serving::session;
pub use session_end::SessionEnd;
