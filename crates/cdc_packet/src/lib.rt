//! Packets of a MySQL connection: how a request is read and a reply is sent, and what a request asks for.
//!
//! `read_packet` reads one request, `read_command` says what it asks for, `write_packet` sends one payload, split
//! where it is longer than a packet. Called for a login and by a session. Definitions: `Packet`, `Request`,
//! `Command`.
#![tactic(auto)]

mod command;
mod packet_end;
mod reading;
mod writing;

pub use command::{Command, read_command};
pub use packet_end::{LinkFault, PacketEnd};
pub use reading::read_packet;
pub use writing::{HEAD_LENGTH, PACKET_MAX, head_of, write_packet};
