//! Tests of doors: links in order, faults, logins, doors beside each other, and sockets of this machine.
//!
//! Requests and replies are bytes that a program of another language made from the formats.
#![tactic(auto)]

#[cfg(test)]
mod door_tests;
#[cfg(test)]
mod login_tests;
#[cfg(test)]
mod made;
#[cfg(test)]
mod server_tests;
#[cfg(test)]
mod socket_tests;
