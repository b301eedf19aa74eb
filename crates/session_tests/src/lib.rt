//! Tests of what is served: logins, places in published files, sessions.
//!
//! Requests and replies are tables of bytes that a program of another language made from the formats.
#![tactic(auto)]

#[cfg(test)]
mod large_tests;
#[cfg(test)]
mod login_tests;
#[cfg(test)]
mod place_tests;
#[cfg(test)]
mod serving_tests;
