//! The printed form of transactions: their events as bytes of an output file.
//!
//! `print_length` says how long a transaction's print is, and `print` appends it to a buffer, event by event;
//! `printed_bytes` of `cdc_model` says which bytes these are. `write_head` appends the head of an output file.
//! `place` says where a print goes, and `unit` gives all that one transaction appends to the output, as one run of
//! bytes: the head where one is due, the print, and the ROTATE event where the file closes. Called by the output
//! stage and by the printer of one file.
#![tactic(auto)]

mod different;
mod digits;
mod event;
mod head;
mod laws;
mod length;
mod mark;
mod printing;
mod rotate;
mod rows;
mod run;
mod spot;
mod statement;
mod transaction;

pub use head::{HEAD_LENGTH, write_head};
pub use laws::{head_has_its_length, prints_have_their_length, prints_without_rows_are_short};
pub use length::print_length;
pub use printing::{PRINT_MAX, PrintError, print};
pub use run::unit;
pub use spot::{Spot, place};
