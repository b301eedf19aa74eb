//! One record over two slots of a disk, which a crash leaves old or new.
//!
//! A slot is a gate byte, a number, a length and a payload, and counts where its gate is open and all is there.
//! `Cell::open` finds the record with the greater number, `load` reads of its payload, and `store` writes the
//! next one into the other slot: its gate is closed, it is filled, and its gate is opened, each made durable
//! before the next. No call takes memory. Called by the dumper and by the task's checkpoint. Definitions:
//! `Slot`, `Record`, `Reading`.
#![tactic(auto)]

mod cell;
mod fault;
mod reading;
mod slot;
mod stages;

pub use cell::Cell;
pub use fault::{CellFault, DiskFault};
pub use reading::read_full;
