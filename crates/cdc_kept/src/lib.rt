//! A pass over kept disks: it is opened, and goes on soundly.
//!
//! An output is kept where it has some first transactions of the logs, a task where its checkpoint is sound for them. These laws
//! say that the opening of a pass refuses no kept disk, and that a pass which was opened goes on behind a restart point of each
//! log, with no more transactions than each output has. Each function ensures its law, so that the check proves it. Called by
//! the pass. Definitions: `Kept`, `Laws`.
#![tactic(auto)]

mod laws;

pub use laws::{kept_disks_are_opened, opened_pass_goes_on};
