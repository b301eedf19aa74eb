//! The records that outputs and the task keep: which bytes they are, and what they say.
//!
//! A `Front` tells how far an output is published, as one record over the two slots of its disk. Its bytes, in both
//! versions, and the published files are definitions. A `Checkpoint` tells from where a pass goes on. Called by the dumper, the task's checkpoint and the sessions.
//! Definitions: `KeyBytes`, `Front`, `Published`, `Checkpoint`.
#![tactic(auto)]

mod checkpoint;
mod checkpoint_laws;
mod front;

pub use checkpoint::{Checkpoint, CutList};
pub use checkpoint_laws::{bytes_are_one_point, image_has_one_point};
pub use front::Front;
