//! What recovery means: which contents of outputs and of the task a pass can go on from, and that nothing loses them.
//!
//! An output is recoverable with a count where its Front and its published files are those of the first so many transactions;
//! the task, where its checkpoint is sound. The definitions are in `specs/`; each law is an empty public function that
//! ensures it. Called by the stages and the pass, whose promises speak in these words. Definitions: `Outputs`,
//! `Checkpoints`, `Growing`, `Laws`.
#![tactic(auto)]

mod growing;
mod laws;
mod moves;

pub use growing::{growing_goes_on, nothing_grows, passes_and_stops_keep};
pub use laws::{
    checkpoint_stays_sound, count_is_one, image_has_one_front, latest_is_last, logs_keep_outputs,
    logs_keep_task, no_task_is_kept, nothing_is_kept, outputs_stay_kept,
};
pub use moves::{
    each_append_keeps, each_commit_keeps, each_opening_keeps, each_still_keeps, each_trim_keeps,
    each_unit_keeps,
};
