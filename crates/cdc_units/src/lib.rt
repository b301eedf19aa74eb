//! The units of a pass: what its merge stage gives the outputs are the planned transactions' next units.
//!
//! These laws join what nodes have read (`cdc_content`) and what the merge stage made of it (`cdc_merge_stage`) to what an
//! output's stage asks of its units (`cdc_dump_stage`) and a checkpoint of its parts (`cdc_recovery`). Each function ensures its
//! law, so that the check proves it. Called by the pass. Definitions: `Given`, `Laws`.
#![tactic(auto)]

mod laws;

pub use laws::{
    all_read_gives_all, pass_gives_planned_units, pass_point_is_the_last, pass_points_are_sound,
    too_large_ends_the_pass,
};
