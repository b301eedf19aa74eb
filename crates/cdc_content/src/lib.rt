//! The content of a pass: what nodes read and give, joined to the settled transactions of their whole logs.
//!
//! A pass reads each node's log from its start or from a restart point on, and merges what is settled. These laws say that
//! whatever was read so far settles the next transactions of the whole logs, in their order and under their numbers; that it
//! settles all of them where every log was read to its end; and that the points found meanwhile are restart points of the whole
//! logs. Each function ensures its law, so that the check proves it. Called by the pass. Definitions: `Reading`, `Laws`.
#![tactic(auto)]

mod laws;

pub use laws::{
    points_behind_are_sound, points_of_all_are_the_latest, readings_are_feeds,
    readings_of_all_settle_all, readings_settle_the_next, readings_stand_so,
};
