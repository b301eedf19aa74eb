//! The laws of a pass's units. Each function ensures its law, so that the check proves it.

ghost use Rattle.cdc_units.specs.Laws.{PassGivesPlannedUnits, AllReadGivesAll, TooLargeEndsThePass, PassPointsAreSound, PassPointIsTheLast};

use cdc_content::{
    points_behind_are_sound, points_of_all_are_the_latest, readings_are_feeds,
    readings_of_all_settle_all, readings_settle_the_next,
};
use cdc_merge_stage::units_are_settled;

/// A law: whatever nodes have read and given, each output has got units of the next planned transactions, and the merge stage
/// stands behind those that it made.
pub fn pass_gives_planned_units()
    ensures { PassGivesPlannedUnits }
{
    readings_are_feeds();
    readings_settle_the_next();
    units_are_settled();
}

/// A law: where each log was read to its end or its fault and the merge stage is whole, it stands behind all planned
/// transactions, and none is too large.
pub fn all_read_gives_all()
    ensures { AllReadGivesAll }
{
    readings_are_feeds();
    readings_of_all_settle_all();
    units_are_settled();
}

/// A law: where the merge stage met a print that is too large, it stands behind all planned transactions, and tells the one
/// that ends them.
pub fn too_large_ends_the_pass()
    ensures { TooLargeEndsThePass }
{
    readings_are_feeds();
    readings_settle_the_next();
    units_are_settled();
}

/// A law: the checkpoint of where the merge stage stands, with the latest restart points of what was read, is sound.
pub fn pass_points_are_sound()
    ensures { PassPointsAreSound }
{
    readings_are_feeds();
    readings_settle_the_next();
    points_behind_are_sound();
    units_are_settled();
}

/// A law: where each log was read to its end or its fault, and the merge stage stands behind all planned transactions, it is
/// the last one.
pub fn pass_point_is_the_last()
    ensures { PassPointIsTheLast }
{
    readings_are_feeds();
    readings_settle_the_next();
    points_behind_are_sound();
    points_of_all_are_the_latest();
    units_are_settled();
}
