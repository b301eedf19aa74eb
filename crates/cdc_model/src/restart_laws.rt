//! The laws of restart points: which points of a log are such, and what is read from there. Each function ensures its law,
//! so that the check proves it.

ghost use Rattle.cdc_model.specs.Restart.{StartIsRestartPoint, RestartPointStays, SoundNumbersEnd, OneLatestPoint, LatestNeverFalls, RestartPointIsStart, RestartReadsTheRest, RestartPlaceReadsTheRest, RestartedPointsAreTheWholes, RestartGivesTheRest};
ghost use Rattle.cdc_model.specs.RestartNodes.{RestartPointsStay, ResumedLatestIsTheWholes};

use cdc_event::rest_is_read;

/// A law: a reading's start is a restart point for every key.
pub fn start_is_restart_point()
    ensures { StartIsRestartPoint }
{}

/// A law: a restart point stays one for a greater key and in a longer log.
pub fn restart_point_stays()
    ensures { RestartPointStays }
{}

/// A law: the sound numbers are those from the start's up to the latest one: the least of the next entry's, of those of the
/// Prepares that wait, and of those with which branches with greater keys began.
pub fn sound_numbers_end()
    ensures { SoundNumbersEnd }
{}

/// A law: there is a latest restart point, and one alone.
pub fn one_latest_point()
    ensures { OneLatestPoint }
{}

/// A law: for a greater key and in a longer log the latest restart point has no lesser number.
pub fn latest_never_falls()
    ensures { LatestNeverFalls }
{}

/// A law: a restart point's held branches are in order, without numbers and rows.
pub fn restart_point_is_start()
    ensures { RestartPointIsStart }
{}

/// A law: read from a restart point on, a log that has gone on has the same low-water mark and fault, the sound entries
/// behind the point, and the committed branches with keys above the point's.
pub fn restart_reads_the_rest()
    ensures { RestartReadsTheRest }
{}

/// A law: the entries of a log's bytes from a restart point's place on, under its setting, are those from its number on.
pub fn restart_place_reads_the_rest()
    ensures { RestartPlaceReadsTheRest }
{
    rest_is_read();
}

/// A law: the restart points of what is read from a restart point on are those of the whole log from there on, and so is
/// the latest one.
pub fn restarted_points_are_the_wholes()
    ensures { RestartedPointsAreTheWholes }
{}

/// A law: where each node's log is read from a restart point for the key of the n-th transaction, numbering from n gives the
/// transactions behind the first n.
pub fn restart_gives_the_rest()
    ensures { RestartGivesTheRest }
{}

/// A law: where the logs of all nodes go on, their restart points stay such, also for a greater key.
pub fn restart_points_stay()
    ensures { RestartPointsStay }
{}

/// A law: the latest restart point of a reading that began at a restart point is that of the whole log.
pub fn resumed_latest_is_the_wholes()
    ensures { ResumedLatestIsTheWholes }
{}
