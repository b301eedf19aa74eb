//! The laws of a pass's readings. Each function ensures its law, so that the check proves it.

ghost use Rattle.cdc_node_stage.specs.Job.{source_words};
ghost use Rattle.cdc_reads.specs.Laws.{JobsReadLogs, AllWindowsGiveAll, TooLargeIsOversized, EndsAreFaults, LastWindowsPointIsTheLast};

use cdc_content::readings_stand_so;
use cdc_model::{
    log_has_one_entry_list, restart_place_reads_the_rest, restart_point_is_start,
    restart_reads_the_rest,
};
use cdc_outside::Source;
use cdc_units::{
    all_read_gives_all, pass_gives_planned_units, pass_point_is_the_last, pass_points_are_sound,
    too_large_ends_the_pass,
};

/// A law: jobs that begin behind planned transactions of their sources' logs read these logs, in however many windows.
pub fn jobs_read_logs<S: Source>()
    ensures { JobsReadLogs (source_words S.tells S.held S.sizes S.lowest S.faults) }
{
    readings_stand_so();
    pass_gives_planned_units();
    restart_point_is_start();
    pass_points_are_sound();
}

/// A law: where each reading came to its log's end or fault and the merge stage is whole, all planned transactions were given,
/// and none is too large.
pub fn all_windows_give_all<S: Source>()
    ensures { AllWindowsGiveAll (source_words S.tells S.held S.sizes S.lowest S.faults) }
{
    readings_stand_so();
    all_read_gives_all();
}

/// A law: where the merge stage met a print that is too large, all planned transactions were given, and it tells the one that ends
/// them.
pub fn too_large_is_oversized<S: Source>()
    ensures { TooLargeIsOversized (source_words S.tells S.held S.sizes S.lowest S.faults) }
{
    readings_stand_so();
    too_large_ends_the_pass();
}

/// A law: where a reading came to a fault it is that of the whole log, and where it came to the log's end the log has none.
pub fn ends_are_faults<S: Source>()
    ensures { EndsAreFaults (source_words S.tells S.held S.sizes S.lowest S.faults) }
{
    log_has_one_entry_list();
    restart_reads_the_rest();
    restart_place_reads_the_rest();
}

/// A law: where each reading came to its log's end or fault and the merge stage is whole, the checkpoint of where it stands is the
/// last one of the logs.
pub fn last_windows_point_is_the_last<S: Source>()
    ensures { LastWindowsPointIsTheLast (source_words S.tells S.held S.sizes S.lowest S.faults) }
{
    readings_stand_so();
    all_read_gives_all();
    restart_point_is_start();
    pass_point_is_the_last();
}
