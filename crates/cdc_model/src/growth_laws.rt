//! The laws of logs that go on: what was sound stays, water marks don't fall, and the output only grows. Each function
//! ensures its law, so that the check proves it.

ghost use Rattle.cdc_model.specs.Growth.{SoundPrefixGrows, SoundEntriesGrow, ContinuedLogsGrow, LowWaterMarkRises, LeastMarkRises, SettledOrderGrows, OutputOfMoreGoesOn, OutputOnlyGrows};
ghost use Rattle.cdc_model.specs.OneFile.{OneFileEnds};

use cdc_event::{file_is_read_in_one_way, grown_file_continues};

/// A law: the sound entries of a log begin those of each log that continues it, and its fault stays.
pub fn sound_prefix_grows()
    ensures { SoundPrefixGrows }
{
    file_is_read_in_one_way();
    grown_file_continues();
}

/// A law: the same over entries, from whatever starting point.
pub fn sound_entries_grow()
    ensures { SoundEntriesGrow }
{}

/// A law: the logs of all nodes go on where their bytes do.
pub fn continued_logs_grow()
    ensures { ContinuedLogsGrow }
{
    file_is_read_in_one_way();
    grown_file_continues();
}

/// A law: where a log goes on, its low-water mark doesn't fall; a new branch with a shared key lies above the mark of before,
/// one with a local key at or above it.
pub fn low_water_mark_rises()
    ensures { LowWaterMarkRises }
{}

/// A law: where all logs go on, the low-water mark of all doesn't fall.
pub fn least_mark_rises()
    ensures { LeastMarkRises }
{}

/// A law: where all logs go on, the settled transactions of before are a front of those now, and an oversized one stays.
pub fn settled_order_grows()
    ensures { SettledOrderGrows }
{}

/// A law: the output files of more transactions continue those of fewer, and so does the one file.
pub fn output_of_more_goes_on()
    ensures { OutputOfMoreGoesOn }
{}

/// A law: where all logs go on, the output files of before stand, and so does the one file; the transaction that it has no
/// room for stays.
pub fn output_grows()
    ensures { OutputOnlyGrows }
{}

/// A law: the one file has all prints where all fit, else those before the first one that would pass its last place.
pub fn one_file_ends()
    ensures { OneFileEnds }
{}
